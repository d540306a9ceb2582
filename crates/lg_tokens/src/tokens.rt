//! The query that a token stands for.

ghost use Rattle.std.specs.Prelude.{◌≡◌, ◌⊎◌, Ok, Err, Some, IfOk, IfSome, MatchOption, bytes_eq};
ghost use Rattle.lg_types.specs.declared.filters.After.{After};
ghost use Rattle.lg_types.specs.declared.queries.Query.{Query};
ghost use Rattle.lg_codec.specs.Results.{Reads};
ghost use Rattle.lg_types.specs.declared.refusals.Refusal.TheVariants.{Token};
ghost use Rattle.lg_readings.specs.TokenReadings.{IsPageQuery, IsTokenOf, TokenQuery};
ghost use Rattle.lg_views.specs.Tokens.{token};

use crate::decoding::decode;
use crate::laws::tokens_decode;
use crate::queries::read_query;
use crate::written_tokens::token_of;
use lg_base::NoMemory;
use lg_codec::CodecStop;
use lg_routes::same_bytes;
use lg_types::{ListKind, Query, Refusal};
use std::alloc::Global;

/// A query of a page of the list, which is the one that the token stands for where there is one.
fn query_of_token(alloc: Global, kind: ListKind, bytes: &[u8]) -> Result<Option<Query>, NoMemory>
    ensures page { IfOk result (λ query.
        IfSome query (λ q. (place : After) × IsPageQuery kind q place)) }
    ensures found { IfOk result (λ query. (q : Query) → IsTokenOf kind bytes.now q
        → MatchOption query ⊥ (IsTokenOf kind bytes.now)) }
{
    tokens_decode();
    match decode(alloc, bytes)? {
        Some(text) => read_query(alloc, kind, &text),
        None => Ok(None),
    }
}

/// Whether the bytes are the token of the query.
fn is_token(alloc: Global, kind: ListKind, query: &Query, bytes: &[u8]) -> Result<bool, NoMemory>
    ensures { IfOk result (λ same. (place : After) → query.now.after ≡ Some place
        → same ≡ bytes_eq (token kind query.now place) bytes.now) }
{
    match &query.after {
        Some(place) => {
            let token = token_of(alloc, kind, query, place)?;
            Ok(same_bytes(token.bytes(), bytes))
        }
        None => Ok(false),
    }
}

/// The query, where the bytes are its token.
fn checked(alloc: Global, kind: ListKind, query: Query, bytes: &[u8]) -> Result<Query, CodecStop>
    requires { (place : After) × IsPageQuery kind query place }
    ensures { Reads (λ r.
        ((r ≡ Ok query) × IsTokenOf kind bytes.now query) ⊎ ((r ≡ Err Token) × ¬ (IsTokenOf kind bytes.now query))) result }
{
    if is_token(alloc, kind, &query, bytes)? {
        Ok(query)
    } else {
        Err(CodecStop::Refused(Refusal::Token))
    }
}

/// The query of a page of the list that a token stands for. `Token` refuses what is no token of a page of this list.
pub fn read_token(alloc: Global, kind: ListKind, bytes: &[u8]) -> Result<Query, CodecStop>
    ensures { Reads (TokenQuery kind bytes.now) result }
{
    match query_of_token(alloc, kind, bytes)? {
        Some(query) => checked(alloc, kind, query, bytes),
        None => Err(CodecStop::Refused(Refusal::Token)),
    }
}
