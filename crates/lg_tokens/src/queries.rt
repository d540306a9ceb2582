//! The query of a token's text.

ghost use Rattle.std.specs.Prelude.{◌≡◌, List, ℕ, Some, ◌≤◌, ◌++◌, MatchOption, IfOk, IfSome};
ghost use Rattle.lg_types.specs.declared.filters.After.{After};
ghost use Rattle.lg_types.specs.declared.filters.Filter.{Filter};
ghost use Rattle.lg_types.specs.declared.queries.Query.{Query};
ghost use Rattle.lg_readings.specs.TokenReadings.{IsPlaceOf, IsPageQuery};
ghost use Rattle.lg_views.specs.Tokens.{filter_member, token_text};
ghost use Rattle.lg_tokens.specs.Parts.{IsTail, IsShown, head_text, tail_text};
ghost use Rattle.lg_tokens.specs.Asked.{IsAsked, asked_text};
ghost use Rattle.lg_tokens.specs.declared.asked.Asked.{Asked};

use crate::asked::Asked;
use crate::filters::read_filter_member;
use crate::front::read_page_size;
use crate::options::read_asked;
use crate::places::read_place;
use lg_base::NoMemory;
use lg_types::{After, Filter, ListKind, Query};
use std::alloc::Global;

/// The page size and what else is asked for, and what stands behind.
fn read_front(kind: ListKind, bytes: &[u8]) -> Option<(u8, Asked, &[u8])>
    ensures size { IfSome result (λ found. (1 ≤ found.0) × (found.0 ≤ 100)) }
    ensures asks { IfSome result (λ found. IsAsked kind found.1) }
    ensures found { (size : ℕ) (asked : Asked) (more : List ℕ) → 1 ≤ size → size ≤ 100
        → IsAsked kind asked → IsTail more
        → bytes.now ≡ head_text kind size ++ (asked_text asked ++ more)
        → MatchOption result ⊥ (λ found.
        (found.0 ≡ size) × (found.1 ≡ asked) × (found.2.now ≡ more)) }
{
    let (size, rest) = read_page_size(kind, bytes)?;
    let (asked, rest) = read_asked(kind, rest)?;
    Some((size, asked, rest))
}

/// The filter and the place.
fn read_tail(
    alloc: Global,
    kind: ListKind,
    bytes: &[u8],
) -> Result<Option<(Filter, After)>, NoMemory>
    ensures shown { IfOk result (λ found. IfSome found (λ f. IsShown kind f.0)) }
    ensures place { IfOk result (λ found. IfSome found (λ f. IsPlaceOf kind f.1)) }
    ensures found { IfOk result (λ found. (filter : Filter) (place : After) → IsShown kind filter
        → IsPlaceOf kind place
        → bytes.now ≡ tail_text filter place
        → MatchOption found ⊥ (λ f. (filter_member f.0 ≡ filter_member filter) × (f.1 ≡ place))) }
{
    match read_filter_member(alloc, kind, bytes)? {
        Some((filter, rest)) => match read_place(alloc, kind, rest)? {
            Some(place) => Ok(Some((filter, place))),
            None => Ok(None),
        },
        None => Ok(None),
    }
}

fn query_of(size: u8, asked: Asked, filter: Filter, place: After) -> Query
    ensures { result ≡ record { filter = filter; pit = asked.pit; page_size = size; after = Some place; expand = asked.expand; span = asked.span } }
{
    Query {
        filter,
        pit: asked.pit,
        page_size: size,
        after: Some(place),
        expand: asked.expand,
        span: asked.span,
    }
}

/// The query of a page of the list whose text the bytes are, where there is one; else any query of a page of the
/// list, or none.
pub fn read_query(alloc: Global, kind: ListKind, text: &[u8]) -> Result<Option<Query>, NoMemory>
    ensures page { IfOk result (λ query.
        IfSome query (λ q. (place : After) × IsPageQuery kind q place)) }
    ensures found { IfOk result (λ query. (q : Query) (place : After) → IsPageQuery kind q place
        → text.now ≡ token_text kind q place
        → MatchOption query ⊥ (λ g. (g.after ≡ Some place) × (token_text kind g place ≡ text.now))) }
{
    match read_front(kind, text) {
        Some((size, asked, rest)) => match read_tail(alloc, kind, rest)? {
            Some((filter, place)) => Ok(Some(query_of(size, asked, filter, place))),
            None => Ok(None),
        },
        None => Ok(None),
    }
}
