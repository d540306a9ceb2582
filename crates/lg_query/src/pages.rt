//! Pages, from the items that were gathered for them.

ghost use Rattle.std.specs.Prelude.{◌≡◌, IfOk};
ghost use Rattle.std.specs.Option.{option_map, option_copied};
ghost use Rattle.lg_views.specs.Tokens.{token};

use lg_base::NoMemory;
use lg_tokens::token_of;
use lg_types::{After, ListKind, Query, Text};
use std::alloc::Global;

/// The token of the page that goes on after the place, where there is one.
pub fn next_token(
    alloc: Global,
    kind: ListKind,
    query: &Query,
    place: Option<&After>,
) -> Result<Option<Text>, NoMemory>
    ensures { IfOk result (λ next. next ≡ option_map (token kind query.now) (option_copied place.entry)) }
{
    match place {
        None => Ok(None),
        Some(place) => {
            let token = token_of(alloc, kind, query, place)?;
            Ok(Some(token))
        }
    }
}
