//! What a history does to its parts.

ghost use Rattle.std.specs.Prelude.{◌≡◌, ℕ, List, [], ◌∷◌, ◌++◌, filter, nat_lt, pos, OnOk, OnErr, vec_len};
ghost use Rattle.std.specs.Option.{option_copied};
ghost use Rattle.lg_meta.specs.Index.{names, hits, places_in, changes_of, with_value, SameBelowPlace};

use crate::change::DatedChange;
use crate::index::{PlacesByName, cut, mark_change};
use lg_containers::{Duplicate, Meta, NoMemory, Text};
use lg_types::MetaChange;
use std::alloc::Global;

/// Adds the change behind the others, and its place to those of its names.
pub(crate) fn add_change(
    alloc: Global,
    changes: &mut Vec<DatedChange>,
    index: &mut PlacesByName,
    change: MetaChange,
) -> Result<(), NoMemory>
    ensures ok { OnOk result (changes.new.items ≡ changes.old.items ++ record { date = pos 0; change = change } ∷ []) }
    ensures marked { OnOk result ((q : List ℕ) → places_in index.new q ≡ places_in index.old q ++ hits q (vec_len changes.old) (names change)) }
    ensures err { OnErr result (changes.new.items ≡ changes.old.items) }
    ensures unmarked { OnErr result ((q : List ℕ) → places_in index.new q ≡ filter (λ place. nat_lt place (vec_len changes.old)) (places_in index.old q)) }
{
    let place = changes.len();
    match push_change(alloc, changes, index, change) {
        Ok(()) => Ok(()),
        Err(error) => {
            cut(index, place);
            Err(error)
        }
    }
}

fn push_change(
    alloc: Global,
    changes: &mut Vec<DatedChange>,
    index: &mut PlacesByName,
    change: MetaChange,
) -> Result<(), NoMemory>
    ensures ok { OnOk result (changes.new.items ≡ changes.old.items ++ record { date = pos 0; change = change } ∷ []) }
    ensures marked { OnOk result ((q : List ℕ) → places_in index.new q ≡ places_in index.old q ++ hits q (vec_len changes.old) (names change)) }
    ensures err { OnErr result (changes.new.items ≡ changes.old.items) }
    ensures unmarked { OnErr result ((q : List ℕ) → SameBelowPlace (vec_len changes.old) (places_in index.old q) (places_in index.new q)) }
{
    mark_change(alloc, index, &change, changes.len())?;
    changes.push(DatedChange { date: 0, change })?;
    Ok(())
}

/// Puts a copy of the value under the name, where there is one.
pub(crate) fn put_copy(
    alloc: Global,
    meta: &mut Meta,
    name: &Text,
    value: Option<&Text>,
) -> Result<(), NoMemory>
    ensures { OnOk result (meta.new ≡ with_value meta.old name.now (option_copied value.entry)) }
{
    match value {
        None => Ok(()),
        Some(value) => meta.put(name.copy(alloc)?, value.copy(alloc)?),
    }
}
