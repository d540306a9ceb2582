//! Where the changes of each name stand.

ghost use Rattle.std.specs.Prelude.{◌≡◌, ℕ, List, [], ◌∷◌, ◌++◌, map, filter, nat_lt, OnOk, OnErr};
ghost use Rattle.lg_meta.specs.Index.{names, hits, places_in, SameBelowPlace};

use crate::places::Places;
use lg_containers::{NoMemory, Text, TextGrammar};
use lg_maps::NameMap;
use lg_types::MetaChange;
use std::alloc::Global;

/// For each name, the places of its changes. A name may have none.
pub(crate) type PlacesByName = NameMap<TextGrammar, Places>;

// Adds the place to those of the name. After an `Err` the name may be there without places.
fn mark(alloc: Global, index: &mut PlacesByName, name: &Text, place: usize) -> Result<(), NoMemory>
    ensures ok { OnOk result ((q : List ℕ) → places_in index.new q ≡ places_in index.old q ++ hits q place (name.now ∷ [])) }
    ensures err { OnErr result ((q : List ℕ) → places_in index.new q ≡ places_in index.old q) }
{
    let places = index.open(alloc, name, Places::new(alloc))?;
    places.push(place)
}

/// Adds the place to those of each name that the change sets or drops. After an `Err` some of the names may have it.
pub(crate) fn mark_change(
    alloc: Global,
    index: &mut PlacesByName,
    change: &MetaChange,
    place: usize,
) -> Result<(), NoMemory>
    ensures ok { OnOk result ((q : List ℕ) → places_in index.new q ≡ places_in index.old q ++ hits q place (names change.now)) }
    ensures err { OnErr result ((q : List ℕ) → SameBelowPlace place (places_in index.old q) (places_in index.new q)) }
{
    match change {
        MetaChange::Set(meta) => mark_names(alloc, index, meta.entries(), place),
        MetaChange::Drop(name) => mark(alloc, index, name, place),
    }
}

// Adds the place to those of the name of each pair.
fn mark_names(
    alloc: Global,
    index: &mut PlacesByName,
    pairs: &[(Text, Text)],
    place: usize,
) -> Result<(), NoMemory>
    ensures ok { OnOk result ((q : List ℕ) → places_in index.new q ≡ places_in index.old q ++ hits q place (map (λ pair. pair.0) pairs.now)) }
    ensures err { OnErr result ((q : List ℕ) → SameBelowPlace place (places_in index.old q) (places_in index.new q)) }
{
    for pair in pairs {
        mark(alloc, index, &pair.0, place)?;
    }
    Ok(())
}

/// Keeps the places below the limit.
pub(crate) fn cut(index: &mut PlacesByName, limit: usize)
    ensures { (q : List ℕ) → places_in index.new q ≡ filter (λ place. nat_lt place limit) (places_in index.old q) }
{
    for at in 0..index.len() {
        index.value_at_mut(at).cut(limit);
    }
}
