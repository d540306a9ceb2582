//! Entries taken out.

ghost use Rattle.std.specs.Prelude.{◌≡◌, ℕ, ◌+◌, ◌-◌, ◌<◌, ◌≤◌, ◌^◌, cond, eqb, List, length, map, set, slice_index, slice_index_or};
ghost use Rattle.std.specs.List.{remove};
ghost use Rattle.std.specs.Vec.{vec_capacity};
ghost use Rattle.lg_maps.specs.Chosen.{chosen, IsOrder, IsOneLess};
ghost use Rattle.lg_maps.specs.Moved.{moved};

use crate::order::{entry_place, place_of};
use lg_containers::{Grammar, Name};

/// Takes out the entry at the place in the order of names, and gives its value.
pub(crate) fn take_entry<G: Grammar, V: Drop>(
    entries: &mut Vec<(Name<G>, V)>,
    places: &mut Vec<u32>,
    place: usize,
) -> V
    requires order { IsOrder entries.old.items places.old.items }
    requires within { place < length entries.old.items }
    requires limit { length entries.old.items ≤ 2 ^ 32 }
    ensures value { (e : List ℕ × V) → result ≡ (slice_index_or (chosen places.old.items entries.old.items) place e).1 }
    ensures rest { chosen places.new.items entries.new.items ≡ remove (chosen places.old.items entries.old.items) place }
    ensures below { (k : ℕ) → k < length places.new.items → slice_index places.new.items k < length entries.new.items }
    ensures entries { length entries.new.items + 1 ≡ length entries.old.items }
    ensures entry_room { vec_capacity entries.new ≡ vec_capacity entries.old }
    ensures places { IsOneLess (length places.old.items) (length places.new.items) }
    ensures place_room { vec_capacity places.new ≡ vec_capacity places.old }
{
    if places.is_empty() {
        let (_, value) = entries.remove(place);
        return value;
    }
    let at = entry_place(places, place);
    move_last(entries, places, at);
    places.remove(place);
    let (_, value) = entries.swap_remove(at);
    value
}

// Sets the place of the last entry to the one given.
fn move_last<G: Grammar, V>(entries: &[(Name<G>, V)], places: &mut Vec<u32>, at: usize)
    requires order { IsOrder entries.now places.old.items }
    requires placed { 0 < length places.old.items }
    requires within { at < length entries.now }
    requires limit { length entries.now ≤ 2 ^ 32 }
    ensures items { places.new.items ≡ map (moved (length entries.now - 1) at) places.old.items }
    ensures room { vec_capacity places.new ≡ vec_capacity places.old }
{
    let last = entries.len() - 1;
    match place_of(entries, places, entries[last].0.bytes()) {
        Ok(place) => replace_at(places, place, last, at),
        Err(_) => {}
    }
}

// Sets the place where it is the old one.
fn replace_at(places: &mut Vec<u32>, place: usize, old: usize, new: usize)
    requires within { place < length places.old.items }
    requires limit { new < 2 ^ 32 }
    ensures items { places.new.items ≡ cond (eqb (slice_index places.old.items place) old) (set places.old.items place new) places.old.items }
    ensures room { vec_capacity places.new ≡ vec_capacity places.old }
{
    if places[place] as usize == old {
        places[place] = new as u32;
    }
}
