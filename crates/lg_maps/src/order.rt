//! Entries that places put in the order of their names.

ghost use Rattle.std.specs.Prelude.{◌≡◌, ◌<◌, IsTrue, length, slice_get};
ghost use Rattle.std.specs.FinMap.Entries.{find as find_pair};
ghost use Rattle.std.specs.Option.{option_copied, option_map};
ghost use Rattle.lg_containers.specs.NameOrder.{name_order, is_in_order};
ghost use Rattle.lg_containers.specs.Pairs.{pair_of};
ghost use Rattle.lg_containers.specs.Places.{IsPlace};
ghost use Rattle.lg_maps.specs.Chosen.{chosen, held, IsOrder};
ghost use Rattle.lg_maps.specs.Searching.{order_at};

use lg_containers::{Grammar, Name};
use std::cmp::Ordering;

/// Which of the entries stands at the place in the order of names.
pub(crate) fn entry_place(places: &[u32], place: usize) -> usize
    ensures { result ≡ held places.now place }
{
    match places.get(place) {
        Some(at) => *at as usize,
        None => place,
    }
}

/// The name and the value at the place, and `None` exactly past the end.
pub(crate) fn entry_at<'a, G: Grammar, V>(
    entries: &'a [(Name<G>, V)],
    places: &[u32],
    place: usize,
) -> Option<(&'a Name<G>, &'a V)>
    requires { IsOrder entries.now places.now }
    ensures { option_map pair_of result ≡ slice_get (chosen places.now entries.now) place }
{
    match entries.get(entry_place(places, place)) {
        Some(entry) => Some((&entry.0, &entry.1)),
        None => None,
    }
}

/// Where the name stands, or where it belongs.
pub(crate) fn place_of<G: Grammar, V>(
    entries: &[(Name<G>, V)],
    places: &[u32],
    name: &[u8],
) -> Result<usize, usize>
    requires { IsOrder entries.now places.now }
    ensures { IsPlace name.now (chosen places.now entries.now) result }
{
    if places.is_empty() {
        place_in_entries(entries, name)
    } else {
        place_in_places(entries, places, name)
    }
}

/// The value of the name, and `None` exactly where the name isn't there.
pub(crate) fn find_entry<'a, G: Grammar, V>(
    entries: &'a [(Name<G>, V)],
    places: &[u32],
    name: &[u8],
) -> Option<&'a V>
    requires { IsOrder entries.now places.now }
    ensures { option_copied result ≡ find_pair name_order name.now (chosen places.now entries.now) }
{
    match place_of(entries, places, name) {
        Ok(place) => {
            let at = entry_place(places, place);
            Some(&entries[at].1)
        }
        Err(_) => None,
    }
}

fn place_in_entries<G: Grammar, V>(entries: &[(Name<G>, V)], name: &[u8]) -> Result<usize, usize>
    requires { IsTrue (is_in_order entries.now) }
    ensures { IsPlace name.now entries.now result }
{
    entries.binary_search_by(|entry| compare(&entry.0, name))
}

fn place_in_places<G: Grammar, V>(
    entries: &[(Name<G>, V)],
    places: &[u32],
    name: &[u8],
) -> Result<usize, usize>
    requires order { IsOrder entries.now places.now }
    requires placed { 0 < length places.now }
    ensures { IsPlace name.now (chosen places.now entries.now) result }
{
    places.binary_search_by(|at| compare_at(entries, *at as usize, name))
}

fn compare<G: Grammar>(own: &Name<G>, name: &[u8]) -> Ordering
    ensures { result ≡ name_order own.now name.now }
{
    own.bytes().cmp(name)
}

// Compares the name of the entry; past the end the answer is of no account.
fn compare_at<G: Grammar, V>(entries: &[(Name<G>, V)], at: usize, name: &[u8]) -> Ordering
    ensures { result ≡ order_at name.now (slice_get entries.now at) }
{
    match entries.get(at) {
        Some(entry) => compare(&entry.0, name),
        None => Ordering::Less,
    }
}
