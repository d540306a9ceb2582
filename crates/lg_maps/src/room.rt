//! Room for entries and their places.

ghost use Rattle.std.specs.Prelude.{◌≡◌, ◌+◌, ◌<◌, ◌≤◌, ◌^◌, length, IfOk, OnOk, OnErr};
ghost use Rattle.std.specs.List.{insert, range_with_len};
ghost use Rattle.std.specs.Vec.{vec_capacity};
ghost use Rattle.lg_maps.specs.Chosen.{IsPlaceRoom, IsSpread};

use lg_containers::NoMemory;
use std::alloc::Global;

/// Up to how many entries stand in the order of their names, with no places.
const FEW: usize = 8;

/// Makes room for at least as many more items. A first item gets room for itself and no more: many maps have one name.
pub(crate) fn reserve_items<T>(items: &mut Vec<T>, more: usize) -> Result<(), NoMemory>
    ensures items { items.new.items ≡ items.old.items }
    ensures capacity { vec_capacity items.old ≤ vec_capacity items.new }
    ensures ok { OnOk result (length items.new.items + more ≤ vec_capacity items.new) }
{
    if items.is_empty() {
        items.reserve_exact(more)?;
        Ok(())
    } else {
        items.reserve(more)?;
        Ok(())
    }
}

/// Makes room for the places of more entries, beside those of the entries that are there. A few entries need none.
pub(crate) fn reserve_places(
    places: &mut Vec<u32>,
    count: usize,
    spare: usize,
    more: usize,
) -> Result<(), NoMemory>
    requires room { IsPlaceRoom count (length places.old.items) spare (vec_capacity places.old) }
    requires limit { count + more ≤ 2 ^ 32 }
    ensures places { IsSpread count places.old.items places.new.items }
    ensures ok { OnOk result (IsPlaceRoom count (length places.new.items) more (vec_capacity places.new)) }
    ensures err { OnErr result (IsPlaceRoom count (length places.new.items) spare (vec_capacity places.new)) }
{
    if places.capacity() > 0 {
        places.reserve(more)?;
        Ok(())
    } else if count + more > FEW {
        spread(places, count, more)
    } else {
        Ok(())
    }
}

// Makes room for all places, and gives each of the entries its own.
fn spread(places: &mut Vec<u32>, count: usize, more: usize) -> Result<(), NoMemory>
    requires empty { length places.old.items ≡ 0 }
    requires limit { count + more ≤ 2 ^ 32 }
    ensures ok { OnOk result (places.new.items ≡ range_with_len 0 count) }
    ensures room { OnOk result (count + more ≤ vec_capacity places.new) }
    ensures err { OnErr result (places.new.items ≡ places.old.items) }
    ensures full { OnErr result (vec_capacity places.new ≡ vec_capacity places.old) }
{
    places.reserve(count + more)?;
    place_all(places, count);
    Ok(())
}

// Gives each of the entries its own place, into room that is there.
fn place_all(places: &mut Vec<u32>, count: usize)
    requires empty { length places.old.items ≡ 0 }
    requires room { count ≤ vec_capacity places.old }
    requires limit { count ≤ 2 ^ 32 }
    ensures items { places.new.items ≡ range_with_len 0 count }
    ensures capacity { vec_capacity places.old ≤ vec_capacity places.new }
{
    for place in 0..count {
        insert_within(places, place, place as u32);
    }
}

/// Puts the item at the place, into room that is there.
pub(crate) fn insert_within<T: Drop>(items: &mut Vec<T>, place: usize, item: T)
    requires room { length items.old.items < vec_capacity items.old }
    requires place { place ≤ length items.old.items }
    ensures items { items.new.items ≡ insert items.old.items place item }
    ensures capacity { vec_capacity items.old ≤ vec_capacity items.new }
{
    match items.insert(place, item) {
        Ok(()) => {}
        Err(_) => unreachable!(),
    }
}

/// A copy of the places, without room where there are none.
pub(crate) fn copy_places(alloc: Global, places: &[u32]) -> Result<Vec<u32>, NoMemory>
    ensures items { IfOk result (λ own. own.items ≡ places.now) }
    ensures none { IfOk result (λ own. length places.now ≡ 0 → vec_capacity own ≡ 0) }
{
    if places.is_empty() {
        Ok(Vec::new(alloc))
    } else {
        Ok(Vec::from_slice(alloc, places)?)
    }
}
