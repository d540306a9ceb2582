//! Maps that take names into room made before.

ghost use Rattle.std.specs.Prelude.{◌≡◌, ◌≤◌, ◌<◌, ◌-◌, max, None, Some, OnOk, OnErr, IfOk, IsOk, IsSome, slice_get};
ghost use Rattle.std.specs.Option.{option_copied, option_map};
ghost use Rattle.std.specs.Borrow.{Lends, sem};
ghost use Rattle.lg_containers.specs.NameTable as table;
ghost use Rattle.lg_containers.specs.Pairs.{pair_of};
ghost use Rattle.lg_containers.specs.Places.{BelongsAt, IsPlace};
ghost use Rattle.lg_maps.specs.Behind.{behind};
ghost use Rattle.lg_maps.specs.Contents.{name_at};

use crate::order::{entry_at, entry_place, find_entry, place_of};
use crate::room::{copy_places, insert_within, reserve_items, reserve_places};
use crate::taking::take_entry;
use lg_containers::{Duplicate, Grammar, Name, NoMemory, copy_items};
use std::alloc::Global;
use std::marker::Model;

/// The most entries that places can tell apart.
const LIMIT: usize = 4_294_967_296;

/// A map from names of the grammar `G` to values, in the byte order of the names, which takes new names into room made
/// before.
#[derive(Drop)]
pub struct PreparedMap<G: Grammar, V> {
    entries: Vec<(Name<G>, V)>,
    places: Vec<u32>,
    spare: usize,
}

impl<G: Grammar, V> Model for PreparedMap<G, V> {
    ghost use Rattle.std.specs.Vec.{vec_capacity};
    ghost use Rattle.lg_containers.specs.NameTable.{from_pairs};
    ghost use Rattle.lg_maps.specs.Chosen.{chosen, IsKept};
    ghost use Rattle.lg_maps.specs.Contents.{Contents, contents_code};

    ghost Value = { Contents V };

    ghost coded = { contents_code V.code };

    ghost view = { λ m. record { table = from_pairs (chosen m.places.items m.entries.items); spare = m.spare } };

    ghost invariant = { λ m. IsKept m.entries.items m.places.items m.spare (vec_capacity m.entries) (vec_capacity m.places) };
}

impl<G: Grammar, V> PreparedMap<G, V> {
    ghost use Rattle.lg_maps.specs.contracts.prepared.PreparedMap.{the_row};

    /// The map without names and without room.
    pub fn new(alloc: Global) -> PreparedMap<G, V>
        ensures { result ≡ record { table = table.empty; spare = 0 } }
    {
        PreparedMap {
            entries: Vec::new(alloc),
            places: Vec::new(alloc),
            spare: 0,
        }
    }

    /// How many names there are.
    pub fn len(&self) -> usize
        ensures { result ≡ table.len self.now.table }
    {
        self.entries.len()
    }

    /// The name at the place in byte order, counted from 0, with its value, and `None` exactly past the end.
    pub fn get(&self, place: usize) -> Option<(&Name<G>, &V)>
        ensures { option_map pair_of result ≡ slice_get (table.pairs_of self.now.table) place }
    {
        entry_at(&self.entries, &self.places, place)
    }

    /// Where the name stands in byte order, or where it belongs.
    pub(crate) fn place_of(&self, name: &[u8]) -> Result<usize, usize>
        ensures { IsPlace name.now (table.pairs_of self.now.table) result }
    {
        place_of(&self.entries, &self.places, name)
    }

    /// The value of the name, and `None` exactly where the name isn't there.
    pub fn find(&self, name: &[u8]) -> Option<&V>
        ensures { option_copied result ≡ table.get self.now.table name.now }
    {
        find_entry(&self.entries, &self.places, name)
    }

    /// The next name behind the given one in byte order, with its value; where none is given, the first name. `None`
    /// exactly where there is no such name.
    pub fn after(&self, name: Option<&[u8]>) -> Option<(&Name<G>, &V)>
        ensures { option_map pair_of result ≡ behind self.now.table (option_copied name.entry) }
    {
        match name {
            Some(name) => self.get(self.place_behind(name)),
            None => self.get(0),
        }
    }

    // The place of the first name that is greater.
    fn place_behind(&self, name: &[u8]) -> usize
        ensures { slice_get (table.pairs_of self.now.table) result ≡ behind self.now.table (Some name.now) }
    {
        match place_of(&self.entries, &self.places, name) {
            Ok(place) => place + 1,
            Err(place) => place,
        }
    }

    /// The value of a name that is there.
    pub fn value_mut(&mut self, name: &[u8]) -> &mut V
        requires { IsSome (table.get self.old.table name.now) }
        ensures* writes_back { sem 𝓛 (Lends (the_row G.row V.row G.State.row G.Grammar) V.row self.entry result (λ w. record { table = table.insert self.old.table name.now w; spare = self.old.spare })) }
        ensures value { table.get self.old.table name.now ≡ Some result.now }
    {
        match self.place_of(name) {
            Ok(place) => self.value_at_mut(place),
            Err(_) => unreachable!(),
        }
    }

    /// The value at the place in byte order, counted from 0.
    pub fn value_at_mut(&mut self, place: usize) -> &mut V
        requires { place < table.len self.old.table }
        ensures* writes_back { sem 𝓛 (Lends (the_row G.row V.row G.State.row G.Grammar) V.row self.entry result (λ w. record { table = table.insert self.old.table (name_at self.old.table place) w; spare = self.old.spare })) }
        ensures value { slice_get (table.pairs_of self.old.table) place ≡ Some (name_at self.old.table place, result.now) }
    {
        let at = entry_place(&self.places, place);
        let entry = &mut self.entries[at];
        &mut entry.1
    }

    /// Makes room for at least as many more names. Room that is there already stays, and where it is enough nothing is
    /// wanting.
    pub fn prepare(&mut self, more: usize) -> Result<(), NoMemory>
        ensures ok { OnOk result (self.new ≡ record { table = self.old.table; spare = max self.old.spare more }) }
        ensures err { OnErr result (self.new ≡ self.old) }
        ensures there { more ≤ self.old.spare → IsOk result }
    {
        if self.spare < more {
            self.make_room(more)?;
        }
        Ok(())
    }

    // Makes room for more names than there is room for.
    fn make_room(&mut self, more: usize) -> Result<(), NoMemory>
        requires { self.old.spare < more }
        ensures ok { OnOk result (self.new ≡ record { table = self.old.table; spare = more }) }
        ensures err { OnErr result (self.new ≡ self.old) }
    {
        let count = self.entries.len();
        if more > LIMIT - count {
            return Err(NoMemory);
        }
        reserve_items(&mut self.entries, more)?;
        reserve_places(&mut self.places, count, self.spare, more)?;
        self.spare = more;
        Ok(())
    }
}

impl<G: Grammar, V: Drop> PreparedMap<G, V> {
    /// Sets the value of a name that isn't there. Takes no memory.
    pub fn apply(&mut self, name: Name<G>, value: V)
        requires room { 1 ≤ self.old.spare }
        requires absent { table.get self.old.table name ≡ None }
        ensures { self.new ≡ record { table = table.insert self.old.table name value; spare = self.old.spare - 1 } }
    {
        match self.place_of(name.bytes()) {
            Ok(_) => unreachable!(),
            Err(place) => self.insert_at(place, name, value),
        }
    }

    /// Puts the name where it belongs. Takes no memory.
    pub(crate) fn insert_at(&mut self, place: usize, name: Name<G>, value: V)
        requires room { 1 ≤ self.old.spare }
        requires place { BelongsAt name (table.pairs_of self.old.table) place }
        ensures { self.new ≡ record { table = table.insert self.old.table name value; spare = self.old.spare - 1 } }
    {
        self.spare -= 1;
        if self.places.capacity() == 0 {
            insert_within(&mut self.entries, place, (name, value));
        } else {
            let last = self.entries.len();
            insert_within(&mut self.entries, last, (name, value));
            insert_within(&mut self.places, place, last as u32);
        }
    }

    /// Takes the name out and gives its value, and `None` exactly where the name isn't there. The room stays.
    pub fn take(&mut self, name: &[u8]) -> Option<V>
        ensures value { result ≡ table.get self.old.table name.now }
        ensures rest { self.new ≡ record { table = table.remove self.old.table name.now; spare = self.old.spare } }
    {
        match place_of(&self.entries, &self.places, name) {
            Ok(place) => Some(take_entry(&mut self.entries, &mut self.places, place)),
            Err(_) => None,
        }
    }
}

impl<G: Grammar, V: Duplicate> PreparedMap<G, V> {
    /// A map with the same names and values, without room for more.
    pub fn copy_names(&self, alloc: Global) -> Result<PreparedMap<G, V>, NoMemory>
        ensures { IfOk result (λ copied. copied ≡ record { table = self.now.table; spare = 0 }) }
    {
        Ok(PreparedMap {
            entries: copy_items(alloc, self.entries.as_slice())?,
            places: copy_places(alloc, self.places.as_slice())?,
            spare: 0,
        })
    }
}
