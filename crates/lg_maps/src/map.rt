//! Maps from names.

ghost use Rattle.std.specs.Prelude.{◌≡◌, ◌<◌, OnOk, OnErr, IfOk, IsSome, Some, slice_get, unwrap_or};
ghost use Rattle.std.specs.Option.{option_copied, option_map};
ghost use Rattle.std.specs.Borrow.{Lends, LendsIfOk, sem};
ghost use Rattle.lg_containers.specs.NameTable as table;
ghost use Rattle.lg_containers.specs.Pairs.{pair_of};
ghost use Rattle.lg_containers.specs.Places.{IsAt};
ghost use Rattle.lg_maps.specs.Behind.{behind};
ghost use Rattle.lg_maps.specs.Contents.{name_at};

use crate::prepared::PreparedMap;
use lg_containers::{Duplicate, Grammar, Name, NoMemory};
use std::alloc::Global;
use std::marker::Model;

/// A map from names of the grammar `G` to values, in the byte order of the names.
#[derive(Drop)]
pub struct NameMap<G: Grammar, V> {
    names: PreparedMap<G, V>,
}

impl<G: Grammar, V> Model for NameMap<G, V> {
    ghost use Rattle.lg_containers.specs.NameTable.{NameTable, code};

    ghost Value = { NameTable V };

    ghost coded = { code V.code };

    ghost view = { λ m. m.names.table };
}

impl<G: Grammar, V> NameMap<G, V> {
    ghost use Rattle.lg_maps.specs.contracts.map.NameMap.{the_row};

    /// The map without names.
    pub fn new(alloc: Global) -> NameMap<G, V>
        ensures { result ≡ table.empty }
    {
        NameMap {
            names: PreparedMap::new(alloc),
        }
    }

    /// How many names there are.
    pub fn len(&self) -> usize
        ensures { result ≡ table.len self.now }
    {
        self.names.len()
    }

    /// The name at the place in byte order, counted from 0, with its value, and `None` exactly past the end.
    pub fn get(&self, place: usize) -> Option<(&Name<G>, &V)>
        ensures { option_map pair_of result ≡ slice_get (table.pairs_of self.now) place }
    {
        self.names.get(place)
    }

    /// The value of the name, and `None` exactly where the name isn't there.
    pub fn find(&self, name: &[u8]) -> Option<&V>
        ensures { option_copied result ≡ table.get self.now name.now }
    {
        self.names.find(name)
    }

    /// The next name behind the given one in byte order, with its value; where none is given, the first name. `None`
    /// exactly where there is no such name.
    pub fn after(&self, name: Option<&[u8]>) -> Option<(&Name<G>, &V)>
        ensures { option_map pair_of result ≡ behind self.now (option_copied name.entry) }
    {
        self.names.after(name)
    }

    /// The value of a name that is there.
    pub fn value_mut(&mut self, name: &[u8]) -> &mut V
        requires { IsSome (table.get self.old name.now) }
        ensures* writes_back { sem 𝓛 (Lends (the_row G.row V.row G.State.row G.Grammar) V.row self.entry result (λ w. table.insert self.old name.now w)) }
        ensures value { table.get self.old name.now ≡ Some result.now }
    {
        self.names.value_mut(name)
    }

    /// The value at the place in byte order, counted from 0.
    pub fn value_at_mut(&mut self, place: usize) -> &mut V
        requires { place < table.len self.old }
        ensures* writes_back { sem 𝓛 (Lends (the_row G.row V.row G.State.row G.Grammar) V.row self.entry result (λ w. table.insert self.old (name_at self.old place) w)) }
        ensures value { slice_get (table.pairs_of self.old) place ≡ Some (name_at self.old place, result.now) }
    {
        self.names.value_at_mut(place)
    }
}

impl<G: Grammar, V: Drop> NameMap<G, V> {
    ghost use Rattle.lg_maps.specs.contracts.map.NameMap.{the_row};

    /// The value of the name, under which the given one is put where the name isn't there.
    pub fn open(&mut self, alloc: Global, name: &Name<G>, value: V) -> Result<&mut V, NoMemory>
        ensures* writes_back { sem 𝓛 (LendsIfOk (the_row G.row V.row G.State.row G.Grammar) V.row self.entry result (λ w. table.insert self.old name.now w) self.old) }
        ensures value { IfOk result (λ held. held.now ≡ unwrap_or (table.get self.old name.now) value) }
    {
        match open_name(alloc, &mut self.names, name, value) {
            Ok(place) => Ok(self.names.value_at_mut(place)),
            Err(error) => Err(error),
        }
    }

    /// Sets the value of the name, in place of one that it has.
    pub fn put(&mut self, name: Name<G>, value: V) -> Result<(), NoMemory>
        ensures ok { OnOk result (self.new ≡ table.insert self.old name value) }
        ensures err { OnErr result (self.new ≡ self.old) }
    {
        match self.names.place_of(name.bytes()) {
            Ok(place) => {
                *self.names.value_at_mut(place) = value;
                Ok(())
            }
            Err(place) => {
                self.names.prepare(1)?;
                self.names.insert_at(place, name, value);
                Ok(())
            }
        }
    }

    /// Takes the name out and gives its value, and `None` exactly where the name isn't there.
    pub fn take(&mut self, name: &[u8]) -> Option<V>
        ensures value { result ≡ table.get self.old name.now }
        ensures rest { self.new ≡ table.remove self.old name.now }
    {
        self.names.take(name)
    }
}

impl<G: Grammar, V: Duplicate> Duplicate for NameMap<G, V> {
    fn copy(&self, alloc: Global) -> Result<NameMap<G, V>, NoMemory> {
        Ok(NameMap {
            names: self.names.copy_names(alloc)?,
        })
    }
}

// The place of the name, under which the value is put where the name isn't there.
fn open_name<G: Grammar, V: Drop>(
    alloc: Global,
    names: &mut PreparedMap<G, V>,
    name: &Name<G>,
    value: V,
) -> Result<usize, NoMemory>
    ensures place { IfOk result (λ place. IsAt name.now (table.pairs_of names.new.table) place) }
    ensures ok { OnOk result (names.new.table ≡ table.insert names.old.table name.now (unwrap_or (table.get names.old.table name.now) value)) }
    ensures err { OnErr result (names.new.table ≡ names.old.table) }
{
    match names.place_of(name.bytes()) {
        Ok(place) => Ok(place),
        Err(place) => {
            let own = name.copy(alloc)?;
            names.prepare(1)?;
            names.insert_at(place, own, value);
            Ok(place)
        }
    }
}
