//! Maps from names.

ghost use Rattle.std.specs.Prelude.{◌≡◌, OnOk, OnErr, IsTrue, slice_get};
ghost use Rattle.std.specs.Option.{option_copied, option_map};
ghost use Rattle.std.specs.FinMap.Entries.{put as put_pair, where_key, find as find_pair};
ghost use Rattle.lg_containers.specs.NameOrder.{name_order, is_in_order, other_than};
ghost use Rattle.lg_containers.specs.NameTable as table;
ghost use Rattle.lg_containers.specs.Pairs.{pair_of};
ghost use Rattle.lg_containers.specs.Places.{IsPlace};

use crate::duplicate::{Duplicate, copy_items};
use crate::fault::NoMemory;
use crate::grammar::Grammar;
use crate::name::Name;
use std::alloc::Global;
use std::cmp::Ordering;
use std::marker::Model;

/// A map from names of the grammar `G` to values, in the byte order of the names.
#[derive(Drop)]
pub struct NameMap<G: Grammar, V> {
    entries: Vec<(Name<G>, V)>,
}

impl<G: Grammar, V> Model for NameMap<G, V> {
    ghost use Rattle.std.specs.Prelude.{IsTrue};
    ghost use Rattle.lg_containers.specs.NameOrder.{is_in_order};
    ghost use Rattle.lg_containers.specs.NameTable.{NameTable, code, from_pairs};

    ghost Value = { NameTable V };

    ghost coded = { code V.code };

    ghost view = { λ m. from_pairs m.entries.items };

    ghost invariant = { λ m. IsTrue (is_in_order m.entries.items) };
}

impl<G: Grammar, V: Drop> NameMap<G, V> {
    /// The map without names.
    pub fn new(alloc: Global) -> NameMap<G, V>
        ensures { result ≡ table.empty }
    {
        NameMap {
            entries: Vec::new(alloc),
        }
    }

    /// How many names there are.
    pub fn len(&self) -> usize
        ensures { result ≡ table.len self.now }
    {
        self.entries.len()
    }

    /// The names with their values, in the byte order of the names.
    pub fn entries(&self) -> &[(Name<G>, V)]
        ensures { result.now ≡ table.pairs_of self.now }
    {
        self.entries.as_slice()
    }

    /// The name at the place in byte order, counted from 0, with its value, and `None` exactly past the end.
    pub fn get(&self, place: usize) -> Option<(&Name<G>, &V)>
        ensures { option_map pair_of result ≡ slice_get (table.pairs_of self.now) place }
    {
        entry_at(&self.entries, place)
    }

    /// The value of the name, and `None` exactly where the name isn't there.
    pub fn find(&self, name: &[u8]) -> Option<&V>
        ensures { option_copied result ≡ table.get self.now name.now }
    {
        find_entry(&self.entries, name)
    }

    /// Sets the value of the name, in place of one that it has.
    pub fn put(&mut self, name: Name<G>, value: V) -> Result<(), NoMemory>
        ensures ok { OnOk result (self.new ≡ table.insert self.old name value) }
        ensures err { OnErr result (self.new ≡ self.old) }
    {
        put_entry(&mut self.entries, name, value)
    }

    /// Takes the name out and gives its value, and `None` exactly where the name isn't there.
    pub fn take(&mut self, name: &[u8]) -> Option<V>
        ensures value { result ≡ table.get self.old name.now }
        ensures rest { self.new ≡ table.remove self.old name.now }
    {
        take_entry(&mut self.entries, name)
    }
}

impl<G: Grammar, V: Duplicate> Duplicate for NameMap<G, V> {
    fn copy(&self, alloc: Global) -> Result<NameMap<G, V>, NoMemory> {
        Ok(NameMap {
            entries: copy_items(alloc, self.entries.as_slice())?,
        })
    }
}

fn entry_at<G: Grammar, V>(entries: &[(Name<G>, V)], place: usize) -> Option<(&Name<G>, &V)>
    ensures { option_map pair_of result ≡ slice_get entries.now place }
{
    match entries.get(place) {
        Some(entry) => Some((&entry.0, &entry.1)),
        None => None,
    }
}

// Where the name stands, or where it belongs.
fn place_of<G: Grammar, V>(entries: &[(Name<G>, V)], name: &[u8]) -> Result<usize, usize>
    requires { IsTrue (is_in_order entries.now) }
    ensures { IsPlace name.now entries.now result }
{
    entries.binary_search_by(|entry| compare(&entry.0, name))
}

fn compare<G: Grammar>(own: &Name<G>, name: &[u8]) -> Ordering
    ensures { result ≡ name_order own.now name.now }
{
    own.bytes().cmp(name)
}

fn find_entry<'a, G: Grammar, V>(entries: &'a [(Name<G>, V)], name: &[u8]) -> Option<&'a V>
    requires { IsTrue (is_in_order entries.now) }
    ensures { option_copied result ≡ find_pair name_order name.now entries.now }
{
    match place_of(entries, name) {
        Ok(place) => Some(&entries[place].1),
        Err(_) => None,
    }
}

fn put_entry<G: Grammar, V: Drop>(
    entries: &mut Vec<(Name<G>, V)>,
    name: Name<G>,
    value: V,
) -> Result<(), NoMemory>
    requires { IsTrue (is_in_order entries.old.items) }
    ensures ok { OnOk result (entries.new.items ≡ put_pair name_order name value entries.old.items) }
    ensures err { OnErr result (entries.new.items ≡ entries.old.items) }
{
    match place_of(entries, name.bytes()) {
        Ok(place) => {
            entries[place] = (name, value);
            Ok(())
        }
        Err(place) => {
            reserve_first(entries)?;
            entries.insert(place, (name, value))?;
            Ok(())
        }
    }
}

// Takes room for one entry and no more, where there is none yet: many maps have one name.
fn reserve_first<G: Grammar, V>(entries: &mut Vec<(Name<G>, V)>) -> Result<(), NoMemory>
    ensures { entries.new.items ≡ entries.old.items }
{
    if entries.is_empty() {
        entries.reserve_exact(1)?;
    }
    Ok(())
}

fn take_entry<G: Grammar, V: Drop>(entries: &mut Vec<(Name<G>, V)>, name: &[u8]) -> Option<V>
    requires { IsTrue (is_in_order entries.old.items) }
    ensures value { result ≡ find_pair name_order name.now entries.old.items }
    ensures rest { entries.new.items ≡ where_key name_order (other_than name.now) entries.old.items }
{
    match place_of(entries, name) {
        Ok(place) => {
            let (_, value) = entries.remove(place);
            Some(value)
        }
        Err(_) => None,
    }
}
