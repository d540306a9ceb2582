//! Histories of metadata.

ghost use Rattle.std.specs.Prelude.{◌≡◌, ◌≤ℤ◌, ◌-◌, [], ◌∷◌, ◌++◌, length, take, drop, Some, IsSome, IfSome, IfOk, OnOk, OnErr, slice_get};
ghost use Rattle.std.specs.Option.{option_copied};
ghost use Rattle.lg_containers.specs.NameTable.{get};
ghost use Rattle.lg_meta.specs.MetaFold.{meta_at, first_date, last_date};
ghost use Rattle.lg_meta.specs.History.{first_applied};

use crate::adding::{add_change, put_copy};
use crate::change::DatedChange;
use crate::index::{PlacesByName, cut};
use crate::latest::latest;
use lg_containers::{Duplicate, Meta, NoMemory, Text};
use lg_maps::NameMap;
use lg_types::MetaChange;
use std::alloc::Global;
use std::marker::Model;

/// The changes of the metadata of one account or transaction, in the order of their dates.
///
/// A change is prepared first, which takes all the memory that it needs, and applied later, which takes none.
#[derive(Drop)]
pub struct MetaHistory {
    alloc: Global,
    // The applied changes, and then the prepared ones, whose dates mean nothing yet.
    changes: Vec<DatedChange>,
    applied: usize,
    index: PlacesByName,
}

impl Model for MetaHistory {
    ghost use Rattle.std.specs.Prelude.{take, drop};
    ghost use Rattle.lg_meta.specs.History.{History};
    ghost use Rattle.lg_meta.specs.Index.{IsIndexed, changes_of};

    ghost Value = { History };

    ghost view = { λ h. record { changes = take h.applied h.changes.items; prepared = changes_of (drop h.applied h.changes.items) } };

    ghost invariant = { λ h. IsIndexed h.changes.items h.applied h.index };
}

impl MetaHistory {
    /// The history without changes.
    pub fn new(alloc: Global) -> MetaHistory
        ensures { result ≡ record { changes = []; prepared = [] } }
    {
        MetaHistory {
            alloc,
            changes: Vec::new(alloc),
            applied: 0,
            index: NameMap::new(alloc),
        }
    }

    /// Prepares the change, as the last of those that are prepared.
    pub fn prepare(&mut self, change: &MetaChange) -> Result<(), NoMemory>
        ensures ok { OnOk result (self.new ≡ record { changes = self.old.changes; prepared = self.old.prepared ++ change.now ∷ [] }) }
        ensures err { OnErr result (self.new ≡ self.old) }
    {
        let copied = change.copy(self.alloc)?;
        add_change(self.alloc, &mut self.changes, &mut self.index, copied)
    }

    /// Gives the prepared changes up.
    pub fn forget(&mut self)
        ensures { self.new ≡ record { changes = self.old.changes; prepared = [] } }
    {
        cut(&mut self.index, self.applied);
        self.changes.truncate(self.applied);
    }

    /// Gives up the change that was prepared last, where one is prepared.
    pub fn forget_last(&mut self)
        ensures { self.new ≡ record { changes = self.old.changes; prepared = take (length self.old.prepared - 1) self.old.prepared } }
    {
        if self.applied < self.changes.len() {
            let last = self.changes.len() - 1;
            cut(&mut self.index, last);
            self.changes.truncate(last);
        }
    }

    /// Applies the first prepared change, which is the one given, at the date. Takes no memory.
    pub fn apply(&mut self, date: i64, change: MetaChange)
        requires first { slice_get self.old.prepared 0 ≡ Some change }
        requires later { IfSome (last_date self.old.changes) (λ last. last ≤ℤ date) }
        ensures { self.new ≡ record { changes = self.old.changes ++ record { date = date; change = change } ∷ []; prepared = drop 1 self.old.prepared } }
    {
        drop(change);
        self.apply_first(date);
    }

    /// Applies the first prepared change at the date. Takes no memory.
    pub fn apply_first(&mut self, date: i64)
        requires first { IsSome (slice_get self.old.prepared 0) }
        requires later { IfSome (last_date self.old.changes) (λ last. last ≤ℤ date) }
        ensures { self.new ≡ first_applied date self.old.changes self.old.prepared }
    {
        let dated = &mut self.changes[self.applied];
        dated.date = date;
        self.applied += 1;
    }

    /// The value of the name at the date, now where no date is given.
    pub fn value(&self, name: &[u8], date: Option<i64>) -> Option<&Text>
        ensures { option_copied result ≡ get (meta_at date self.now.changes) name.now }
    {
        match self.index.find(name) {
            None => None,
            Some(places) => latest(
                &self.changes[..self.applied],
                places.as_slice(),
                name,
                &date,
            ),
        }
    }

    /// The date of the first applied change, and `None` exactly where there is none.
    pub fn first(&self) -> Option<i64>
        ensures { result ≡ first_date self.now.changes }
    {
        if self.applied == 0 {
            None
        } else {
            Some(self.changes[0].date)
        }
    }

    /// The metadata at the date, now where no date is given.
    pub fn copy_at(&self, date: Option<i64>) -> Result<Meta, NoMemory>
        ensures { IfOk result (λ meta. meta ≡ meta_at date self.now.changes) }
    {
        let index = &self.index;
        let mut meta = Meta::new(self.alloc);
        for place in 0..index.len() {
            match index.get(place) {
                Some((name, places)) => {
                    let applied = &self.changes[..self.applied];
                    let value = latest(applied, places.as_slice(), name.bytes(), &date);
                    put_copy(self.alloc, &mut meta, name, value)?;
                }
                None => unreachable!(),
            }
        }
        Ok(meta)
    }
}
