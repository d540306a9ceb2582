//! Runs of records with counted accesses and a number of spare places.

ghost use Rattle.std.specs.Prelude.{◌≡◌, ◌==◌, ℕ, ◌+◌, ◌-◌, ◌^◌, ◌<◌, ◌≤◌, max, [], ◌∷◌, ◌++◌, length, take, OnOk, slice_index_or, slice_set, insert};

use crate::steps::Steps;
use std::alloc::{AllocError, Global};
use std::marker::Model;
use std::sync::ledger::Ledger;

/// Records in order, seen as their list and as `spare`, the number of records that can still be inserted without
/// memory.
#[derive(Drop)]
pub struct Runs<T: Copy> {
    records: Vec<T>,
    room: usize,
}

impl<T: Copy> Model for Runs<T> {
    ghost use Rattle.std.specs.Prelude.{◌+◌, ◌≤◌, vec_len};
    ghost use Rattle.std.specs.Vec.{vec_capacity};
    ghost use Rattle.lg_runs.specs.Runs.{Kept};

    ghost Value = { Kept T };

    ghost view = { λ r. record { items = r.records.items; spare = r.room } };

    ghost invariant = { λ r. vec_len r.records + r.room ≤ vec_capacity r.records };
}

impl<T: Copy> Runs<T> {
    /// No records, and no spare place.
    pub fn new(alloc: Global) -> Runs<T>
        ensures { result ≡ record { items = []; spare = 0 } }
    {
        Runs {
            records: Vec::new(alloc),
            room: 0,
        }
    }

    /// The number of records. It is no step.
    pub fn len(&self) -> usize
        ensures value { result ≡ length self.now.items }
        // A run never holds more records than a `usize` counts.
        ensures bound { length self.now.items + self.now.spare < 2 ^ 64 }
    {
        self.records.len()
    }

    /// Whether there is no record. It is no step.
    pub fn is_empty(&self) -> bool
        ensures { result ≡ (length self.now.items == 0) }
    {
        self.records.is_empty()
    }

    /// The number of records that can still be inserted without memory.
    pub fn spare(&self) -> usize
        ensures { result ≡ self.now.spare }
    {
        self.room
    }

    /// Takes memory so that at least `more` records can be inserted. A run that grows takes room for a quarter of its
    /// length at least, so that few records are moved.
    pub fn reserve(&mut self, more: usize) -> Result<(), AllocError>
        ensures items { self.new.items ≡ self.old.items }
        ensures grows { self.old.spare ≤ self.new.spare }
        ensures most { self.new.spare ≤ max self.old.spare more }
        ensures ok { OnOk result (more ≤ self.new.spare) }
    {
        if self.room < more {
            let len = self.records.len();
            if self.records.capacity() - len < more {
                self.records.reserve_exact(more.max(len / 4))?;
            }
            self.room = more;
        }
        Ok(())
    }

    /// The record at a place: one step.
    pub fn read_at<L: Ledger>(&self, place: usize, steps: &mut Steps<L>) -> T
        requires { place < length self.now.items }
        ensures value { (d : T) → result ≡ slice_index_or self.now.items place d }
        ensures cost { steps.new ≡ steps.old + 1 }
    {
        steps.tick();
        self.records[place]
    }

    /// Writes the record at a place: one step.
    pub fn write_at<L: Ledger>(&mut self, place: usize, item: T, steps: &mut Steps<L>)
        requires { place < length self.old.items }
        ensures items { self.new.items ≡ slice_set self.old.items place item }
        ensures spare { self.new.spare ≡ self.old.spare }
        ensures cost { steps.new ≡ steps.old + 1 }
    {
        steps.tick();
        self.records[place] = item;
    }

    /// Inserts a record at a place; those from there on move up by one. It takes one step, and one more for each
    /// record that moves. It takes no memory.
    pub fn insert_at<L: Ledger>(&mut self, place: usize, item: T, steps: &mut Steps<L>)
        requires within { place ≤ length self.old.items }
        requires spare { 0 < self.old.spare }
        ensures items { self.new.items ≡ insert self.old.items place item }
        ensures spare { self.new.spare + 1 ≡ self.old.spare }
        ensures cost { steps.new ≡ steps.old + (length self.old.items - place + 1) }
    {
        steps.add((self.records.len() - place) as u64);
        steps.tick();
        match self.records.insert(place, item) {
            Ok(()) => {}
            Err(_) => unreachable!(),
        }
        self.room -= 1;
    }

    /// Puts a record after all others: one step. It takes no memory.
    pub fn push<L: Ledger>(&mut self, item: T, steps: &mut Steps<L>)
        requires { 0 < self.old.spare }
        ensures items { self.new.items ≡ self.old.items ++ item ∷ [] }
        ensures spare { self.new.spare + 1 ≡ self.old.spare }
        ensures cost { steps.new ≡ steps.old + 1 }
    {
        steps.tick();
        match self.records.push(item) {
            Ok(()) => {}
            Err(_) => unreachable!(),
        }
        self.room -= 1;
    }

    /// Drops the records from the place `len` on, and keeps their places as spare ones. It reads and writes no record.
    pub fn cut(&mut self, len: usize)
        ensures items { self.new.items ≡ take len self.old.items }
        ensures spare { self.new.spare ≡ self.old.spare + (length self.old.items - len) }
    {
        let before = self.records.len();
        self.records.truncate(len);
        self.room += before - self.records.len();
    }
}
