//! A line: entries in the order of insertion, with a mark at each 16th place that carries the sums so far.

ghost use Rattle.std.specs.Prelude.{◌≡◌, ◌==◌, ℕ, ◌+◌, ◌-◌, ◌*◌, ◌^◌, ◌<◌, ◌≤◌, max, true, false, [], ◌∷◌, ◌++◌, map, length, take, OnOk, slice_index_or};
ghost use Rattle.std.specs.List.{sum_by};
ghost use Rattle.lg_moves.specs.Bounds.{is_near, key_of};
ghost use Rattle.lg_types.specs.declared.moves.Move.{Move};
ghost use Rattle.lg_moves.specs.declared.marks.Mark.{Mark};
ghost use Rattle.lg_moves.specs.Sums.{AreSums, IsBounded};
ghost use Rattle.lg_types.specs.Tally.{amount_in, amount_out};
ghost use Rattle.lg_moves.specs.Moves.{ComesNext, IsLastInRank};
ghost use Rattle.lg_moves.specs.Entries.{move_of, entry_of, every_part, hit_part};
ghost use Rattle.lg_moves.specs.Transactions.{IsTransactionBefore};
ghost use Rattle.lg_moves.specs.Line.{IsMarked, Follows, sums_in, IsUpTo, IsSearched, IsCutAt};

use crate::bounds::{Bound, Key};
use crate::entries::Entry;
use crate::marks::Mark;
use crate::sums::Sums;
use crate::transactions::count_before;
use lg_base::NoMemory;
use lg_runs::{Runs, Steps};
use lg_types::Move;
use std::alloc::Global;
use std::marker::Model;
use std::sync::ledger::Ledger;

/// How many entries stand between two marks.
const STRIDE: usize = 16;

#[derive(Drop)]
pub(crate) struct Line {
    entries: Runs<Entry>,
    marks: Runs<Mark>,
    end: Mark,
}

impl Model for Line {
    ghost use Rattle.lg_runs.specs.Runs.{Kept};
    ghost use Rattle.lg_moves.specs.declared.entries.Entry.{Entry};
    ghost use Rattle.lg_moves.specs.Line.{IsLine};

    ghost Value = { Kept Entry };

    ghost view = { λ l. l.entries };

    ghost invariant = { λ l. IsLine l.entries l.marks l.end };
}

impl Line {
    pub(crate) fn new(alloc: Global) -> Line
        ensures { result ≡ record { items = []; spare = 0 } }
    {
        Line {
            entries: Runs::new(alloc),
            marks: Runs::new(alloc),
            end: Mark {
                all: Sums::zero(),
                timely: Sums::zero(),
                key: Key {
                    inserted: 0,
                    transaction: 0,
                    date: 0,
                    id: 0,
                },
            },
        }
    }

    /// The number of entries.
    pub(crate) fn len(&self) -> usize
        ensures { result ≡ length self.now.items }
    {
        self.entries.len()
    }

    pub(crate) fn spare(&self) -> usize
        ensures { result ≡ self.now.spare }
    {
        self.entries.spare()
    }

    /// Takes memory so that at least `more` entries can be pushed.
    pub(crate) fn reserve(&mut self, more: usize) -> Result<(), NoMemory>
        ensures items { self.new.items ≡ self.old.items }
        ensures grows { self.old.spare ≤ self.new.spare }
        ensures most { self.new.spare ≤ max self.old.spare more }
        ensures ok { OnOk result (more ≤ self.new.spare) }
    {
        let open = (self.entries.len() % STRIDE + more % STRIDE) / STRIDE;
        self.marks.reserve(more / STRIDE + open)?;
        self.entries.reserve(more)
    }

    /// Puts a move after all others, and says whether it is timely.
    pub(crate) fn push<L: Ledger>(&mut self, item: &Move, steps: &mut Steps<L>) -> bool
        requires spare { 0 < self.old.spare }
        requires next { ComesNext (map move_of self.old.items) item.now }
        requires input { sum_by (every_part amount_in) self.old.items + amount_in item.now < 2 ^ 127 }
        requires output { sum_by (every_part amount_out) self.old.items + amount_out item.now < 2 ^ 127 }
        ensures bounded { IsBounded (λ part. sum_by (every_part part) self.new.items) }
        ensures items { self.new.items ≡ self.old.items ++ entry_of item.now result ∷ [] }
        ensures spare { self.new.spare + 1 ≡ self.old.spare }
        ensures timely { IsLastInRank (map move_of self.old.items) item.now → result ≡ true }
        ensures cost { steps.new ≤ steps.old + 2 }
    {
        let timely = is_timely(self.entries.len(), &self.end, item);
        self.end = self.end.after(item, timely);
        self.entries.push(Entry::new(item, timely), steps);
        if self.entries.len() % STRIDE == 0 {
            self.marks.push(self.end, steps);
        }
        timely
    }

    /// The sums of all entries: no step.
    pub(crate) fn total(&self) -> Sums
        ensures { AreSums result (λ part. sum_by (every_part part) self.now.items) }
    {
        self.end.all
    }

    /// The greatest transaction id below the given one among those of the entries.
    pub(crate) fn transaction_before<L: Ledger>(&self, id: u64, steps: &mut Steps<L>) -> Option<u64>
        ensures value { IsTransactionBefore id (map move_of self.now.items) result }
        ensures cost { (b : ℕ) → length self.now.items + 1 ≤ 2 ^ b → steps.new ≤ steps.old + (b + 2) }
    {
        let count = count_before(&self.entries, id, steps);
        if count == 0 {
            None
        } else {
            Some(self.entries.read_at(count - 1, steps).transaction)
        }
    }

    /// The sums of the entries that stand in the order of the bound and pass.
    pub(crate) fn sum<L: Ledger>(&self, bound: &Bound, steps: &mut Steps<L>) -> Sums
        ensures value { AreSums result (λ part. sum_by (hit_part bound.now part) self.now.items) }
        ensures bounded { IsBounded (λ part. sum_by (every_part part) self.now.items) }
        ensures cost { (b : ℕ) → length self.now.items + 1 ≤ 2 ^ b → steps.new ≤ steps.old + (b + 17) }
    {
        if bound.is_near(&self.end.key) {
            self.end.sums_in(bound)
        } else {
            sum_before(&self.entries, &self.marks, &self.end, bound, steps)
        }
    }
}

/// Whether a move comes in the order of ranks after so many entries that end with this mark.
fn is_timely(len: usize, end: &Mark, item: &Move) -> bool
    ensures first { len ≡ 0 → result ≡ true }
    ensures late { result ≡ false → (0 < len) × (is_near (Bound.RankBefore end.now.key.date end.now.key.id) (key_of item.now) ≡ true) }
    ensures ranked { 0 < len → result ≡ true → is_near (Bound.RankBefore end.now.key.date end.now.key.id) (key_of item.now) ≡ false }
{
    len == 0 || !Bound::RankBefore(end.key.date, end.key.id).is_near(&Key::of(item))
}

/// The place of the first mark beyond the bound: a binary search.
fn place_of<L: Ledger>(marks: &Runs<Mark>, bound: &Bound, steps: &mut Steps<L>) -> usize
    requires { (i j : ℕ) (d : Mark) → i ≤ j → j < length marks.now.items → IsUpTo (slice_index_or marks.now.items i d).key (slice_index_or marks.now.items j d).key }
    ensures place { IsCutAt bound.now marks.now.items result }
    ensures cost { (b : ℕ) → length marks.now.items * 2 + 1 ≤ 2 ^ b → steps.new ≤ steps.old + b }
{
    let mut low = 0;
    let mut size = marks.len();
    while size > 0 {
        let half = size / 2;
        let mark = marks.read_at(low + half, steps);
        if bound.is_near(&mark.key) {
            low += half + 1;
            size -= half + 1;
        } else {
            size = half;
        }
    }
    low
}

/// The sums of the entries before the mark at this place, of those that stand in the order of the bound.
fn sums_at<L: Ledger>(marks: &Runs<Mark>, place: usize, bound: &Bound, steps: &mut Steps<L>) -> Sums
    requires { place ≤ length marks.now.items }
    ensures none { place ≡ 0 → result ≡ record { input = 0; output = 0; count = 0 } }
    ensures value { (d : Mark) → 0 < place → result ≡ sums_in bound.now (slice_index_or marks.now.items (place - 1) d) }
    ensures cost { steps.new ≤ steps.old + 1 }
{
    if place == 0 {
        Sums::zero()
    } else {
        marks.read_at(place - 1, steps).sums_in(bound)
    }
}

/// The sums with an entry, if it passes.
fn with_hit(sums: Sums, entry: &Entry, bound: &Bound) -> Sums
    requires input { sums.input < 2 ^ 127 }
    requires output { sums.output < 2 ^ 127 }
    requires count { sums.count + 1 < 2 ^ 64 }
    ensures { (total : (Move → ℕ) → ℕ) → AreSums sums total → AreSums result (λ part. total part + hit_part bound.now part entry.now) }
{
    if entry.is_hit_of(bound) {
        sums.with(&entry.moved())
    } else {
        sums
    }
}

/// The sums of the entries before the place `to` that pass, from those of the entries before the place `from`.
fn sums_from<L: Ledger>(
    entries: &Runs<Entry>,
    from: usize,
    to: usize,
    bound: &Bound,
    start: Sums,
    steps: &mut Steps<L>,
) -> Sums
    requires order { from ≤ to }
    requires within { to ≤ length entries.now.items }
    requires bounded { IsBounded (λ part. sum_by (every_part part) entries.now.items) }
    requires start { AreSums start (λ part. sum_by (hit_part bound.now part) (take from entries.now.items)) }
    ensures value { AreSums result (λ part. sum_by (hit_part bound.now part) (take to entries.now.items)) }
    ensures cost { steps.new ≡ steps.old + (to - from) }
{
    let mut sums = start;
    for i in from..to {
        let entry = entries.read_at(i, steps);
        sums = with_hit(sums, &entry, bound);
    }
    sums
}

/// The sums of the entries that stand in the order of the bound and pass, by the marks.
fn sum_before<L: Ledger>(
    entries: &Runs<Entry>,
    marks: &Runs<Mark>,
    end: &Mark,
    bound: &Bound,
    steps: &mut Steps<L>,
) -> Sums
    requires { IsMarked entries.now.items marks.now.items end.now }
    ensures value { AreSums result (λ part. sum_by (hit_part bound.now part) entries.now.items) }
    ensures cost { (b : ℕ) → length entries.now.items + 1 ≤ 2 ^ b → steps.new ≤ steps.old + (b + 17) }
{
    let len = entries.len();
    let place = place_of(marks, bound, steps);
    let start = sums_at(marks, place, bound, steps);
    let from = place * STRIDE;
    let to = from + (len - from).min(STRIDE);
    sums_from(entries, from, to, bound, start, steps)
}
