//! The index of the moves of one account and one asset.

ghost use Rattle.std.specs.Prelude.{◌≡◌, ℕ, ◌+◌, ◌*◌, ◌/◌, ◌^◌, ◌<◌, ◌≤◌, [], ◌∷◌, ◌++◌, length, true, false, ◌&&◌, ℤ, OnOk, if◌then◌else◌};
ghost use Rattle.std.specs.List.{sum_by, list_any};
ghost use Rattle.lg_base.specs.Volumes.{IsWithinLimit};
ghost use Rattle.lg_types.specs.Tally.{tally, total_of, if_passing, is_inserted_to, is_effective_to, is_of_transaction_to, is_ranked_to, is_ranked_before, is_from, is_to, date_of, is_between};
ghost use Rattle.lg_moves.specs.Moves.{ComesNext, IsLastInRank};
ghost use Rattle.lg_moves.specs.Bounds.{is_by_rank, passes};
ghost use Rattle.lg_moves.specs.Sums.{AreSums, IsBounded};
ghost use Rattle.lg_moves.specs.Index.{is_before};
ghost use Rattle.lg_moves.specs.Transactions.{IsTransactionBefore};
ghost use Rattle.lg_types.specs.declared.moves.Move.{Move};

use crate::bounds::Bound;
use crate::late::Late;
use crate::line::Line;
use crate::sums::Sums;
use lg_base::{NoMemory, Volumes};
use lg_runs::Steps;
use lg_types::Move;
use std::alloc::Global;
use std::marker::Model;
use std::sync::ledger::Ledger;

/// The moves of one account and one asset, seen as the list of applied moves and as `spare`, the number of moves that
/// can still be applied without memory.
///
/// A step is one record read or written. The readers take no memory.
#[derive(Drop)]
pub struct MoveIndex {
    line: Line,
    late: Late,
}

impl Model for MoveIndex {
    ghost use Rattle.std.specs.Prelude.{map};
    ghost use Rattle.lg_runs.specs.Runs.{Kept};
    ghost use Rattle.lg_types.specs.declared.moves.Move.{Move};
    ghost use Rattle.lg_moves.specs.Entries.{move_of};
    ghost use Rattle.lg_moves.specs.Index.{IsDivided};

    ghost Value = { Kept Move };

    ghost view = { λ x. record { items = map move_of x.line.items; spare = x.line.spare } };

    ghost invariant = { λ x. IsDivided x.line x.late };
}

impl MoveIndex {
    /// An index of no moves, with no spare place.
    pub fn new(alloc: Global) -> MoveIndex
        ensures { result ≡ record { items = []; spare = 0 } }
    {
        MoveIndex {
            line: Line::new(alloc),
            late: Late::new(alloc),
        }
    }

    /// The number of applied moves.
    pub fn len(&self) -> usize
        ensures { result ≡ length self.now.items }
    {
        self.line.len()
    }

    /// The number of moves that can still be applied without memory.
    pub fn spare(&self) -> usize
        ensures { result ≡ self.now.spare }
    {
        self.line.spare()
    }

    /// Takes memory so that at least `more` moves can be applied.
    pub fn prepare(&mut self, more: usize) -> Result<(), NoMemory>
        ensures items { self.new.items ≡ self.old.items }
        ensures grows { self.old.spare ≤ self.new.spare }
        ensures ok { OnOk result (more ≤ self.new.spare) }
    {
        let more = more.max(self.line.spare());
        self.late.reserve(more)?;
        self.line.reserve(more)
    }

    /// Applies a move after all others. It takes no memory and can't fail.
    pub fn apply<L: Ledger>(&mut self, item: Move, steps: &mut Steps<L>)
        requires spare { 0 < self.old.spare }
        requires next { ComesNext self.old.items item }
        requires limit { IsWithinLimit (total_of (self.old.items ++ item ∷ [])) }
        ensures items { self.new.items ≡ self.old.items ++ item ∷ [] }
        ensures spare { self.new.spare + 1 ≡ self.old.spare }
        // By the binary digits of the number of moves, and by their number, for every effective date.
        ensures cost { (b : ℕ) → length self.old.items + 1 ≤ 2 ^ b → steps.new ≤ steps.old + (12 * b + 16) }
        ensures bound { steps.new ≤ steps.old + (length self.old.items / 32 + 1024) }
        ensures in_order { IsLastInRank self.old.items item → steps.new ≤ steps.old + 2 }
    {
        let timely = self.line.push(&item, steps);
        put_late(&mut self.late, timely, &item, steps);
    }

    /// The volumes of all moves.
    pub fn total(&self) -> Volumes
        ensures value { result ≡ total_of self.now.items }
        ensures limit { IsWithinLimit result }
    {
        let _ = &self.late;
        self.line.total().volumes()
    }

    /// The sums of the moves that pass.
    fn sum<L: Ledger>(&self, bound: &Bound, steps: &mut Steps<L>) -> Sums
        ensures value { AreSums result (λ part. sum_by (if_passing (passes bound.now) part) self.now.items) }
        ensures bounded { IsBounded (λ part. sum_by part self.now.items) }
        ensures cost { (b : ℕ) → length self.now.items + 1 ≤ 2 ^ b → steps.new ≤ steps.old + (3 * b + 58) }
    {
        let sums = self.line.sum(bound, steps);
        with_late(sums, &self.late, bound, steps)
    }

    /// The volumes of the moves inserted at most at the date.
    pub fn at_insertion<L: Ledger>(&self, date: i64, steps: &mut Steps<L>) -> Volumes
        ensures value { result ≡ tally (is_inserted_to date) self.now.items }
        ensures limit { IsWithinLimit result }
        ensures cost { (b : ℕ) → length self.now.items + 1 ≤ 2 ^ b → steps.new ≤ steps.old + (3 * b + 64) }
    {
        self.sum(&Bound::InsertedTo(date), steps).volumes()
    }

    /// The volumes of the moves effective at most at the date.
    pub fn at_effective<L: Ledger>(&self, date: i64, steps: &mut Steps<L>) -> Volumes
        ensures value { result ≡ tally (is_effective_to date) self.now.items }
        ensures limit { IsWithinLimit result }
        ensures cost { (b : ℕ) → length self.now.items + 1 ≤ 2 ^ b → steps.new ≤ steps.old + (3 * b + 64) }
    {
        self.sum(&Bound::EffectiveTo(date), steps).volumes()
    }

    /// The volumes of the moves of transactions up to the id.
    pub fn at_transaction<L: Ledger>(&self, id: u64, steps: &mut Steps<L>) -> Volumes
        ensures value { result ≡ tally (is_of_transaction_to id) self.now.items }
        ensures limit { IsWithinLimit result }
        ensures cost { (b : ℕ) → length self.now.items + 1 ≤ 2 ^ b → steps.new ≤ steps.old + (3 * b + 64) }
    {
        self.sum(&Bound::TransactionTo(id), steps).volumes()
    }

    /// The volumes of the moves whose pair of effective date and transaction isn't after the given pair.
    pub fn at_rank<L: Ledger>(&self, date: i64, id: u64, steps: &mut Steps<L>) -> Volumes
        ensures value { result ≡ tally (is_ranked_to date id) self.now.items }
        ensures limit { IsWithinLimit result }
        ensures cost { (b : ℕ) → length self.now.items + 1 ≤ 2 ^ b → steps.new ≤ steps.old + (3 * b + 64) }
    {
        self.sum(&Bound::RankTo(date, id), steps).volumes()
    }

    /// The volumes of the moves whose pair of effective date and transaction is before the given pair.
    pub fn before_rank<L: Ledger>(&self, date: i64, id: u64, steps: &mut Steps<L>) -> Volumes
        ensures value { result ≡ tally (is_ranked_before date id) self.now.items }
        ensures limit { IsWithinLimit result }
        ensures cost { (b : ℕ) → length self.now.items + 1 ≤ 2 ^ b → steps.new ≤ steps.old + (3 * b + 64) }
    {
        self.sum(&Bound::RankBefore(date, id), steps).volumes()
    }

    /// The volumes of the moves from one date to another, of insertion or of effect. Both ends count; a missing end is
    /// no test.
    pub fn between<L: Ledger>(
        &self,
        from: Option<i64>,
        to: Option<i64>,
        by_insertion: bool,
        steps: &mut Steps<L>,
    ) -> Volumes
        ensures value { result ≡ tally (is_between from to by_insertion) self.now.items }
        ensures limit { IsWithinLimit result }
        ensures cost { (b : ℕ) → length self.now.items + 1 ≤ 2 ^ b → steps.new ≤ steps.old + (6 * b + 128) }
    {
        self.sum_between(from, to, by_insertion, steps).volumes()
    }

    /// Whether the date of some move, of insertion or of effect, is between two dates, whatever its amount. Both ends
    /// count; a missing end is no test.
    pub fn any<L: Ledger>(
        &self,
        from: Option<i64>,
        to: Option<i64>,
        by_insertion: bool,
        steps: &mut Steps<L>,
    ) -> bool
        ensures value { result ≡ list_any (is_between from to by_insertion) self.now.items }
        ensures cost { (b : ℕ) → length self.now.items + 1 ≤ 2 ^ b → steps.new ≤ steps.old + (6 * b + 128) }
    {
        self.sum_between(from, to, by_insertion, steps).count > 0
    }

    /// The greatest transaction id below the given one among those of the moves, and `None` exactly where there is none.
    pub fn transaction_before<L: Ledger>(&self, id: u64, steps: &mut Steps<L>) -> Option<u64>
        ensures value { IsTransactionBefore id self.now.items result }
        ensures cost { (b : ℕ) → length self.now.items + 1 ≤ 2 ^ b → steps.new ≤ steps.old + (b + 2) }
    {
        let _ = &self.late;
        self.line.transaction_before(id, steps)
    }

    /// The sums of the moves between two dates: those up to the second less those before the first.
    fn sum_between<L: Ledger>(
        &self,
        from: Option<i64>,
        to: Option<i64>,
        by_insertion: bool,
        steps: &mut Steps<L>,
    ) -> Sums
        ensures value { AreSums result (λ part. sum_by (if_passing (is_between from to by_insertion) part) self.now.items) }
        ensures bounded { IsBounded (λ part. sum_by part self.now.items) }
        ensures cost { (b : ℕ) → length self.now.items + 1 ≤ 2 ^ b → steps.new ≤ steps.old + (6 * b + 116) }
    {
        let _ = &self.late;
        if is_crossed(from, to) {
            return Sums::zero();
        }
        let upper = self.sum_to(to, by_insertion, steps);
        let lower = self.sum_before(from, by_insertion, steps);
        upper.minus(lower)
    }

    /// The sums of the moves that aren't after a date.
    fn sum_to<L: Ledger>(&self, to: Option<i64>, by_insertion: bool, steps: &mut Steps<L>) -> Sums
        ensures value { AreSums result (λ part. sum_by (if_passing (λ m. is_to to (date_of by_insertion m)) part) self.now.items) }
        ensures cost { (b : ℕ) → length self.now.items + 1 ≤ 2 ^ b → steps.new ≤ steps.old + (3 * b + 58) }
    {
        match &to {
            Some(date) => self.sum(&Bound::up_to(date, by_insertion), steps),
            None => self.line.total(),
        }
    }

    /// The sums of the moves that are before a date.
    fn sum_before<L: Ledger>(
        &self,
        from: Option<i64>,
        by_insertion: bool,
        steps: &mut Steps<L>,
    ) -> Sums
        ensures value { AreSums result (λ part. sum_by (if_passing (λ m. is_before from (date_of by_insertion m)) part) self.now.items) }
        ensures cost { (b : ℕ) → length self.now.items + 1 ≤ 2 ^ b → steps.new ≤ steps.old + (3 * b + 58) }
    {
        match &from {
            Some(date) => self.sum(&Bound::below(date, by_insertion), steps),
            None => Sums::zero(),
        }
    }
}

/// Whether the first end is after the second.
fn is_crossed(from: Option<i64>, to: Option<i64>) -> bool
    ensures crossed { result ≡ true → (date : ℤ) → (is_to to date && is_from from date) ≡ false }
    ensures apart { result ≡ false → (date : ℤ) → is_before from date ≡ true → is_to to date ≡ true }
{
    match (from, to) {
        (Some(first), Some(last)) => last < first,
        _ => false,
    }
}

/// Keeps a move that isn't timely among the late ones.
fn put_late<L: Ledger>(late: &mut Late, timely: bool, item: &Move, steps: &mut Steps<L>)
    requires spare { 0 < late.old.spare }
    requires bounded { IsBounded (λ part. sum_by part late.old.items + part item.now) }
    ensures sums { (part : Move → ℕ) → sum_by part late.new.items ≡ sum_by part late.old.items + (if timely then 0 else part item.now) }
    ensures spare { late.old.spare ≤ late.new.spare + 1 }
    ensures none { timely ≡ true → steps.new ≡ steps.old }
    ensures cost { (b : ℕ) → length late.old.items + 1 ≤ 2 ^ b → steps.new ≤ steps.old + (12 * b + 14) }
{
    if !timely {
        late.insert(item, steps);
    }
}

/// The sums with those of the late moves that pass, where the bound is one of the order of ranks.
fn with_late<L: Ledger>(sums: Sums, late: &Late, bound: &Bound, steps: &mut Steps<L>) -> Sums
    requires input { sums.input < 2 ^ 127 }
    requires output { sums.output < 2 ^ 127 }
    requires count { is_by_rank bound.now ≡ true → sums.count + length late.now.items < 2 ^ 64 }
    ensures ranked { is_by_rank bound.now ≡ true → (total : (Move → ℕ) → ℕ) → AreSums sums total → AreSums result (λ part. total part + sum_by (if_passing (passes bound.now) part) late.now.items) }
    ensures other { is_by_rank bound.now ≡ false → result ≡ sums }
    ensures cost { (b : ℕ) → length late.now.items + 1 ≤ 2 ^ b → steps.new ≤ steps.old + (2 * b + 41) }
{
    if bound.is_by_rank() {
        sums.plus(late.sum(bound, steps))
    } else {
        sums
    }
}
