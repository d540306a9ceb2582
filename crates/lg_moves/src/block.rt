//! Blocks of moves in the order of ranks.

ghost use Rattle.std.specs.Prelude.{◌≡◌, ◌==◌, ℕ, ◌+◌, ◌-◌, ◌^◌, ◌<◌, ◌≤◌, [], ◌∷◌, ◌++◌, length, take, drop, IfOk, slice_index_or, if◌then◌else◌};
ghost use Rattle.std.specs.List.{sum_by};
ghost use Rattle.lg_types.specs.declared.moves.Move.{Move};
ghost use Rattle.lg_types.specs.Tally.{if_passing};
ghost use Rattle.lg_moves.specs.Bounds.{key_of, passes};
ghost use Rattle.lg_moves.specs.Sums.{AreSums, IsBounded};
ghost use Rattle.lg_moves.specs.Ranks.{IsUpToMove, Each, IsRising, Inserts};

use crate::bounds::{Bound, Key, is_before, is_up_to};
use crate::scan::sum_all;
use crate::sums::Sums;
use lg_base::NoMemory;
use lg_runs::{Runs, Steps};
use lg_types::Move;
use std::alloc::Global;
use std::marker::Model;
use std::sync::ledger::Ledger;

/// How many moves a block has room for.
pub(crate) const CAPACITY: usize = 32;

/// How many moves stay where a full block is cut.
const HALF: usize = 16;

/// Moves in the order of ranks, with the keys of the first and the last, and their sums.
#[derive(Drop)]
pub(crate) struct Block {
    moves: Runs<Move>,
    first: Key,
    last: Key,
    sums: Sums,
}

impl Model for Block {
    ghost use Rattle.lg_runs.specs.Runs.{Kept};
    ghost use Rattle.lg_types.specs.declared.moves.Move.{Move};
    ghost use Rattle.lg_moves.specs.Ranks.{IsBlock};

    ghost Value = { Kept Move };

    ghost view = { λ b. b.moves };

    ghost invariant = { λ b. IsBlock b.moves.items b.first b.last b.sums };
}

impl Block {
    /// An empty block with room for all its moves.
    pub(crate) fn with_room(alloc: Global) -> Result<Block, NoMemory>
        ensures { IfOk result (λ b. b ≡ record { items = []; spare = 32 }) }
    {
        let mut moves = Runs::new(alloc);
        moves.reserve(CAPACITY)?;
        let key = Key {
            inserted: 0,
            transaction: 0,
            date: 0,
            id: 0,
        };
        Ok(Block {
            moves,
            first: key,
            last: key,
            sums: Sums::zero(),
        })
    }

    pub(crate) fn len(&self) -> usize
        ensures { result ≡ length self.now.items }
    {
        self.moves.len()
    }

    /// The sums of its moves.
    pub(crate) fn sums(&self) -> Sums
        ensures { AreSums result (λ part. sum_by part self.now.items) }
    {
        self.sums
    }

    /// The key of its first move.
    pub(crate) fn first(&self) -> Key
        ensures { (d : Move) → 0 < length self.now.items → result ≡ key_of (slice_index_or self.now.items 0 d) }
    {
        self.first
    }

    /// The key of its last move.
    pub(crate) fn last(&self) -> Key
        ensures { (d : Move) → 0 < length self.now.items → result ≡ key_of (slice_index_or self.now.items (length self.now.items - 1) d) }
    {
        self.last
    }

    /// Puts a move at a place of its rank.
    pub(crate) fn insert<L: Ledger>(&mut self, item: &Move, steps: &mut Steps<L>)
        requires spare { 0 < self.old.spare }
        requires rising { IsRising self.old.items }
        requires bounded { IsBounded (λ part. sum_by part self.old.items + part item.now) }
        ensures inserted { Inserts item.now self.old.items self.new.items }
        ensures spare { self.new.spare + 1 ≡ self.old.spare }
        ensures cost { steps.new ≤ steps.old + (length self.old.items + 2) }
    {
        let place = place_in(&self.moves, item, steps);
        self.first = key_if(place == 0, item, self.first);
        self.last = key_if(place == self.moves.len(), item, self.last);
        self.sums = self.sums.with(item);
        self.moves.insert_at(place, *item, steps);
    }

    /// Moves the upper half of a full block to a fresh one.
    pub(crate) fn halve<L: Ledger>(&mut self, fresh: &mut Block, steps: &mut Steps<L>)
        requires full { length self.old.items ≡ 32 }
        requires fresh { fresh.old ≡ record { items = []; spare = 32 } }
        requires bounded { IsBounded (λ part. sum_by part self.old.items) }
        ensures low { self.new.items ≡ take 16 self.old.items }
        ensures high { fresh.new.items ≡ drop 16 self.old.items }
        ensures spare { self.new.spare ≡ self.old.spare + 16 }
        ensures fresh_spare { fresh.new.spare ≡ 16 }
        ensures cost { steps.new ≤ steps.old + 34 }
    {
        fresh.first = Key::of(&self.moves.read_at(HALF, steps));
        fresh.last = self.last;
        fresh.sums = move_upper(&self.moves, &mut fresh.moves, steps);
        self.last = Key::of(&self.moves.read_at(HALF - 1, steps));
        self.sums = self.sums.minus(fresh.sums);
        self.moves.cut(HALF);
    }

    /// The sums of its moves that pass.
    pub(crate) fn sum<L: Ledger>(&self, bound: &Bound, steps: &mut Steps<L>) -> Sums
        requires { IsBounded (λ part. sum_by part self.now.items) }
        ensures value { AreSums result (λ part. sum_by (if_passing (passes bound.now) part) self.now.items) }
        ensures cost { steps.new ≡ steps.old + length self.now.items }
    {
        sum_all(&self.moves, bound, steps)
    }
}

/// Cuts a full block in two, and puts a move into the half of its rank.
pub(crate) fn halve_and_insert<L: Ledger>(
    block: &mut Block,
    upper: &mut Block,
    item: &Move,
    steps: &mut Steps<L>,
)
    requires full { length block.old.items ≡ 32 }
    requires rising { IsRising block.old.items }
    requires fresh { upper.old ≡ record { items = []; spare = 32 } }
    requires room { block.old.spare ≡ 0 }
    requires bounded { IsBounded (λ part. sum_by part block.old.items + part item.now) }
    ensures inserted { Inserts item.now block.old.items (block.new.items ++ upper.new.items) }
    ensures lower { 16 ≤ length block.new.items }
    ensures upper { 16 ≤ length upper.new.items }
    ensures lower_room { length block.new.items + block.new.spare ≡ 32 }
    ensures upper_room { length upper.new.items + upper.new.spare ≡ 32 }
    ensures cost { steps.new ≤ steps.old + 52 }
{
    block.halve(upper, steps);
    if is_before(&Key::of(item), &upper.first()) {
        block.insert(item, steps);
    } else {
        upper.insert(item, steps);
    }
}

/// The key of the move, where the test holds, or else the other key.
fn key_if(test: bool, item: &Move, other: Key) -> Key
    ensures { result ≡ (if test then key_of item.now else other) }
{
    if test { Key::of(item) } else { other }
}

/// The place of the first move after the item's rank.
fn place_in<L: Ledger>(moves: &Runs<Move>, item: &Move, steps: &mut Steps<L>) -> usize
    requires { IsRising moves.now.items }
    ensures within { result ≤ length moves.now.items }
    ensures before { Each (λ x. IsUpToMove x item.now) (take result moves.now.items) }
    ensures after { Each (IsUpToMove item.now) (drop result moves.now.items) }
    ensures cost { steps.new ≤ steps.old + (result + 1) }
{
    let key = Key::of(item);
    let mut place = 0;
    while place < moves.len() {
        let other = moves.read_at(place, steps);
        if !is_up_to(&Key::of(&other), &key) {
            return place;
        }
        place += 1;
    }
    place
}

/// Copies the upper half of a full block's moves, and gives their sums.
fn move_upper<L: Ledger>(from: &Runs<Move>, into: &mut Runs<Move>, steps: &mut Steps<L>) -> Sums
    requires full { length from.now.items ≡ 32 }
    requires fresh { into.old ≡ record { items = []; spare = 32 } }
    requires bounded { IsBounded (λ part. sum_by part from.now.items) }
    ensures items { into.new.items ≡ drop 16 from.now.items }
    ensures spare { into.new.spare ≡ 16 }
    ensures sums { AreSums result (λ part. sum_by part (drop 16 from.now.items)) }
    ensures cost { steps.new ≡ steps.old + 32 }
{
    let mut sums = Sums::zero();
    for i in HALF..CAPACITY {
        let item = from.read_at(i, steps);
        into.push(item, steps);
        sums = sums.with(&item);
    }
    sums
}
