//! Moves that came late in the order of ranks.

ghost use Rattle.std.specs.Prelude.{◌≡◌, ℕ, ◌+◌, ◌-◌, ◌*◌, ◌^◌, ◌<◌, ◌≤◌, max, true, [], ◌∷◌, ◌++◌, length, OnOk, OnErr};
ghost use Rattle.std.specs.List.{sum_by};
ghost use Rattle.lg_moves.specs.Bounds.{is_by_rank, passes};
ghost use Rattle.lg_types.specs.Tally.{if_passing};
ghost use Rattle.lg_types.specs.declared.moves.Move.{Move};
ghost use Rattle.lg_moves.specs.Sums.{AreSums, IsBounded};

use crate::bounds::Bound;
use crate::scan::sum_all;
use crate::sums::Sums;
use crate::tree::{Pool, Tree};
use lg_base::NoMemory;
use lg_runs::{Runs, Steps};
use lg_types::Move;
use std::alloc::Global;
use std::marker::Model;
use std::sync::ledger::Ledger;

/// How many late moves stand in a run, before there is a tree.
const FIRST: usize = 16;

/// Late moves: the first ones in a run that is read whole, the others in a tree of blocks. Most accounts have few late
/// moves, and no tree.
#[derive(Drop)]
pub(crate) struct Late {
    first: Runs<Move>,
    tree: Tree,
    pool: Pool,
    blocks: usize,
    alloc: Global,
}

impl Model for Late {
    ghost use Rattle.std.specs.Prelude.{◌++◌};
    ghost use Rattle.lg_runs.specs.Runs.{Kept};
    ghost use Rattle.lg_types.specs.declared.moves.Move.{Move};
    ghost use Rattle.lg_moves.specs.Late.{late_room, IsLate};

    ghost Value = { Kept Move };

    ghost view = { λ l. record { items = l.first.items ++ l.tree.items; spare = late_room l.first l.tree l.pool } };

    ghost invariant = { λ l. IsLate l.first l.tree l.pool l.blocks };
}

impl Late {
    pub(crate) fn new(alloc: Global) -> Late
        ensures { result ≡ record { items = []; spare = 0 } }
    {
        Late {
            first: Runs::new(alloc),
            tree: Tree::new(),
            pool: Pool::new(alloc),
            blocks: 0,
            alloc,
        }
    }

    /// Takes memory so that at least `more` moves can be inserted, and gives back what is far more than that needs.
    pub(crate) fn reserve(&mut self, more: usize) -> Result<(), NoMemory>
        ensures items { self.new.items ≡ self.old.items }
        ensures ok { OnOk result (more ≤ self.new.spare) }
        ensures err { OnErr result (self.old.spare ≤ self.new.spare) }
    {
        let free = FIRST - self.first.len();
        let near = more.min(free);
        self.first.reserve(near)?;
        let nodes = nodes_for(self.tree.total().count, self.blocks, more - near);
        fill(&mut self.pool, self.alloc, nodes)
    }

    /// Puts a move beside the others.
    pub(crate) fn insert<L: Ledger>(&mut self, item: &Move, steps: &mut Steps<L>)
        requires spare { 0 < self.old.spare }
        requires bounded { IsBounded (λ part. sum_by part self.old.items + part item.now) }
        ensures sums { (part : Move → ℕ) → sum_by part self.new.items ≡ sum_by part self.old.items + part item.now }
        ensures spare { self.old.spare ≤ self.new.spare + 1 }
        ensures cost { (b : ℕ) → length self.old.items + 1 ≤ 2 ^ b → steps.new ≤ steps.old + (12 * b + 14) }
    {
        if self.first.spare() > 0 {
            self.first.push(*item, steps);
        } else if self.tree.is_empty() {
            self.tree = Tree::of(item, self.pool.take(), steps);
            self.blocks = 1;
        } else {
            let before = self.pool.len();
            self.tree.insert(item, &mut self.pool, steps);
            self.blocks += before - self.pool.len();
        }
    }

    /// The sums of the moves that pass a bound of the order of ranks.
    pub(crate) fn sum<L: Ledger>(&self, bound: &Bound, steps: &mut Steps<L>) -> Sums
        requires { is_by_rank bound.now ≡ true }
        ensures value { AreSums result (λ part. sum_by (if_passing (passes bound.now) part) self.now.items) }
        ensures input { result.input < 2 ^ 127 }
        ensures output { result.output < 2 ^ 127 }
        ensures count { result.count ≤ length self.now.items }
        ensures cost { (b : ℕ) → length self.now.items + 1 ≤ 2 ^ b → steps.new ≤ steps.old + (2 * b + 41) }
    {
        let few = sum_all(&self.first, bound, steps);
        if self.tree.is_empty() {
            few
        } else {
            few.plus(self.tree.sum(bound, steps))
        }
    }
}

/// How many spare nodes let `more` moves go into a tree of `len` moves in so many blocks.
fn nodes_for(len: u64, blocks: usize, more: usize) -> usize
    ensures enough { more ≤ max result (16 * (blocks + result) - len) }
    ensures none { more ≡ 0 → result ≡ 0 }
    ensures most { result ≤ more }
    ensures filled { 0 < result → 16 * (blocks + result) ≤ len + more + 15 }
{
    let all = (len as u128 + more as u128).div_ceil(16);
    if all <= blocks as u128 {
        0
    } else if all - (blocks as u128) < more as u128 {
        (all - blocks as u128) as usize
    } else {
        more
    }
}

/// Takes memory for so many spare nodes, and gives back what is more than twice as many.
fn fill(pool: &mut Pool, alloc: Global, nodes: usize) -> Result<(), NoMemory>
    ensures ok { OnOk result (nodes ≤ pool.new) }
    ensures most { pool.new ≤ max pool.old nodes }
    ensures err { OnErr result (pool.old ≤ pool.new) }
{
    if pool.len() / 2 > nodes {
        pool.truncate(nodes);
    } else {
        'grow: while pool.len() < nodes {
            pool.add(alloc)?;
        }
    }
    Ok(())
}
