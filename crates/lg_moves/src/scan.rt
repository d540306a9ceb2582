//! Sums of a run of moves, move by move.

ghost use Rattle.std.specs.Prelude.{◌≡◌, ℕ, ◌+◌, ◌^◌, ◌<◌, length};
ghost use Rattle.std.specs.List.{sum_by};
ghost use Rattle.lg_moves.specs.Bounds.{passes};
ghost use Rattle.lg_types.specs.Tally.{if_passing};
ghost use Rattle.lg_types.specs.declared.moves.Move.{Move};
ghost use Rattle.lg_moves.specs.Sums.{AreSums, IsBounded};

use crate::bounds::Bound;
use crate::sums::Sums;
use lg_runs::{Runs, Steps};
use lg_types::Move;
use std::sync::ledger::Ledger;

/// The sums with a move, if it passes.
fn with_passing(sums: Sums, item: &Move, bound: &Bound) -> Sums
    requires input { sums.input < 2 ^ 127 }
    requires output { sums.output < 2 ^ 127 }
    requires count { sums.count + 1 < 2 ^ 64 }
    ensures { (total : (Move → ℕ) → ℕ) → AreSums sums total → AreSums result (λ part. total part + if_passing (passes bound.now) part item.now) }
{
    if bound.passes(item) {
        sums.with(item)
    } else {
        sums
    }
}

/// The sums of the moves that pass.
pub(crate) fn sum_all<L: Ledger>(moves: &Runs<Move>, bound: &Bound, steps: &mut Steps<L>) -> Sums
    requires { IsBounded (λ part. sum_by part moves.now.items) }
    ensures value { AreSums result (λ part. sum_by (if_passing (passes bound.now) part) moves.now.items) }
    ensures cost { steps.new ≡ steps.old + length moves.now.items }
{
    let mut sums = Sums::zero();
    for i in 0..moves.len() {
        let item = moves.read_at(i, steps);
        sums = with_passing(sums, &item, bound);
    }
    sums
}
