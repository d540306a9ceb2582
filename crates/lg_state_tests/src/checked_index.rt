//! An index of moves that looks at each move before it takes it.

ghost use Rattle.std.specs.Prelude.{◌≡◌, ◌+◌, ◌^◌, ◌<◌, true};
ghost use Rattle.lg_types.specs.Tally.{amount_in, amount_out};

use lg_base::{Amount, NoMemory, Volumes};
use lg_moves::MoveIndex;
use lg_runs::Steps;
use lg_types::Move;
use std::alloc::Global;
use std::marker::Model;
use std::sync::ledger::Ledger;
use std::test::Fail;

/// An index that takes moves only where their conditions hold.
#[derive(Drop)]
pub struct CheckedIndex {
    pub index: MoveIndex,
    transaction: u64,
    inserted: i64,
}

impl Model for CheckedIndex {
    ghost use Rattle.lg_runs.specs.Runs.{Kept};
    ghost use Rattle.lg_types.specs.declared.moves.Move.{Move};
    ghost use Rattle.lg_state_tests.specs.LastMove.{EndsBy};

    ghost Value = { Kept Move };

    ghost view = { λ t. t.index };

    ghost invariant = { λ t. EndsBy t.index.items t.transaction t.inserted };
}

impl CheckedIndex {
    /// An index of no moves.
    pub fn new(alloc: Global) -> CheckedIndex {
        CheckedIndex {
            index: MoveIndex::new(alloc),
            transaction: 0,
            inserted: 0,
        }
    }

    /// Applies the move, and says whether it could.
    pub fn put<L: Ledger>(&mut self, item: Move, steps: &mut Steps<L>) -> Result<bool, NoMemory> {
        self.index.prepare(1)?;
        if item.transaction < self.transaction || item.inserted < self.inserted {
            return Ok(false);
        }
        if !fits(self.index.total(), &item) {
            return Ok(false);
        }
        self.transaction = item.transaction;
        self.inserted = item.inserted;
        self.index.apply(item, steps);
        Ok(true)
    }
}

/// Whether the volumes with a move are within the limit.
fn fits(total: Volumes, item: &Move) -> bool
    ensures input { result ≡ true → total.input + amount_in item.now < 2 ^ 127 }
    ensures output { result ≡ true → total.output + amount_out item.now < 2 ^ 127 }
{
    let limit: u128 = 1 << 127;
    if total.input >= limit || total.output >= limit {
        return false;
    }
    let amount = item.amount.value();
    if item.incoming {
        total.input + amount < limit
    } else {
        total.output + amount < limit
    }
}

/// The amount of so many units.
pub fn amount(units: u128) -> Result<Amount, Fail> {
    Ok(Amount::of(units).ok_or("beyond the limit")?)
}

pub fn volumes(input: u128, output: u128) -> Volumes {
    Volumes { input, output }
}
