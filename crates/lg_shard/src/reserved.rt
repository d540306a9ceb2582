//! An index with room for moves that are prepared.

ghost use Rattle.std.specs.Prelude.{◌≡◌, ◌+◌, ◌-◌, ◌<◌, ◌≤◌, [], ◌∷◌, ◌++◌, OnOk, OnErr};
ghost use Rattle.lg_base.specs.Volumes.{IsWithinLimit};
ghost use Rattle.lg_moves.specs.Moves.{ComesNext};
ghost use Rattle.lg_types.specs.Tally.{total_of};

use lg_containers::NoMemory;
use lg_moves::{Move, MoveIndex};
use lg_runs::Steps;
use std::alloc::{AllocError, Global};
use std::sync::ledger::Ledger;

/// The index of one account and one asset, and how many prepared moves it has room for.
#[derive(Drop)]
pub struct Reserved {
    pub(crate) index: MoveIndex,
    pub(crate) waiting: usize,
    ghost roomy: { waiting ≤ index.spare },
}

impl Reserved {
    /// No moves, and room for none.
    pub fn new(alloc: Global) -> Reserved
        ensures items { result.index.items ≡ [] }
        ensures waiting { result.waiting ≡ 0 }
    {
        Reserved {
            index: MoveIndex::new(alloc),
            waiting: 0,
        }
    }

    /// Makes room for one more prepared move.
    pub fn reserve(&mut self) -> Result<(), NoMemory>
        ensures items { self.new.index.items ≡ self.old.index.items }
        ensures ok { OnOk result (self.new.waiting ≡ self.old.waiting + 1) }
        ensures err { OnErr result (self.new.waiting ≡ self.old.waiting) }
    {
        if self.waiting == usize::MAX {
            return Err(AllocError);
        }
        self.index.prepare(self.waiting + 1)?;
        self.waiting += 1;
        Ok(())
    }

    /// Gives the room for one prepared move back, where there is some.
    pub fn release(&mut self)
        ensures items { self.new.index.items ≡ self.old.index.items }
        ensures waiting { self.new.waiting ≡ self.old.waiting - 1 }
    {
        if self.waiting > 0 {
            self.waiting -= 1;
        }
    }

    /// Applies a prepared move. Takes no memory.
    pub fn apply<L: Ledger>(&mut self, item: Move, steps: &mut Steps<L>)
        requires waiting { 0 < self.old.waiting }
        requires next { ComesNext self.old.index.items item }
        requires limit { IsWithinLimit (total_of (self.old.index.items ++ item ∷ [])) }
        ensures items { self.new.index.items ≡ self.old.index.items ++ item ∷ [] }
        ensures waiting { self.new.waiting + 1 ≡ self.old.waiting }
    {
        self.waiting -= 1;
        self.index.apply(item, steps);
    }
}
