//! Moves as the line keeps them.

ghost use Rattle.std.specs.Prelude.{◌≡◌, ◌+◌, ◌^◌, ◌<◌};
ghost use Rattle.lg_moves.specs.Entries.{move_of, entry_of, hits};

use crate::bounds::Bound;
use lg_base::Amount;
use lg_types::Move;

/// A move, and whether it is timely: it came in the order of ranks, the pairs of effective date and transaction.
///
/// The fields of the move stand here by themselves, so that the mark takes no room of its own.
#[derive(Clone, Copy)]
pub(crate) struct Entry {
    pub transaction: u64,
    pub inserted: i64,
    pub effective: i64,
    pub incoming: bool,
    pub timely: bool,
    pub amount: Amount,
}

impl Entry {
    pub(crate) fn new(item: &Move, timely: bool) -> Entry
        ensures { result ≡ entry_of item.now timely }
    {
        Entry {
            transaction: item.transaction,
            inserted: item.inserted,
            effective: item.effective,
            incoming: item.incoming,
            timely,
            amount: item.amount,
        }
    }

    /// The move.
    pub(crate) fn moved(&self) -> Move
        ensures { result ≡ move_of self.now }
    {
        Move {
            transaction: self.transaction,
            inserted: self.inserted,
            effective: self.effective,
            incoming: self.incoming,
            amount: self.amount,
        }
    }

    /// Whether it stands in the order that the bound cuts, and passes.
    pub(crate) fn is_hit_of(&self, bound: &Bound) -> bool
        ensures { result ≡ hits bound.now self.now }
    {
        (!bound.is_by_rank() || self.timely) && bound.passes(&self.moved())
    }
}
