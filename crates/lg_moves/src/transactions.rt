//! The entries of a line by their transactions.

ghost use Rattle.std.specs.Prelude.{◌≡◌, ℕ, ◌+◌, ◌^◌, ◌≤◌, length};
ghost use Rattle.lg_moves.specs.Line.{IsCutBefore, IsOrdered};

use crate::entries::Entry;
use lg_runs::{Runs, Steps};
use std::sync::ledger::Ledger;

/// How many entries are of transactions before the id: a binary search.
pub(crate) fn count_before<L: Ledger>(entries: &Runs<Entry>, id: u64, steps: &mut Steps<L>) -> usize
    requires { IsOrdered entries.now.items }
    ensures count { IsCutBefore id entries.now.items result }
    ensures cost { (b : ℕ) → length entries.now.items + 1 ≤ 2 ^ b → steps.new ≤ steps.old + (b + 1) }
{
    let mut low = 0;
    let mut size = entries.len();
    while size > 0 {
        let half = size / 2;
        let entry = entries.read_at(low + half, steps);
        if entry.transaction < id {
            low += half + 1;
            size -= half + 1;
        } else {
            size = half;
        }
    }
    low
}
