//! Laws of what the volumes of a new transaction need. Each function's contract is a law; there is nothing to run.

ghost use Rattle.lg_commit_volumes.specs.Laws.{TriedIsWithin, NextIsGreater};

/// Postings that leave all totals within the limit leave those of the transaction's accounts within it, as the lent shards know them.
pub fn tried_is_within()
    ensures { TriedIsWithin }
{}

/// The transactions of a ledger have smaller ids than the next.
pub fn next_is_greater()
    ensures { NextIsGreater }
{}
