//! Laws of events that may be prepared. Each function's contract is a law; there is nothing to run.

ghost use Rattle.lg_plan.specs.Laws.{EntryFollows, MadeFollows, FaultlessEnters, PartTotals, TotalsStayWithin, TriedWithinLimit, FitsMore};

/// An entry that may be the next of its ledger's log may be prepared on each shard, and so may a ledger that is made.
pub fn follows()
    ensures entry { EntryFollows }
    ensures made { MadeFollows }
{}

/// An entry that an import takes as the next of a log may be the next.
pub fn enters()
    ensures { FaultlessEnters }
{}

/// What a stripe's part adds up to for its accounts is what the log adds up to, and a total within the limit stays within it.
pub fn totals()
    ensures part { PartTotals }
    ensures within { TotalsStayWithin }
{}

/// Postings that pass the trial don't pass the limit.
pub fn tried_within_limit()
    ensures { TriedWithinLimit }
{}

/// A plan that fits a list fits it with one event more that may come last.
pub fn fits_more()
    ensures { FitsMore }
{}
