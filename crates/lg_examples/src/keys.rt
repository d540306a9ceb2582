//! Keys, imports and ledgers.

ghost use Rattle.lg_examples.specs.KeyRows.{FirstReplyAgain, FirstReplyAppendsNothing, KeyNotKept, CopyReadsAlike, ImportIntoEntries, NoSuchLedger, LedgerTwice, NothingMoves, RevertedThere, NotThereBefore};

/// A repeated key gets the first reply.
pub fn repeated_key()
    ensures reply { FirstReplyAgain }
    ensures events { FirstReplyAppendsNothing }
{}

/// A refused call keeps no key.
#[tactic(auto, unfolding(crate::specs::Rows::computed))]
pub fn key_not_kept()
    ensures { KeyNotKept }
{}

/// A log that is imported into another ledger reads alike, and none goes into a ledger with entries.
#[tactic(auto, unfolding(crate::specs::Rows::computed))]
pub fn imports()
    ensures copy { CopyReadsAlike }
    ensures entries { ImportIntoEntries }
{}

/// A ledger that isn't there, and one that is.
#[tactic(auto, unfolding(crate::specs::Rows::computed))]
pub fn ledgers()
    ensures missing { NoSuchLedger }
    ensures twice { LedgerTwice }
{}

/// An amount of 0 is moved without funds.
#[tactic(auto, unfolding(crate::specs::Rows::computed))]
pub fn nothing_moves()
    ensures { NothingMoves }
{}

/// A revert at the effective date of the original.
#[tactic(auto, unfolding(crate::specs::Rows::computed))]
pub fn reverted_there()
    ensures at { RevertedThere }
    ensures before { NotThereBefore }
{}
