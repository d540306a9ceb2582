//! Laws of moves and volumes, and of the parts that stripes hold. Each function's contract is a law; there is nothing to run.

ghost use Rattle.lg_types.specs.MoveLaws.{Balanced, LaterEntry, LaterTransaction, WithOwnPostings, WithOwnPostingsByRank};
ghost use Rattle.lg_types.specs.PartLaws.{KnowsMoves, KnowsChanges, KnowsAccounts, KnowsKeys, KnowsReferences};

/// In every log, inputs and outputs of one asset over all accounts are equal.
#[tactic(auto, using(crate::proofs::MoveSums::balanced))]
pub fn balanced()
    ensures { Balanced }
{}

/// An entry dated later changes no volume by insertion at a date, and a transaction with a later timestamp none by effective date.
#[tactic(auto, using(crate::proofs::MoveSums::later_entry, crate::proofs::MoveSums::later_transaction))]
pub fn later_moves()
    ensures inserted { LaterEntry }
    ensures effective { LaterTransaction }
{}

/// The volumes with a transaction are those without it and its own postings together, by id and by effective date.

pub fn with_own_postings()
    ensures id { WithOwnPostings }
    ensures rank { WithOwnPostingsByRank }
{}

/// The part of a stripe knows of the stripe's accounts, keys and references what the log knows of them.
pub fn stripe_knows()
    ensures moves { KnowsMoves }
    ensures changes { KnowsChanges }
    ensures accounts { KnowsAccounts }
    ensures keys { KnowsKeys }
    ensures references { KnowsReferences }
{}
