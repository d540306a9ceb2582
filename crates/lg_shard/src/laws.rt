//! Laws of what may follow the shares of a stripe. Each function's contract is a law; there is nothing to run.

ghost use Rattle.lg_shard.specs.FollowingLaws.{EntryFollows, LaterChanges, MadeFollows};

/// A ledger that is made may always follow.
#[tactic(auto, using(crate::proofs::FollowingLemmas::made_follows))]
pub fn made_follows()
    ensures { MadeFollows }
{}

/// An entry may follow where it may in its own ledger.
#[tactic(auto, using(crate::proofs::FollowingLemmas::entry_follows))]
pub fn entry_follows()
    ensures { EntryFollows }
{}

/// The changes of an entry may follow changes that aren't dated later.
#[tactic(auto, using(crate::proofs::FollowingLemmas::later_changes))]
pub fn later_changes()
    ensures { LaterChanges }
{}
