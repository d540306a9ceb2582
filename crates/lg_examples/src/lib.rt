//! Worked examples of the definitions. Each function's contract is an example, which the check proves by computing it.
#![tactic(auto)]

mod keys;
mod lists;
mod requests;

ghost use Rattle.std.specs.Prelude.{◌≡◌};
ghost use Rattle.lg_examples.specs.Scenes.{day};
ghost use Rattle.lg_examples.specs.Rows.{FirstCreation, LackedFunds, RefusedWithoutEvents, InOrder, OutOfOrder, DatedBack, SeenAfterwards, AccountAtNoon, Tie, FundsFirst, ReferenceUsed, RevertBelow, RevertForced, RevertedTwice, RevertOfNone, MetadataOn, NoAccountYet, gold, silver, only_x, DateKept, AccountStripes};

pub use keys::{imports, key_not_kept, ledgers, nothing_moves, repeated_key, reverted_there};
pub use lists::{groups_and_sums, lists_of_writes, pages, past_limit};
pub use requests::{decoded_path, filter_faults, refused_creations, unrouted_requests};

/// A creation on an empty product, with its four volumes.
#[tactic(auto, unfolding(crate::specs::Rows::computed))]
pub fn first_creation()
    ensures { FirstCreation }
{}

/// A payment of more than there is, which appends nothing.
#[tactic(auto, unfolding(crate::specs::Rows::computed))]
pub fn lacked_funds()
    ensures refusal { LackedFunds }
    ensures events { RefusedWithoutEvents }
{}

/// Postings are tried in their order.
#[tactic(auto, unfolding(crate::specs::Rows::computed))]
pub fn tried_in_order()
    ensures accepted { InOrder }
    ensures refused { OutOfOrder }
{}

/// A transaction dated back: its own volumes, and those of a transaction of a smaller id afterwards.
#[tactic(auto, unfolding(crate::specs::Rows::computed))]
pub fn dated_back()
    ensures own { DatedBack }
    ensures other { SeenAfterwards }
{}

/// An account at a date, by insertion and by effective date.
#[tactic(auto, unfolding(crate::specs::Rows::computed))]
pub fn account_at_noon()
    ensures { AccountAtNoon }
{}

/// Transactions of one effective date stand in the order of their ids.
#[tactic(auto, unfolding(crate::specs::Rows::computed))]
pub fn tie_by_id()
    ensures first { Tie 1 0 10 }
    ensures second { Tie 2 10 15 }
    ensures third { Tie 3 15 16 }
{}

/// Funds are tried before the reference, and a used one is a conflict.
#[tactic(auto, unfolding(crate::specs::Rows::computed))]
pub fn used_reference()
    ensures funds { FundsFirst }
    ensures conflict { ReferenceUsed }
{}

/// A revert that would leave an account below zero, one that is forced, a second one, and one of no transaction.
#[tactic(auto, unfolding(crate::specs::Rows::computed))]
pub fn reverts()
    ensures below { RevertBelow }
    ensures forced { RevertForced }
    ensures twice { RevertedTwice }
    ensures missing { RevertOfNone }
{}

/// Metadata of an account on three days, and on the day before the first.
#[tactic(auto, unfolding(crate::specs::Rows::computed))]
pub fn metadata_by_day()
    ensures first { MetadataOn (day 1) gold }
    ensures second { MetadataOn (day 2) silver }
    ensures third { MetadataOn (day 3) only_x }
    ensures before { NoAccountYet }
{}

/// The date of an entry never falls.
#[tactic(auto, unfolding(crate::specs::Rows::computed))]
pub fn date_kept()
    ensures { DateKept }
{}

/// The stripes of seven accounts of `default`.
#[tactic(auto, unfolding(crate::specs::Rows::computed))]
pub fn account_stripes()
    ensures { AccountStripes }
{}
