//! Decisions.

use lg_plan::Plan;
use lg_types::Refusal;
use lg_views::Reply;

/// What becomes of a call: decided, and not yet carried out.
#[derive(Drop)]
pub enum Decision {
    Refused(Refusal),
    /// The entry that has the call's key, by its id: its first reply is the answer.
    Kept { entry: u64 },
    /// The reply of a list of which nothing is appended.
    Answered(Reply),
    /// The reply, and the events to be added first.
    Planned(Plan),
}
