//! What becomes of a call that may add events, and of a list of writes: its elements in their order, with one moment, each over
//! the log that the earlier ones leave.
#![tactic(auto)]

mod calls;
mod deciding;
mod elements;
mod gathered;
mod kept;
mod limits;
mod lists;
mod planning;
mod results;
mod volumes;

pub use calls::decide;
pub use deciding::decide_list;
pub use lg_decide::{Decision, NoMemory};
