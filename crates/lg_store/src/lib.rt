//! The ledger: what a call is answered, and the events that it adds.
#![tactic(auto)]

mod calls;
mod done;
mod lent;
mod opening;
mod solo;

pub use lg_base::NoMemory;
pub use lg_views::Answer;
pub use solo::Solo;
