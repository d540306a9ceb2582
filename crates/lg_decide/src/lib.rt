//! What becomes of a call: what is decided of a write, the entry that it appends, and the decision of the whole call.
#![tactic(auto)]

mod creations;
mod deciding;
mod decisions;
mod entries;
mod ledgers;
mod limits;
mod logged;
mod looked;
mod looking;
mod planning;
mod reverts;
mod targets;
mod writes;

pub use deciding::decide;
pub use decisions::Decision;
pub use entries::new_entry;
pub use lg_views::{Decided, NoMemory};
pub use lg_weigh::{StripeSet, stripes_of};
pub use looked::Looked;
pub use writes::decide_write;
