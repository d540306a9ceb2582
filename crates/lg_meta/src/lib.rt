//! The history of the metadata of an account or a transaction: what its metadata was at any date.
#![tactic(auto)]

mod adding;
mod change;
mod history;
mod index;
mod latest;
pub mod laws;
mod places;

pub use change::DatedChange;
pub use history::MetaHistory;
pub use lg_types::MetaChange;
