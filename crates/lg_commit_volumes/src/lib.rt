//! The volumes before and after a new transaction, read from lent shards.
#![tactic(auto)]

mod before;
mod first;
pub mod laws;
mod maps;
mod pairs;
mod sums;
mod totals;

pub use first::first_volumes;
pub use lg_base::NoMemory;
pub use lg_book::FirstVolumes;
