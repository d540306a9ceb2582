//! The moves of one account and one asset, and what they add up to at any date, in the order of insertion and in the
//! order of effective dates.
#![tactic(auto)]

mod block;
mod bounds;
mod entries;
mod index;
mod late;
mod line;
mod marks;
mod scan;
mod sums;
mod transactions;
mod tree;

pub use index::MoveIndex;
pub use lg_base::NoMemory;
pub use lg_types::Move;
