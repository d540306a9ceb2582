//! Events that a call adds to the shards and the book: they are prepared first, which takes all the memory that they need, and then carried out.
#![tactic(auto)]

mod booking;
mod carry;
mod change;
pub mod laws;
mod plan;
mod shards;
mod step;
mod stripes;

pub use carry::{carry_out, prepare_all};
pub use plan::Plan;
