//! Runs of records of one plain type, of which each access is a counted step.
//!
//! A step is one record read or written. The counter of steps takes no bytes and does nothing at run time: it lets
//! contracts bound the work of what is built on runs.
#![tactic(auto)]

mod runs;
mod steps;

pub use runs::Runs;
pub use std::alloc::AllocError as NoMemory;
pub use steps::Steps;
