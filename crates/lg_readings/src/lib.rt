//! What requests, their bodies, the lines of a log and scripts are read as.
#![tactic(auto)]

pub mod laws;
mod readings;

pub use readings::{EntryType, ReadEntry};
