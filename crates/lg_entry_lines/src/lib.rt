//! The bytes of a line of a log, read as an entry; and the laws of the lines of entries.
#![tactic(auto)]

pub mod laws;
mod lines;
pub mod parts;

pub use lg_readings::ReadEntry;
pub use lines::{LineFault, entry_of_line};
