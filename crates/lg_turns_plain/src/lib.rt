//! The plainest part, journal and change: they keep whole events.
#![tactic(auto)]

mod accounts;
mod change;
mod journal;
mod part;

pub use accounts::{Account, opening, payment};
pub use change::Addition;
pub use journal::PlainJournal;
pub use part::{Kept, PlainPart};

#[cfg(test)]
mod tests;
