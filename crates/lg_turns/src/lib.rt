//! Sixteen parts, one journal and one history for the callers of all threads.
//!
//! A caller takes the stripes that its call touches, meets the journal, and then either publishes a prepared change or
//! gives the journal back. What it finds under the locks is what the one list of all events says.
#![tactic(auto)]

mod parts;
mod pass;
mod passes;
mod prepare;
mod publish;
mod rows;
mod rule;
mod sixteen;
mod slot;
mod start;
mod stripes;
mod turns;
mod word;

pub use lg_types::{Mark, Marked, NoMemory};
pub use parts::{Change, Journal, Part};
pub use pass::Pass;
pub use stripes::StripeSet;
pub use turns::{Fixed, Held, Met, Turns};
pub use word::{Blank, Name};
