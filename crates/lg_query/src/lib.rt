//! Reads: what a ledger answers when it is asked, at a date, filtered and in pages.
#![tactic(auto)]

mod answering;
mod entries;
mod listed_entries;
mod pages;

pub use answering::answer;
pub use entries::entries_page;
pub use lg_base::NoMemory;
