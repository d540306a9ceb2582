//! The book: the list of all events, and what of it is found by a look-up: ledgers, logs, transactions and first replies.
#![tactic(auto)]

mod book;
mod changing;
pub mod laws;
mod ledger_index;
mod ledgers;
mod opening;
mod readings;
mod records;
mod replies;
mod volumes;

pub use book::Book;
pub use lg_meta::MetaHistory;
pub use lg_views::NoMemory;
pub use replies::reply_of;
pub use volumes::FirstVolumes;
