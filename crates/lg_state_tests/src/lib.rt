//! Tests over public calls: runs, moves, metadata, keys, shards and the book. All of it is tests.
#![tactic(auto)]

#[cfg(test)]
mod book_tests;
#[cfg(test)]
mod checked_index;
#[cfg(test)]
mod history_tests;
#[cfg(test)]
mod key_tests;
#[cfg(test)]
mod late_tests;
#[cfg(test)]
mod move_tests;
#[cfg(test)]
mod run_tests;
#[cfg(test)]
mod shard_tests;
