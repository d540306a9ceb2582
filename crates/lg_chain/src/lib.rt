//! The chain of a log: SHA-256 (FIPS 180-4) over the texts of its entries. No call here takes memory.
#![tactic(auto)]

mod hash_feed;
mod sealing;

pub use hash_feed::HashFeed;
pub use sealing::{input_hash, seal, seal_first};
