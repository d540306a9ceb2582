//! The accounts of a ledger over all its shards, from one to the next in byte order.
#![tactic(auto)]

pub mod laws;
mod walk;

pub use walk::account_after;
