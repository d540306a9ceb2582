//! What one stripe of the ledgers knows.
#![tactic(auto)]

mod accounts;
mod changes;
mod entries;
mod entry_changes;
mod entry_moves;
mod events;
mod kept;
pub mod laws;
mod ledgers;
mod names;
mod part;
mod readers;
mod reserved;
mod shard;
mod shards;
mod stripes;
mod tables;

pub use lg_types::Class;
pub use shard::Shard;
pub use shards::Shards;
pub use stripes::stripe_of;
