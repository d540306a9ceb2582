//! What one element of a list of writes comes to: it sees its ledger's log and the entries that earlier elements of the list
//! append, which no shard and no book has yet.
#![tactic(auto)]

mod amounts;
mod balances;
mod elements;
mod found;
mod keys;
mod last;
pub mod laws;
mod limits;
mod looking;
mod new_entries;
mod references;
mod trial;
mod tried;

pub use elements::try_element;
pub use lg_types::NoMemory;
pub use tried::Tried;
