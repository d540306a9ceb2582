//! The keys and the transaction references that a ledger has accepted.
#![tactic(auto)]

mod kept;

pub use kept::Kept;
use lg_containers::{KeyGrammar, ReferenceGrammar};
use lg_maps::PreparedMap;

/// The idempotency keys of accepted requests, each with what is kept of its request.
pub type KeyTable = PreparedMap<KeyGrammar, Kept>;

/// The references of transactions, each with its transaction's id.
pub type ReferenceTable = PreparedMap<ReferenceGrammar, u64>;
