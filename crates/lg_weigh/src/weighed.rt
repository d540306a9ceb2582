//! What the shards say of a call.

use lg_keys::Kept;
use lg_types::Refusal;

/// What is known of a write before its entry has an id and a date. For every other call each field is none.
#[derive(Drop)]
pub struct Weighed {
    /// Of a write with a key: the SHA-256 of what it asks.
    pub input_hash: Option<[u8; 32]>,
    /// Of a write with a key: what the ledger keeps of the key.
    pub kept: Option<Kept>,
    /// Of a creation with a reference: the id of the transaction that has it.
    pub used: Option<u64>,
    /// The refusal of the postings of a creation, and of a revert whose transaction is known.
    pub trial: Option<Refusal>,
}
