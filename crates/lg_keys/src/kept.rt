//! What is kept of an accepted request.

/// What a ledger keeps of the request that came with an idempotency key.
#[derive(Clone, Copy)]
pub struct Kept {
    /// The id of the entry that the request appended.
    pub entry: u64,
    /// The SHA-256 of what the request asked.
    pub input_hash: [u8; 32],
}
