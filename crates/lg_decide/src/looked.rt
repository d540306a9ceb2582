//! What a ledger's log says of a write.

use lg_types::Transaction;

/// What is looked up for a write.
#[derive(Clone, Copy)]
pub struct Looked<'a> {
    /// How many transactions the log has.
    pub transactions: u64,
    /// The transaction of the id that the write names: the one that it reverts, or its target.
    pub transaction: Option<&'a Transaction>,
    /// The id of the transaction that reverted it.
    pub reverted_by: Option<u64>,
    /// Of a creation with a reference: the id of the transaction that has it.
    pub used: Option<u64>,
}
