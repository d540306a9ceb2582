//! Moves: what a posting does to each of its two accounts.

use lg_base::Amount;

/// What one posting moves on one account: out of its source, or into its destination.
#[derive(Clone, Copy)]
pub struct Move {
    /// The id of the posting's transaction.
    pub transaction: u64,
    /// The date of the entry, in microseconds since 1970-01-01T00:00:00Z.
    pub inserted: i64,
    /// The timestamp of the transaction, in microseconds since 1970-01-01T00:00:00Z.
    pub effective: i64,
    /// Whether the amount comes in.
    pub incoming: bool,
    pub amount: Amount,
}
