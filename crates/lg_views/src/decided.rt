//! What a write comes to, before and with its entry.

use lg_types::{Entry, EntryBody, Refusal};

/// What a ledger answers to a write without a key that it keeps.
#[derive(Drop)]
pub enum Decided {
    Denied(Refusal),
    /// What the new entry records.
    Granted(EntryBody),
}

/// What a write comes to.
#[derive(Drop)]
pub enum Written {
    Refuses(Refusal),
    /// The entry that has the write's key.
    Finds(Entry),
    /// The new entry.
    Appends(Entry),
}
