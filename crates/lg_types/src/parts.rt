//! The pieces of a canonical text.

use lg_base::Amount;
use lg_containers::{Address, Asset, Bucket, Key, LedgerName, Reference, Text};

/// A piece of a canonical text. A name is a JSON string of its bytes.
#[derive(Clone, Copy)]
pub enum Part<'a> {
    /// Bytes that stand as they are.
    Plain(&'a [u8]),
    Address(&'a Address),
    Asset(&'a Asset),
    LedgerName(&'a LedgerName),
    Bucket(&'a Bucket),
    Key(&'a Key),
    Reference(&'a Reference),
    Text(&'a Text),
    /// A whole number in decimal.
    Number(u64),
    /// An amount in decimal.
    Amount(Amount),
    /// A date as a JSON string; microseconds since 1970-01-01T00:00:00Z, brought into the range of moments.
    Moment(&'a i64),
    /// A hash in base64 as a JSON string.
    Hash(&'a [u8; 32]),
}
