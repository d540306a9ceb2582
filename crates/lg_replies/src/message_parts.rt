//! The pieces of a refusal's message.

use lg_types::{Address, Asset, FaultKind, ImportCause, Key, LedgerName, Reason, Reference, Text};

/// A piece of a message. Names stand as they are.
#[derive(Clone, Copy)]
pub enum MessagePart<'a> {
    /// Bytes that stand as they are.
    Plain(&'a [u8]),
    Address(&'a Address),
    Asset(&'a Asset),
    LedgerName(&'a LedgerName),
    Key(&'a Key),
    Reference(&'a Reference),
    Text(&'a Text),
    /// The name of a member of a line with a colon; nothing where the name is empty.
    Member(&'a Text),
    /// A whole number in decimal.
    Number(u128),
    /// A balance in decimal.
    Balance(&'a i128),
    /// A hash in hexadecimal.
    Hash(&'a [u8; 32]),
    Fault(FaultKind),
    Reason(Reason),
    Cause(&'a ImportCause),
}
