//! The pieces of a refusal's body.

use lg_types::Refusal;

/// A piece of a text that tells of a refusal.
#[derive(Clone, Copy)]
pub enum RefusalPart<'a> {
    /// Bytes that stand as they are.
    Plain(&'a [u8]),
    /// The code, as a JSON string.
    Code(&'a Refusal),
    /// The message, as a JSON string.
    Message(&'a Refusal),
    /// Why the element at a place, counted from 0, failed, as a JSON string.
    Description(u64, &'a Refusal),
}
