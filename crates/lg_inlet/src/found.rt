//! What stands at the front of a connection's bytes.

use lg_heads::Head;

/// What was found at the front of the unread bytes.
#[derive(Clone, Copy, PartialEq, Eq, Debug)]
pub enum Found {
    /// A whole head within the limits.
    Whole(Head),
    /// Bytes that can't begin a head.
    Bad,
    /// A head that passes a limit.
    Long,
    /// Part of a head, at the source's end.
    Cut,
    /// Nothing, at the source's end.
    Closed,
}
