//! What comes next on a connection.

use crate::message_spans::MessageSpans;
use crate::refusal::MessageRefusal;

/// What stands at the front of a connection's unread bytes.
#[derive(Clone, Copy, PartialEq, Eq, Debug)]
pub enum Next {
    /// A whole message.
    Message(MessageSpans),
    /// Bytes that begin with no message, whatever follows them.
    Refused(MessageRefusal),
    /// Part of a message, at the source's end.
    Cut,
    /// Nothing, at the source's end.
    Closed,
}
