//! The parts of a message.

use lg_heads::Span;

/// A message at the front of some bytes, by places in these bytes.
#[derive(Clone, Copy, PartialEq, Eq, Debug)]
pub struct MessageSpans {
    pub method: Span,
    pub target: Span,
    /// The value of the first `Idempotency-Key` field.
    pub key: Option<Span>,
    pub body: Span,
    /// The connection closes behind this message.
    pub closes: bool,
    /// How many bytes the message has, head and body.
    pub len: usize,
}
