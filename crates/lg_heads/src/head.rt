//! The parts of a whole head.

use crate::framing::Framing;
use httparse::spans::Span;

/// A whole head at the front of some bytes, by places in these bytes.
#[derive(Clone, Copy, PartialEq, Eq, Debug)]
pub struct Head {
    pub method: Span,
    pub target: Span,
    /// The value of the first `Idempotency-Key` field.
    pub key: Option<Span>,
    pub framing: Framing,
    /// The connection closes behind this message.
    pub closes: bool,
    /// How many bytes the head has, empty lines in front included.
    pub len: usize,
}
