//! Why a message is refused.

/// Why no message can be read at the front of a connection's bytes. The connection closes behind the refusal.
#[derive(Clone, Copy, PartialEq, Eq, Debug)]
pub enum MessageRefusal {
    /// 400: no head, or a length that is no whole number.
    BadHead,
    /// 431: a head that passes a limit.
    LongHead,
    /// 501: a body in a transfer coding.
    CodedBody,
    /// 413: a body that is longer than those of its method and target may be.
    LongBody,
}
