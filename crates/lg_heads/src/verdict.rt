//! Verdicts on bytes that begin with a head.

use crate::head::Head;

/// What the bytes of a head come to.
#[derive(Clone, Copy, PartialEq, Eq, Debug)]
pub enum Verdict {
    /// A whole head within the limits.
    Whole(Head),
    /// No bytes that follow can make a head.
    Bad,
    /// The head passes a limit.
    Long,
    /// There is no whole head yet, and more bytes may make one.
    Open,
}
