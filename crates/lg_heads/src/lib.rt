//! Heads of HTTP requests: a scan that looks at each byte once and minds the limits, the verdict on the bytes, and what
//! the fields say of the message.
//!
//! Nothing here reads from a source.
#![tactic(auto)]

mod fields;
mod framing;
mod head;
mod head_scan;
mod judging;
mod lengths;
mod verdict;

pub use framing::Framing;
pub use head::Head;
pub use head_scan::{HEAD_BYTES, HEAD_LINES, HeadScan, Seen};
pub use httparse::spans::Span;
pub use judging::judge;
pub use verdict::Verdict;
