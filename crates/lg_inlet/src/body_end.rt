//! How a body ended.

/// Whether a body came whole.
#[derive(Clone, Copy, PartialEq, Eq, Debug)]
pub enum BodyEnd {
    Whole,
    /// The source ended before.
    Cut,
}
