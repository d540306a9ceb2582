//! How a run of a script ends.

/// How a run of a script ended.
#[derive(Clone, Copy, PartialEq, Eq, Debug)]
pub enum RunEnd {
    /// The whole output was written.
    Done,
    /// A write failed; a front of the output was written.
    WriteFault,
    /// Memory was wanting; nothing was written.
    NoMemory,
}
