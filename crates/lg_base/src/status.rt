//! How a program ends.

/// How a program ended. Its number is the exit status.
#[derive(Clone, Copy, PartialEq, Eq, Debug)]
pub enum Status {
    /// All was written, and the input was read to its end.
    Done = 0,
    /// The words are none of the program's forms; nothing was read.
    Words = 2,
    /// A read failed; nothing was written.
    ReadFault = 3,
    /// A write failed; what was written is a front of the output.
    WriteFault = 4,
    /// Memory was wanting; what was written is a front of the output.
    Memory = 5,
    /// The input has more bytes or lines than the program takes; nothing was written.
    InputLimit = 6,
    /// The lines that were checked have a bad one; its line and cause were written.
    BadLines = 7,
}
