//! What follows a head.

/// What follows a head on its connection.
#[derive(Clone, Copy, PartialEq, Eq, Debug)]
pub enum Framing {
    /// A length that is no whole number, or two lengths.
    Bad,
    /// A body in a transfer coding.
    Coded,
    /// A body of so many bytes; 2 ^ 64 - 1 stands for that many or more.
    Length(u64),
}
