//! The forms of an entry's text.

/// Which text of an entry is meant.
#[derive(Clone, Copy, PartialEq, Eq, Debug)]
pub enum EntryForm {
    /// The entry's line in a log of form 2.
    Line,
    /// What is hashed of the entry in a log of form 2: its line without the hash.
    Chained,
    /// The entry's line in a log of form 1, which doesn't tell its form.
    FirstLine,
    /// What is hashed of the entry in a log of form 1: its line without the hash and the hash of the input.
    FirstChained,
}
