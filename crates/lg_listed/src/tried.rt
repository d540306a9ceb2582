//! What elements come to.

use lg_types::{Entry, Refusal};

/// What an element of a list of writes comes to.
#[derive(Drop)]
pub enum Tried {
    Refused(Refusal),
    /// The entry that has the element's key, by its id.
    Kept { entry: u64 },
    /// The new entry, which follows the entries of the earlier elements.
    Appended(Entry),
}
