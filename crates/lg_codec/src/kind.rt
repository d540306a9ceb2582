//! What the body of a request is read as.

use lg_types::Target;

/// What kind of write a body asks for, with what its request says beside the body.
#[derive(Drop)]
pub enum WriteKind {
    /// A transaction.
    Create,
    Revert {
        id: u64,
        /// Whether accounts may go below zero.
        force: bool,
        /// Whether the reverting transaction has the effective date of the reverted one.
        at_effective_date: bool,
    },
    /// Metadata.
    SetMeta {
        target: Target,
    },
}
