//! The pieces of a reply's line.

use lg_types::Part;
use lg_views::Reply;

/// A piece of the line of a reply.
#[derive(Clone, Copy)]
pub enum LinePart<'a> {
    Base(Part<'a>),
    /// `true` or `false`.
    Truth(bool),
    /// The body of a reply.
    Body(&'a Reply),
}
