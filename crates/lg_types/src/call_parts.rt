//! The pieces of a write's text.

use crate::record_parts::BodyPart;

/// A piece of a write's text.
#[derive(Clone, Copy)]
pub enum CallPart<'a> {
    Body(BodyPart<'a>),
    Truth(bool),
    /// The member with the timestamp that a request gave, or nothing.
    Timestamp(&'a Option<i64>),
}
