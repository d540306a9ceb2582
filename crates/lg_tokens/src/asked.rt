//! What a query asks for beside its filter and its place.

use lg_types::{Expand, Span};

/// What a query asks for beside its filter and its place.
#[derive(Clone, Copy)]
pub struct Asked {
    /// The date at which the list is looked at, in microseconds since 1970-01-01T00:00:00Z.
    pub pit: Option<i64>,
    pub expand: Expand,
    pub span: Span,
}
