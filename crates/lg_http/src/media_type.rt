//! Media types of bodies.

/// What a body is.
#[derive(Clone, Copy, PartialEq, Eq, Debug)]
pub enum MediaType {
    /// `application/json`.
    Json,
    /// `application/octet-stream`.
    OctetStream,
}
