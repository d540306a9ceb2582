//! What the head of a reply says.

use crate::media_type::MediaType;

/// The head of a reply.
#[derive(Clone, Copy, PartialEq, Eq, Debug)]
pub struct ReplyHead {
    /// The status (RFC 9110, section 15).
    pub status: u16,
    /// What the body is, where there is one.
    pub media: Option<MediaType>,
    /// How many events the reply knows of.
    pub front: u64,
    /// How many of them it added.
    pub events: u64,
    /// The reply is the first one of its key, given again.
    pub hit: bool,
}
