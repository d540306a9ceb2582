//! What was done for a call.

use lg_views::Reply;

/// The reply to a call that was carried out.
#[derive(Drop)]
pub struct Done {
    /// How many events were added.
    pub events: u64,
    pub reply: Reply,
}
