//! Requests in texts: how tests write requests and show replies.
#![tactic(auto)]

mod requests;
mod texts;

pub use requests::{Request, call_of, midnight};
pub use texts::{body_text, canonical_text, text_of};
