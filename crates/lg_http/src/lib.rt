//! Messages of an HTTP connection (RFC 9112), and the texts of replies and refusals.
#![tactic(auto)]

mod body_limits;
mod body_size;
mod head_lines;
mod http_reply;
mod laws;
mod media_type;
mod message_spans;
mod messages;
mod next;
mod refusal;
mod reply_head;
mod texts;
mod writing;

pub use body_limits::BodyLimits;
pub use http_reply::HttpReply;
pub use laws::one_message;
pub use media_type::MediaType;
pub use message_spans::MessageSpans;
pub use messages::next_message;
pub use next::Next;
pub use refusal::MessageRefusal;
pub use reply_head::ReplyHead;
pub use texts::{body_length, feed_refusal, feed_reply};
pub use writing::{write_refusal, write_reply};
