//! The texts and the statuses of replies, and the lines of an export.
#![tactic(auto)]

mod amount_parts;
mod amounts;
mod codes;
mod escaped_feed;
mod exports;
mod message_parts;
mod messages;
mod pages;
mod refusal_parts;
mod refusals;
mod replies;
mod reply_parts;
mod shown;
mod view_parts;
mod views;

pub use exports::feed_lines;
pub use replies::{reply_text, status_of};
