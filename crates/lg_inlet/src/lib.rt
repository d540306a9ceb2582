//! Bytes of a connection as they come from a source: heads found in them, bodies taken or passed on.
#![tactic(auto)]

mod bodies;
mod body_end;
mod finding;
mod found;
mod inbox;
mod passing;
mod reading;
mod stopped;

pub use body_end::BodyEnd;
pub use found::Found;
pub use inbox::Inbox;
pub use stopped::Stopped;
