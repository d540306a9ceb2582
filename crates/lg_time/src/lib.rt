//! Moments in time and their texts, by RFC 3339.
//!
//! A moment is an `i64`: the microseconds since 1970-01-01T00:00:00Z, from
//! 0001-01-01T00:00:00Z to 9999-12-31T23:59:59.999999Z. Days have 86,400 seconds, as there.
//! No function of this crate takes memory.
#![tactic(auto)]

mod print;
mod range;
mod read;

pub use print::print_moment;
pub use range::{FIRST_MOMENT, LAST_MOMENT, is_moment};
pub use read::{BadMoment, read_moment};
