//! Which items of a list a filter selects, and the pages of a list.
#![tactic(auto)]

mod filtering;
mod listing;
mod paging;

pub use filtering::{Filtered, compares, passes};
pub use lg_base::NoMemory;
pub use listing::Listing;
pub use paging::{Gathered, gather};
