//! Which filter of a list a JSON value shows.
#![tactic(auto)]

mod fields;
mod kinds;
mod leaves;
mod paths;
mod reading;
mod values;

pub use reading::{filter_of_json, read_filter};
