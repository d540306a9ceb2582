//! Requests of lists: the query that the parameters and the body of a request ask for.
#![tactic(auto)]

mod first_pages;
mod lists;
mod number_parameters;
mod numbers;
mod queries;

pub use lists::Lists;
pub use number_parameters::{group_by, page_size};
pub use queries::{items_query, ledgers_query, logs_query, volumes_query};
