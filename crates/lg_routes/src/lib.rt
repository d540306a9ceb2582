//! Requests in: the target taken apart, its route, and the call that a method, a target, a key and a body ask for.
#![tactic(auto)]

mod body;
mod bytes;
mod calls;
mod kinds;
mod lists;
mod matching;
mod names;
mod numbers;
mod parameter_values;
mod parameter_words;
mod parameters;
mod reads;
mod refusals;
mod segments;
mod table;
mod writes;

pub use body::{BodyKind, RequestBody, value_of_body};
pub use bytes::same_bytes;
pub use calls::call_of_request;
pub use kinds::body_kind;
pub use lg_base::NoMemory;
pub use lists::ListReader;
pub use numbers::read_number;
pub use parameter_values::{moment, refuse_order, truth};
pub use parameter_words::expand;
pub use parameters::{Parameter, first_value, read_parameters};
pub use refusals::bad_parameter;
