//! What a JSON value asks for or tells: the bodies of requests, and the entries of a log.
#![tactic(auto)]

mod elements;
mod entry_bodies;
mod entry_lines;
mod kind;
mod metadata;
mod path_parts;
mod paths;
mod stop;
mod targets;
mod transactions;
mod values;
mod writes;

pub use elements::elements_of_json;
pub use entry_lines::entry_of_json;
pub use kind::WriteKind;
pub use lg_base::NoMemory;
pub use stop::CodecStop;
pub use writes::{ledger_of_json, write_of_json};
