//! The tokens of pages: written, and the query that a token of a page of a list stands for read back.
#![tactic(auto)]

mod asked;
mod comparisons;
mod cutting;
mod decoding;
mod filters;
mod front;
pub mod laws;
mod members;
mod options;
mod places;
mod queries;
mod text_parts;
mod tokens;
mod words;
mod written_filters;
mod written_queries;
mod written_tokens;

pub use lg_base::NoMemory;
pub use lg_codec::CodecStop;
pub use tokens::read_token;
pub use written_tokens::token_of;
