//! A reader of JSON texts: RFC 8259 over UTF-8, whole numbers of 128 bits, no repeated member,
//! at most 64 lists and objects open at once.
#![tactic(auto)]

mod blanks;
mod copy;
mod index;
mod json;
mod number;
mod object;
mod open;
mod reader;
mod state;
mod step;
mod text;
mod text_step;
mod word;

pub use json::{Json, JsonFault, JsonList, Member, MemberList};
pub use reader::read;
pub use std::alloc::AllocError as NoMemory;
