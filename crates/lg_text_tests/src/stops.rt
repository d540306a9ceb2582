//! Refusals in short.

use lg_codec::CodecStop;
use lg_request_tests::text_of;
use lg_types::{Reason, Refusal};
use std::alloc::Global;
use std::test::Fail;

/// Three texts, one after the other.
pub fn joined(alloc: Global, first: &[u8], second: &[u8], third: &[u8]) -> Result<String, Fail> {
    let mut text = Vec::new(alloc);
    text.extend_from_slice(first)?;
    text.extend_from_slice(second)?;
    text.extend_from_slice(third)?;
    text_of(alloc, text.as_slice())
}

fn reason_word(reason: Reason) -> &'static [u8] {
    match reason {
        Reason::Missing => b"missing",
        Reason::Kind => b"type",
        Reason::Form => b"form",
    }
}

/// A refusal of what is read of a text, in short.
pub fn told_refusal(alloc: Global, refusal: &Refusal) -> Result<String, Fail> {
    match refusal {
        Refusal::Member { path, reason } => joined(
            alloc,
            path.bytes(),
            b": ",
            reason_word(*reason),
        ),
        Refusal::Parameter { name } => joined(alloc, b"query", b" ", name.bytes()),
        Refusal::BadFilter { path } => joined(alloc, b"filter", b" ", path.bytes()),
        Refusal::BodyJson { place, .. } => Ok(format!(in alloc; "body at byte {place}")?),
        Refusal::Token => text_of(alloc, b"cursor"),
        Refusal::Script => text_of(alloc, b"script"),
        Refusal::NoPostings => text_of(alloc, b"no postings"),
        _ => text_of(alloc, b"another refusal"),
    }
}

/// Why a text isn't read, in short.
pub fn told_stop(alloc: Global, stop: &CodecStop) -> Result<String, Fail> {
    match stop {
        CodecStop::Refused(refusal) => told_refusal(alloc, refusal),
        CodecStop::NoMemory => text_of(alloc, b"memory is wanting"),
    }
}
