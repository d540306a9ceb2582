//! What rows of bytes are read to as JSON.

use lg_json::{Json, JsonFault, read};
use std::alloc::Global;
use std::process::Abort;

/// The fault that the bytes are read to, or `NoMemory` for a value.
pub fn fault_of(alloc: Global, bytes: &[u8]) -> JsonFault {
    match read(alloc, bytes) {
        Ok(_) => JsonFault::NoMemory,
        Err(fault) => fault,
    }
}

pub fn syntax(place: usize) -> JsonFault {
    JsonFault::Syntax { place }
}

pub fn not_whole(place: usize) -> JsonFault {
    JsonFault::NotWhole { place }
}

pub fn too_wide(place: usize) -> JsonFault {
    JsonFault::TooWide { place }
}

pub fn too_deep(place: usize) -> JsonFault {
    JsonFault::TooDeep { place }
}

pub fn repeated(place: usize) -> JsonFault {
    JsonFault::Repeated { place }
}

/// Asserts that the bytes of each row are read to its fault.
pub fn check_faults(rt: &impl Abort, alloc: Global, rows: &[(&[u8], JsonFault)]) {
    for (bytes, fault) in rows {
        let found = fault_of(alloc, bytes);
        assert!(rt; found == *fault, "{found:?} for {fault:?}");
    }
}

/// Whether the bytes are read to the text.
fn is_text(alloc: Global, bytes: &[u8], text: &[u8]) -> bool {
    match read(alloc, bytes) {
        Ok(Json::Text(found)) => found.bytes() == text,
        _ => false,
    }
}

/// Asserts that the bytes of each row are read to its text.
pub fn check_texts(rt: &impl Abort, alloc: Global, rows: &[(&[u8], &[u8])]) {
    for (bytes, text) in rows {
        let right = is_text(alloc, bytes, text);
        assert!(rt; right, "{text:?}");
    }
}
