//! Requests in texts.

use lg_json::read;
use lg_pages::Lists;
use lg_routes::{RequestBody, call_of_request};
use lg_types::Call;
use std::alloc::Global;
use std::test::Fail;

/// Midnight of 2024-01-01, in microseconds since 1970-01-01T00:00:00Z.
const NEW_YEAR: i64 = 1_704_067_200_000_000;

/// The microseconds of a day.
const DAY: i64 = 86_400_000_000;

/// Midnight of a day of January 2024, in microseconds since 1970-01-01T00:00:00Z.
pub fn midnight(day: u8) -> i64 {
    NEW_YEAR + (i64::from(day) - 1) * DAY
}

/// A request at midnight of a day of January 2024. An empty key or body stands for none.
#[derive(Clone, Copy)]
pub struct Request<'a> {
    pub day: u8,
    pub method: &'a str,
    pub target: &'a str,
    pub key: &'a str,
    pub body: &'a str,
}

fn body_of(alloc: Global, text: &str) -> RequestBody {
    if text.is_empty() {
        return RequestBody::None;
    }
    match read(alloc, text.as_bytes()) {
        Ok(value) => RequestBody::Value(value),
        Err(fault) => RequestBody::Faulty(fault),
    }
}

fn key_of(text: &str) -> Option<&[u8]> {
    if text.is_empty() {
        None
    } else {
        Some(text.as_bytes())
    }
}

/// The call of a request.
pub fn call_of(alloc: Global, request: &Request<'_>) -> Result<Call, Fail> {
    Ok(call_of_request::<Lists>(
        alloc,
        request.method.as_bytes(),
        request.target.as_bytes(),
        key_of(request.key),
        body_of(alloc, request.body),
    )?)
}
