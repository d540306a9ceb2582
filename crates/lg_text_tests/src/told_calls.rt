//! Calls in texts.

use lg_base::{ByteFeed, Feed};
use lg_containers::{Duplicate, Key};
use lg_request_tests::{body_text, canonical_text, text_of};
use lg_types::{Call, Element, ElementWrite, Elements, Expand, Read, Refusal, Write};
use lg_views::{Content, Reply};
use std::alloc::Global;
use std::test::Fail;

/// What a body of a refusal begins with where something can't be read; its message follows.
const INVALID: &str = r#"{"errorCode":"VALIDATION","errorMessage":""#;

/// The message of such a body, which ends with it.
fn message_of(body: &str) -> Option<&str> {
    let (front, rest) = body.split_once(INVALID)?;
    let (message, end) = rest.rsplit_once(r#""}"#)?;
    if front.is_empty() && end.is_empty() {
        Some(message)
    } else {
        None
    }
}

/// The body of a refusal; where something can't be read, `invalid` and the message of the body.
fn told_body(alloc: Global, body: &str) -> Result<String, Fail> {
    match message_of(body) {
        Some(message) => Ok(["invalid ", message].concat(alloc)?),
        None => Ok([body, ""].concat(alloc)?),
    }
}

fn told_refusal(alloc: Global, refusal: &Refusal) -> Result<String, Fail> {
    let reply = Reply {
        hit: false,
        content: Content::Refused(refusal.copy(alloc)?),
    };
    let body = body_text(alloc, &reply);
    drop(reply);
    told_body(alloc, body?.as_str())
}

fn told_key(alloc: Global, key: &Option<Key>) -> Result<String, Fail> {
    match key {
        Some(key) => text_of(alloc, key.bytes()),
        None => text_of(alloc, b"no key"),
    }
}

fn told_write(
    alloc: Global,
    ledger: &[u8],
    key: &Option<Key>,
    write: &Write,
) -> Result<String, Fail> {
    let ledger = text_of(alloc, ledger)?;
    let key = told_key(alloc, key)?;
    let write = canonical_text(alloc, write)?;
    Ok(format!(in alloc; "{ledger}, {key}: {write}")?)
}

fn told_element(alloc: Global, element: &Element) -> Result<String, Fail> {
    match &element.write {
        ElementWrite::Good(write) => told_write(alloc, b"element", &element.key, write),
        ElementWrite::Bad(refusal) => told_refusal(alloc, refusal),
    }
}

/// The elements, each behind a blank.
fn told_elements(alloc: Global, elements: &Elements) -> Result<String, Fail> {
    let mut feed = ByteFeed::new(alloc);
    for element in elements.as_slice() {
        feed.piece(b" ")?;
        feed.piece(told_element(alloc, element)?.as_bytes())?;
    }
    text_of(alloc, feed.bytes())
}

fn told_list(
    alloc: Global,
    elements: &Elements,
    atomic: bool,
    go_on: bool,
) -> Result<String, Fail> {
    let elements = told_elements(alloc, elements)?;
    Ok(format!(in alloc; "atomic {atomic}, goes on {go_on}:{elements}")?)
}

fn told_expand(alloc: Global, expand: Expand, pit: Option<i64>) -> Result<String, Fail> {
    let dated = pit.is_some();
    Ok(format!(in alloc;
        "volumes {}, effective {}, dated {dated}",
        expand.volumes, expand.effective
    )?)
}

fn told_read(alloc: Global, read: &Read) -> Result<String, Fail> {
    match read {
        Read::Ledger => text_of(alloc, b"the ledger"),
        Read::Account { pit, expand, .. } => told_expand(alloc, *expand, *pit),
        Read::Transaction { pit, expand, .. } => told_expand(alloc, *expand, *pit),
        Read::Stats => text_of(alloc, b"statistics"),
        Read::Export => text_of(alloc, b"all entries"),
        _ => text_of(alloc, b"a list"),
    }
}

/// A call in short.
pub fn told_call(alloc: Global, call: &Call) -> Result<String, Fail> {
    match call {
        Call::Unreadable(refusal) => told_refusal(alloc, refusal),
        Call::MakeLedger { bucket, .. } => text_of(alloc, bucket.bytes()),
        Call::Write { ledger, key, write } => told_write(alloc, ledger.bytes(), key, write),
        Call::Bulk {
            elements,
            atomic,
            go_on,
            ..
        } => told_list(alloc, elements, *atomic, *go_on),
        Call::Import { .. } => text_of(alloc, b"import"),
        Call::Ledgers { .. } => text_of(alloc, b"ledgers"),
        Call::Read { read, .. } => told_read(alloc, read),
    }
}
