//! Bodies of requests with a fault at each member, and bodies that are good.

use crate::stops::{told_refusal, told_stop};
use crate::tables::{Reader, check};
use lg_codec::{CodecStop, WriteKind, elements_of_json, ledger_of_json, write_of_json};
use lg_json::{Json, read};
use lg_request_tests::text_of;
use lg_types::{ElementWrite, Elements, Target, Write};
use std::alloc::Global;
use std::test::Fail;

fn told<T: Drop>(alloc: Global, answer: Result<T, CodecStop>) -> Result<String, Fail> {
    match answer {
        Ok(_) => text_of(alloc, b"good"),
        Err(stop) => told_stop(alloc, &stop),
    }
}

/// The refusal of the first element.
fn told_first(alloc: Global, elements: &Elements) -> Result<String, Fail> {
    match elements.get(0) {
        Some(element) => match &element.write {
            ElementWrite::Bad(refusal) => told_refusal(alloc, refusal),
            ElementWrite::Good(_) => text_of(alloc, b"good"),
        },
        None => text_of(alloc, b"no element"),
    }
}

fn told_elements(alloc: Global, body: &Json) -> Result<String, Fail> {
    match elements_of_json(alloc, body) {
        Ok(elements) => told_first(alloc, &elements),
        Err(stop) => told_stop(alloc, &stop),
    }
}

fn told_write(alloc: Global, kind: WriteKind, body: &Json) -> Result<String, Fail> {
    told(alloc, write_of_json(alloc, kind, body))
}

/// A revert of the transaction 1.
fn revert() -> WriteKind {
    WriteKind::Revert {
        id: 1,
        force: false,
        at_effective_date: false,
    }
}

/// Metadata of the transaction 1.
fn metadata() -> WriteKind {
    WriteKind::SetMeta {
        target: Target::Transaction(1),
    }
}

/// Reads bodies: as their refusal.
enum Bodies {
    Creation,
    Revert,
    Metadata,
    Ledger,
    Elements,
}

impl Reader for Bodies {
    fn told(&self, alloc: Global, text: &str) -> Result<String, Fail> {
        let body = read(alloc, text.as_bytes())?;
        match self {
            Bodies::Creation => told_write(alloc, WriteKind::Create, &body),
            Bodies::Revert => told_write(alloc, revert(), &body),
            Bodies::Metadata => told_write(alloc, metadata(), &body),
            Bodies::Ledger => told(alloc, ledger_of_json(alloc, &body)),
            Bodies::Elements => told_elements(alloc, &body),
        }
    }
}

/// Bodies of creations, and their refusals.
const CREATIONS: &str = r#"
null => body: missing
[] => body: type
{"postings":{}} => postings: type
{"postings":[null]} => postings[0]: type
{"postings":[{}]} => postings[0].source: missing
{"postings":[{"source":1}]} => postings[0].source: type
{"postings":[{"source":"a::b"}]} => postings[0].source: form
{"postings":[{"source":"a"}]} => postings[0].destination: missing
{"postings":[{"source":"a","destination":7}]} => postings[0].destination: type
{"postings":[{"source":"a","destination":[]}]} => postings[0].destination: type
{"postings":[{"source":"a","destination":"b:"}]} => postings[0].destination: form
{"postings":[{"source":"a","destination":"b"}]} => postings[0].amount: missing
{"postings":[{"source":"a","destination":"b","amount":"1"}]} => postings[0].amount: type
{"postings":[{"source":"a","destination":"b","amount":-1}]} => postings[0].amount: form
{"postings":[{"source":"a","destination":"b","amount":1,"asset":null}]} => postings[0].asset: missing
{"postings":[{"source":"a","destination":"b","amount":1}]} => postings[0].asset: missing
{"postings":[{"source":"a","destination":"b","amount":1,"asset":1}]} => postings[0].asset: type
{"postings":[{"source":"a","destination":"b","amount":1,"asset":"usd"}]} => postings[0].asset: form
{"postings":[{"source":"a","destination":"b","amount":1,"asset":"USD"},{"source":"a::b"}]} => postings[1].source: form
{"script":{"plain":"x"}} => script
{"script":[],"postings":7} => script
{"script":{"plain":""}} => no postings
{"script":null,"postings":[]} => no postings
"#;

#[test]
fn bad_creations(rt: HostRuntime) -> Result<(), Fail> {
    check(&rt, rt.alloc(), &Bodies::Creation, CREATIONS)
}

/// Reads the members of a creation beside one posting.
struct Beside;

impl Reader for Beside {
    fn told(&self, alloc: Global, text: &str) -> Result<String, Fail> {
        let front = r#"{"postings":[{"source":"a","destination":"b","amount":1,"asset":"USD"}],"#;
        let body = [front, text, "}"].concat(alloc)?;
        Bodies::Creation.told(alloc, body.as_str())
    }
}

/// Members of creations, and their refusals.
const MEMBERS: &str = r#"
"timestamp":1 => timestamp: type
"timestamp":"2023-02-29T00:00:00Z" => timestamp: form
"reference":[] => reference: type
"metadata":[] => metadata: type
"metadata":{"k":1} => metadata.k: type
"metadata":{"k":null} => metadata.k: type
"accountMetadata":1 => accountMetadata: type
"accountMetadata":{"a":null} => accountMetadata.a: type
"accountMetadata":{"a":{"k":[]}} => accountMetadata.a.k: type
"accountMetadata":{"a":{"k":1}} => accountMetadata.a.k: type
"accountMetadata":{"a:":{}} => accountMetadata.a:: form
"force":1 => force: type
"force":"true" => force: type
"#;

#[test]
fn bad_members_beside_the_postings(rt: HostRuntime) -> Result<(), Fail> {
    check(&rt, rt.alloc(), &Beside, MEMBERS)
}

/// Bodies of reverts, and their refusals.
const REVERTS: &str = r#"
[] => body: type
{"metadata":1} => metadata: type
{"metadata":{"k":"v"}} => metadata: form
"#;

#[test]
fn bad_reverts(rt: HostRuntime) -> Result<(), Fail> {
    check(&rt, rt.alloc(), &Bodies::Revert, REVERTS)
}

/// Metadata, and their refusals.
const METADATA: &str = r#"
null => body: missing
[] => body: type
{"k":null} => k: type
"#;

#[test]
fn bad_metadata(rt: HostRuntime) -> Result<(), Fail> {
    check(&rt, rt.alloc(), &Bodies::Metadata, METADATA)
}

/// Bodies of ledgers, and their refusals.
const LEDGERS: &str = r#"
[] => body: type
{"bucket":""} => bucket: form
{"features":{"f":null}} => features: form
{"features":1} => features: type
"#;

#[test]
fn bad_ledgers(rt: HostRuntime) -> Result<(), Fail> {
    check(&rt, rt.alloc(), &Bodies::Ledger, LEDGERS)
}

/// Lists of one element, and its refusal.
const ELEMENTS: &str = r#"
[null] => body: type
[{"action":"X"}] => action: form
[{"action":"ADD_METADATA","ik":" "}] => ik: form
[{"action":"CREATE_TRANSACTION"}] => data: missing
[{"action":"CREATE_TRANSACTION","data":{"postings":[{}]}}] => data.postings[0].source: missing
[{"action":"ADD_METADATA","data":{"targetType":"TRANSACTION","targetId":-1}}] => data.targetId: form
[{"action":"REVERT_TRANSACTION","data":{"id":1,"atEffectiveDate":0}}] => data.atEffectiveDate: type
[{"action":"DELETE_METADATA","data":{"targetType":"ACCOUNT","targetId":"a"}}] => data.key: missing
"#;

#[test]
fn bad_elements(rt: HostRuntime) -> Result<(), Fail> {
    check(&rt, rt.alloc(), &Bodies::Elements, ELEMENTS)
}

/// Whether the write is the creation of one posting with a timestamp, one name of metadata and `force`.
fn is_creation(write: &Write) -> bool {
    match write {
        Write::Create {
            postings,
            reference,
            timestamp,
            metadata,
            accounts,
            force,
        } => *force
            && postings.len() == 1
            && reference.is_none()
            && *timestamp == Some(1704067200000000)
            && metadata.len() == 1
            && accounts.len() == 0,
        _ => false,
    }
}

const CREATION: &str =
    r#"{"reference":"","other":1,"timestamp":"2024-01-01T00:00:00Z","force":true,"metadata":{"k":"v"},"postings":[{"source":"world","destination":"users:1","amount":100,"asset":"USD/2"}]}"#;

fn creates(alloc: Global, body: &str) -> Result<bool, Fail> {
    let body = read(alloc, body.as_bytes())?;
    match write_of_json(alloc, WriteKind::Create, &body) {
        Ok(write) => Ok(is_creation(&write)),
        Err(_) => Ok(false),
    }
}

#[test]
fn a_creation_is_read(rt: HostRuntime) -> Result<(), Fail> {
    assert!(rt; creates(rt.alloc(), CREATION)?);
    Ok(())
}

/// Whether no body makes a ledger in the bucket `_default` without metadata.
fn is_default_ledger(alloc: Global) -> bool {
    match ledger_of_json(alloc, &Json::Null) {
        Ok(ledger) => ledger.0.bytes() == b"_default".as_slice() && ledger.1.len() == 0,
        Err(_) => false,
    }
}

#[test]
fn a_ledger_without_a_body(rt: HostRuntime) {
    assert!(rt; is_default_ledger(rt.alloc()));
}
