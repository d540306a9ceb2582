//! Requests with a fault in their body.

use crate::requests::{Requests, told_request};
use crate::tables::check;
use lg_request_tests::Request;
use std::alloc::Global;
use std::test::Fail;

/// Creations with a bad posting.
const POSTINGS: &str = r#"
POST /v2/default/transactions {"postings":[7]} => invalid postings[0]: type
POST /v2/default/transactions {"postings":[null]} => invalid postings[0]: type
POST /v2/default/transactions {"postings":[{}]} => invalid postings[0].source: missing
POST /v2/default/transactions {"postings":[{"source":7}]} => invalid postings[0].source: type
POST /v2/default/transactions {"postings":[{"source":null}]} => invalid postings[0].source: missing
POST /v2/default/transactions {"postings":[{"source":"a::b"}]} => invalid postings[0].source: form
POST /v2/default/transactions {"postings":[{"source":"a"}]} => invalid postings[0].destination: missing
POST /v2/default/transactions {"postings":[{"source":"a","destination":[]}]} => invalid postings[0].destination: type
POST /v2/default/transactions {"postings":[{"source":"a","destination":"a:"}]} => invalid postings[0].destination: form
POST /v2/default/transactions {"postings":[{"source":"a","destination":"b"}]} => invalid postings[0].amount: missing
POST /v2/default/transactions {"postings":[{"source":"a","destination":"b","amount":"1"}]} => invalid postings[0].amount: type
POST /v2/default/transactions {"postings":[{"source":"a","destination":"b","amount":-1}]} => invalid postings[0].amount: form
POST /v2/default/transactions {"postings":[{"source":"a","destination":"b","amount":1}]} => invalid postings[0].asset: missing
POST /v2/default/transactions {"postings":[{"source":"a","destination":"b","amount":1,"asset":7}]} => invalid postings[0].asset: type
POST /v2/default/transactions {"postings":[{"source":"a","destination":"b","amount":1,"asset":"usd"}]} => invalid postings[0].asset: form
POST /v2/default/transactions {"postings":[{"source":"a","destination":"b","amount":1,"asset":"USD/"}]} => invalid postings[0].asset: form
POST /v2/default/transactions {"postings":[{"asset":7,"source":"a","amount":-1}]} => invalid postings[0].destination: missing
POST /v2/default/transactions {"postings":[{"source":"a","destination":"b","amount":1,"asset":"EUR"},[]]} => invalid postings[1]: type
POST /v2/default/transactions {"postings":[{"source":"a","destination":"b","amount":1,"asset":"EUR"},{"source":"a::b"}]} => invalid postings[1].source: form
POST /v2/default/transactions {"postings":[{"source":"a","destination":"b","amount":1,"asset":"EUR"},{"source":"a","destination":"b","amount":1,"asset":"EUR"},{"source":"a","destination":"b"}]} => invalid postings[2].amount: missing
"#;

#[test]
fn faults_of_a_posting(rt: HostRuntime) -> Result<(), Fail> {
    check(&rt, rt.alloc(), &Requests, POSTINGS)
}

/// Creations with a bad member beside their postings.
const MEMBERS: &str = r#"
POST /v2/default/transactions {"postings":[{"source":"a","destination":"b","amount":1,"asset":"EUR"}],"timestamp":1} => invalid timestamp: type
POST /v2/default/transactions {"postings":[{"source":"a","destination":"b","amount":1,"asset":"EUR"}],"timestamp":"2023-02-29T00:00:00Z"} => invalid timestamp: form
POST /v2/default/transactions {"postings":[{"source":"a","destination":"b","amount":1,"asset":"EUR"}],"reference":[]} => invalid reference: type
POST /v2/default/transactions {"postings":[{"source":"a","destination":"b","amount":1,"asset":"EUR"}],"reference":"rrrrrrrrrrrrrrrrrrrrrrrrrrrrrrrrrrrrrrrrrrrrrrrrrrrrrrrrrrrrrrrrrrrrrrrrrrrrrrrrrrrrrrrrrrrrrrrrrrrrrrrrrrrrrrrrrrrrrrrrrrrrrrrrrrrrrrrrrrrrrrrrrrrrrrrrrrrrrrrrrrrrrrrrrrrrrrrrrrrrrrrrrrrrrrrrrrrrrrrrrrrrrrrrrrrrrrrrrrrrrrrrrrrrrrrrrrrrrrrrrrrrrrrrrrrrrrrr"} => invalid reference: form
POST /v2/default/transactions {"postings":[{"source":"a","destination":"b","amount":1,"asset":"EUR"}],"metadata":[]} => invalid metadata: type
POST /v2/default/transactions {"postings":[{"source":"a","destination":"b","amount":1,"asset":"EUR"}],"metadata":{"k":1}} => invalid metadata.k: type
POST /v2/default/transactions {"postings":[{"source":"a","destination":"b","amount":1,"asset":"EUR"}],"metadata":{"k":null}} => invalid metadata.k: type
POST /v2/default/transactions {"postings":[{"source":"a","destination":"b","amount":1,"asset":"EUR"}],"accountMetadata":[]} => invalid accountMetadata: type
POST /v2/default/transactions {"postings":[{"source":"a","destination":"b","amount":1,"asset":"EUR"}],"accountMetadata":{"a:":{}}} => invalid accountMetadata.a:: form
POST /v2/default/transactions {"postings":[{"source":"a","destination":"b","amount":1,"asset":"EUR"}],"accountMetadata":{"a":null}} => invalid accountMetadata.a: type
POST /v2/default/transactions {"postings":[{"source":"a","destination":"b","amount":1,"asset":"EUR"}],"accountMetadata":{"a":[]}} => invalid accountMetadata.a: type
POST /v2/default/transactions {"postings":[{"source":"a","destination":"b","amount":1,"asset":"EUR"}],"accountMetadata":{"a":{"k":[]}}} => invalid accountMetadata.a.k: type
POST /v2/default/transactions {"postings":[{"source":"a","destination":"b","amount":1,"asset":"EUR"}],"force":1} => invalid force: type
POST /v2/default/transactions {"postings":[{"source":"a","destination":"b","amount":1,"asset":"EUR"}],"force":"true"} => invalid force: type
POST /v2/default/transactions {"postings":[{"source":"a","destination":"b","amount":1,"asset":"EUR"}],"force":1,"accountMetadata":1,"metadata":1,"reference":1,"timestamp":1} => invalid timestamp: type
POST /v2/default/transactions {"postings":[{"source":"a","destination":"b","amount":1,"asset":"EUR"}],"force":1,"accountMetadata":1,"metadata":1,"reference":1} => invalid reference: type
POST /v2/default/transactions {"postings":[{"source":"a","destination":"b","amount":1,"asset":"EUR"}],"force":1,"accountMetadata":1,"metadata":1} => invalid metadata: type
POST /v2/default/transactions {"postings":[{"source":"a","destination":"b","amount":1,"asset":"EUR"}],"force":1,"accountMetadata":1} => invalid accountMetadata: type
"#;

#[test]
fn faults_beside_the_postings(rt: HostRuntime) -> Result<(), Fail> {
    check(&rt, rt.alloc(), &Requests, MEMBERS)
}

/// Bodies that are bad as a whole, metadata, ledgers, reverts and lists.
const BODIES: &str = r#"
POST /v2/default/transactions null => invalid body: missing
POST /v2/default/transactions [] => invalid body: type
POST /v2/default/transactions {"postings":{}} => invalid postings: type
POST /v2/default/transactions { => invalid body: syntax at byte 1
POST /v2/default/transactions [1.0] => invalid body: not whole at byte 1
POST /v2/default/transactions {"a":1,"a":2} => invalid body: repeated at byte 7
POST /v2/default/transactions [170141183460469231731687303715884105728] => invalid body: too wide at byte 1
POST /v2/default/accounts/a/metadata null => invalid body: missing
POST /v2/default/accounts/a/metadata [] => invalid body: type
POST /v2/default/accounts/a/metadata {"k":1} => invalid k: type
POST /v2/default/accounts/a/metadata {"k":null} => invalid k: type
POST /v2/default/accounts/a/metadata {"a":"b","k":{}} => invalid k: type
POST /v2/other [] => invalid body: type
POST /v2/other {"bucket":7} => invalid bucket: type
POST /v2/other {"bucket":""} => invalid bucket: form
POST /v2/other {"metadata":[]} => invalid metadata: type
POST /v2/other {"metadata":{"k":1}} => invalid metadata.k: type
POST /v2/other {"features":1} => invalid features: type
POST /v2/other {"features":{"f":null}} => invalid features: form
POST /v2/other {"features":1,"metadata":1} => invalid metadata: type
POST /v2/other {"features":1,"metadata":1,"bucket":1} => invalid bucket: type
POST /v2/default/transactions/7/revert [] => invalid body: type
POST /v2/default/transactions/7/revert 7 => invalid body: type
POST /v2/default/transactions/7/revert {"metadata":[]} => invalid metadata: type
POST /v2/default/transactions/7/revert {"metadata":{"k":"v"}} => invalid metadata: form
POST /v2/default/_bulk {} => invalid body: type
POST /v2/default/_bulk null => invalid body: type
POST /v2/default/_bulk 7 => invalid body: type
POST /v2/default/_bulk [ => invalid body: syntax at byte 1
"#;

#[test]
fn faults_of_bodies(rt: HostRuntime) -> Result<(), Fail> {
    check(&rt, rt.alloc(), &Requests, BODIES)
}

/// Lists of one element that is bad.
const ELEMENTS: &str = r#"
POST /v2/default/_bulk [null] => atomic false, goes on false: invalid body: type
POST /v2/default/_bulk [{}] => atomic false, goes on false: invalid action: missing
POST /v2/default/_bulk [{"action":7}] => atomic false, goes on false: invalid action: type
POST /v2/default/_bulk [{"action":"X"}] => atomic false, goes on false: invalid action: form
POST /v2/default/_bulk [{"action":"ADD_METADATA","ik":7}] => atomic false, goes on false: invalid ik: type
POST /v2/default/_bulk [{"action":"ADD_METADATA","ik":" "}] => atomic false, goes on false: invalid ik: form
POST /v2/default/_bulk [{"ik":" ","action":"X"}] => atomic false, goes on false: invalid action: form
POST /v2/default/_bulk [{"action":"CREATE_TRANSACTION"}] => atomic false, goes on false: invalid data: missing
POST /v2/default/_bulk [{"action":"CREATE_TRANSACTION","data":[]}] => atomic false, goes on false: invalid data: type
POST /v2/default/_bulk [{"action":"CREATE_TRANSACTION","data":{"postings":[{}]}}] => atomic false, goes on false: invalid data.postings[0].source: missing
POST /v2/default/_bulk [{"action":"CREATE_TRANSACTION","data":{"postings":[{"source":"a","destination":"b","amount":1,"asset":"EUR"}],"force":1}}] => atomic false, goes on false: invalid data.force: type
POST /v2/default/_bulk [{"action":"ADD_METADATA"}] => atomic false, goes on false: invalid data: missing
POST /v2/default/_bulk [{"action":"ADD_METADATA","data":[]}] => atomic false, goes on false: invalid data: type
POST /v2/default/_bulk [{"action":"ADD_METADATA","data":{}}] => atomic false, goes on false: invalid data.targetType: missing
POST /v2/default/_bulk [{"action":"ADD_METADATA","data":{"targetType":7}}] => atomic false, goes on false: invalid data.targetType: type
POST /v2/default/_bulk [{"action":"ADD_METADATA","data":{"targetType":"X"}}] => atomic false, goes on false: invalid data.targetType: form
POST /v2/default/_bulk [{"action":"ADD_METADATA","data":{"targetType":"ACCOUNT"}}] => atomic false, goes on false: invalid data.targetId: missing
POST /v2/default/_bulk [{"action":"ADD_METADATA","data":{"targetType":"ACCOUNT","targetId":7}}] => atomic false, goes on false: invalid data.targetId: type
POST /v2/default/_bulk [{"action":"ADD_METADATA","data":{"targetType":"ACCOUNT","targetId":"a:"}}] => atomic false, goes on false: invalid data.targetId: form
POST /v2/default/_bulk [{"action":"ADD_METADATA","data":{"targetType":"TRANSACTION"}}] => atomic false, goes on false: invalid data.targetId: missing
POST /v2/default/_bulk [{"action":"ADD_METADATA","data":{"targetType":"TRANSACTION","targetId":"1"}}] => atomic false, goes on false: invalid data.targetId: type
POST /v2/default/_bulk [{"action":"ADD_METADATA","data":{"targetType":"TRANSACTION","targetId":-1}}] => atomic false, goes on false: invalid data.targetId: form
POST /v2/default/_bulk [{"action":"ADD_METADATA","data":{"targetType":"ACCOUNT","targetId":"a"}}] => atomic false, goes on false: invalid data.metadata: missing
POST /v2/default/_bulk [{"action":"ADD_METADATA","data":{"targetType":"ACCOUNT","targetId":"a","metadata":[]}}] => atomic false, goes on false: invalid data.metadata: type
POST /v2/default/_bulk [{"action":"ADD_METADATA","data":{"targetType":"ACCOUNT","targetId":"a","metadata":{"k":1}}}] => atomic false, goes on false: invalid data.metadata.k: type
POST /v2/default/_bulk [{"action":"REVERT_TRANSACTION","data":{}}] => atomic false, goes on false: invalid data.id: missing
POST /v2/default/_bulk [{"action":"REVERT_TRANSACTION","data":{"id":"1"}}] => atomic false, goes on false: invalid data.id: type
POST /v2/default/_bulk [{"action":"REVERT_TRANSACTION","data":{"id":18446744073709551616}}] => atomic false, goes on false: invalid data.id: form
POST /v2/default/_bulk [{"action":"REVERT_TRANSACTION","data":{"id":1,"force":1}}] => atomic false, goes on false: invalid data.force: type
POST /v2/default/_bulk [{"action":"REVERT_TRANSACTION","data":{"id":1,"atEffectiveDate":0}}] => atomic false, goes on false: invalid data.atEffectiveDate: type
POST /v2/default/_bulk [{"action":"DELETE_METADATA","data":{}}] => atomic false, goes on false: invalid data.targetType: missing
POST /v2/default/_bulk [{"action":"DELETE_METADATA","data":{"targetType":"TRANSACTION","targetId":true}}] => atomic false, goes on false: invalid data.targetId: type
POST /v2/default/_bulk [{"action":"DELETE_METADATA","data":{"targetType":"ACCOUNT","targetId":"a"}}] => atomic false, goes on false: invalid data.key: missing
POST /v2/default/_bulk [{"action":"DELETE_METADATA","data":{"targetType":"ACCOUNT","targetId":"a","key":1}}] => atomic false, goes on false: invalid data.key: type
"#;

#[test]
fn faults_of_elements(rt: HostRuntime) -> Result<(), Fail> {
    check(&rt, rt.alloc(), &Requests, ELEMENTS)
}

/// A list of as many empty objects.
fn objects(alloc: Global, count: usize) -> Result<String, Fail> {
    let mut list = String::new(alloc);
    list.push_str("[{}")?;
    for _ in 1..count {
        list.push_str(",{}")?;
    }
    list.push_str("]")?;
    Ok(list)
}

/// What is asked for by a list of as many empty objects.
fn told_objects(alloc: Global, count: usize) -> Result<String, Fail> {
    let list = objects(alloc, count)?;
    let request = Request {
        day: 1,
        method: "POST",
        target: "/v2/default/_bulk",
        key: "",
        body: list.as_str(),
    };
    told_request(alloc, &request)
}

const TOO_MANY: &str = r#"{"errorCode":"BULK_SIZE_EXCEEDED","errorMessage":"1001 elements"}"#;

#[test]
fn lists_have_at_most_a_thousand_elements(rt: HostRuntime) -> Result<(), Fail> {
    let call = told_objects(rt.alloc(), 1001)?;
    assert!(rt; call.as_str() == TOO_MANY);
    Ok(())
}
