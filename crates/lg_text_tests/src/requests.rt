//! What requests ask for: routes, names, parameters and keys.

use crate::tables::{Reader, check};
use crate::told_calls::told_call;
use lg_request_tests::{Request, call_of};
use std::alloc::Global;
use std::test::Fail;

/// What a request asks for, in short.
pub fn told_request(alloc: Global, request: &Request<'_>) -> Result<String, Fail> {
    let call = call_of(alloc, request)?;
    let told = told_call(alloc, &call);
    drop(call);
    told
}

/// The two sides of a mark; the second is empty where there is none.
fn cut(text: &str, mark: char) -> (&str, &str) {
    match text.split_once(mark) {
        Some(sides) => sides,
        None => (text, ""),
    }
}

/// A request in a line: its method, a key behind a colon, its target and its body.
fn request_of(line: &str) -> Request<'_> {
    let (head, rest) = cut(line, ' ');
    let (method, key) = cut(head, ':');
    let (target, body) = cut(rest, ' ');
    Request {
        day: 1,
        method,
        target,
        key,
        body,
    }
}

/// Reads requests in a line.
pub struct Requests;

impl Reader for Requests {
    fn told(&self, alloc: Global, text: &str) -> Result<String, Fail> {
        told_request(alloc, &request_of(text))
    }
}

/// Paths and methods, and names in the order of the path.
const PATHS: &str = r#"
GET /v3 => {"errorCode":"NO_ROUTE","errorMessage":"no route"}
GET / => {"errorCode":"NO_ROUTE","errorMessage":"no route"}
GET v2/default => {"errorCode":"NO_ROUTE","errorMessage":"no route"}
GET /v2/default/accounts/ => {"errorCode":"NO_ROUTE","errorMessage":"no route"}
GET /v2//stats => {"errorCode":"NO_ROUTE","errorMessage":"no route"}
GET /v2/default/accounts/a/metadata/k/l => {"errorCode":"NO_ROUTE","errorMessage":"no route"}
PUT /v2/default => {"errorCode":"METHOD_NOT_ALLOWED","errorMessage":"method"}
get /v2/default => {"errorCode":"METHOD_NOT_ALLOWED","errorMessage":"method"}
DELETE /v2/default/transactions/1 => {"errorCode":"METHOD_NOT_ALLOWED","errorMessage":"method"}
GET /v2/default/_bulk => {"errorCode":"METHOD_NOT_ALLOWED","errorMessage":"method"}
GET /v2/default => the ledger
GET /v2/default/stats => statistics
POST /v2/default/logs/export => all entries
GET /v2/_x => invalid ledger: form
GET /v2/_x/accounts/a::b => invalid ledger: form
GET /v2/default/accounts/a::b => invalid address: form
GET /v2/default/transactions/01 => invalid id: form
GET /v2/default/transactions/-1 => invalid id: form
GET /v2/default/transactions/18446744073709551616 => invalid id: form
GET /v2/default/transactions/18446744073709551615 => volumes false, effective false, dated false
DELETE /v2/default/accounts/a:/metadata/%ff => invalid address: form
DELETE /v2/default/accounts/a/metadata/%ff => invalid metadata: form
POST /v2/default/transactions/x/revert?force=2 => invalid id: form
"#;

#[test]
fn paths_and_methods(rt: HostRuntime) -> Result<(), Fail> {
    check(&rt, rt.alloc(), &Requests, PATHS)
}

/// Escapes in targets.
const ESCAPES: &str = r#"
GET /v2/d%65fault/accounts/users%3a1 => volumes false, effective false, dated false
GET /%76%32/default => the ledger
GET /v2/default/accounts/a%2Fb => invalid address: form
GET /v2/default/accounts/a+b => invalid address: form
DELETE /v2/default/accounts/a/metadata/k%20%C3%A9+ => default, no key: {"action":"DELETE_METADATA","data":{"targetType":"ACCOUNT","targetId":"a","key":"k é+"}}
POST /v2/default/transactions/1/revert?f%6Frce=%74rue => default, no key: {"action":"REVERT_TRANSACTION","data":{"id":1,"force":true,"atEffectiveDate":false}}
POST /v2/default/transactions/1/revert?force=+true => invalid query force
"#;

#[test]
fn escapes_in_targets(rt: HostRuntime) -> Result<(), Fail> {
    check(&rt, rt.alloc(), &Requests, ESCAPES)
}

/// Repeated parameters, of which the first counts.
const REPEATED: &str = r#"
POST /v2/default/transactions/1/revert?force=true&force=false => default, no key: {"action":"REVERT_TRANSACTION","data":{"id":1,"force":true,"atEffectiveDate":false}}
POST /v2/default/transactions/1/revert?force=0&force=true&force=x => default, no key: {"action":"REVERT_TRANSACTION","data":{"id":1,"force":false,"atEffectiveDate":false}}
POST /v2/default/transactions/1/revert?force&force=1 => invalid query force
GET /v2/default/accounts/a?expand=volumes&expand=effectiveVolumes => volumes true, effective true, dated false
GET /v2/default/accounts/a?expand=effectiveVolumes&expand=effectiveVolumes => volumes false, effective true, dated false
GET /v2/default/accounts/a?expand=volumes&expand=all => invalid query expand
"#;

#[test]
fn the_first_of_a_repeated_parameter_counts(rt: HostRuntime) -> Result<(), Fail> {
    check(&rt, rt.alloc(), &Requests, REPEATED)
}

/// Parameters that are not asked for, and parameters before bodies.
const PARAMETERS: &str = r#"
GET /v2/default?force=x&pit=y&a=&=b&& => the ledger
GET /v2/default/accounts/a?Expand=all&cursor=x => volumes false, effective false, dated false
POST /v2/default/transactions?force=x {"postings":[{"source":"world","destination":"a","amount":1,"asset":"EUR"}]} => default, no key: {"action":"CREATE_TRANSACTION","data":{"postings":[{"source":"world","destination":"a","amount":1,"asset":"EUR"}],"metadata":{},"accountMetadata":{},"force":false}}
POST /v2/default/transactions/1/revert?dryRun=true {} => default, no key: {"action":"REVERT_TRANSACTION","data":{"id":1,"force":false,"atEffectiveDate":false}}
GET /v2/default/stats?order=asc => invalid query order
GET /v2/default/stats?reverse=1&sort=x => invalid query sort
POST /v2/default/_bulk?atomic=true&parallel=1 [] => invalid query parallel
POST /v2/default/_bulk?atomic=1&continueOnFailure=True [] => atomic true, goes on true:
GET /v2/default/accounts/a?pit=2024-01-01T00:00:00Z => volumes false, effective false, dated true
GET /v2/default/accounts/a?pit=2024-01-01&expand=x => invalid query pit
"#;

#[test]
fn parameters_of_requests(rt: HostRuntime) -> Result<(), Fail> {
    check(&rt, rt.alloc(), &Requests, PARAMETERS)
}

/// Requests with a key, which is read on writes alone, after the parameters and before the body.
const KEYED: &str = "
POST:k /v2/default/transactions?dryRun=TRUE {\"postings\":[{\"source\":\"world\",\"destination\":\"a\",\"amount\":1,\"asset\":\"EUR\"}]} => invalid query dryRun
POST:k1 /v2/default/transactions/1/revert => default, k1: {\"action\":\"REVERT_TRANSACTION\",\"data\":{\"id\":1,\"force\":false,\"atEffectiveDate\":false}}
POST:\u{7f} /v2/default/transactions/1/revert 7 => invalid key: form
POST:k2 /v2/default/accounts/a/metadata {\"b\":\"1\",\"a\":\"2\"} => default, k2: {\"action\":\"ADD_METADATA\",\"data\":{\"targetType\":\"ACCOUNT\",\"targetId\":\"a\",\"metadata\":{\"a\":\"2\",\"b\":\"1\"}}}
POST:\u{7f} /v2/default/_bulk [] => atomic false, goes on false:
POST:\u{7f} /v2/other => _default
POST:\u{7f} /v2/default/logs/export => all entries
";

#[test]
fn keys_are_read_on_writes(rt: HostRuntime) -> Result<(), Fail> {
    check(&rt, rt.alloc(), &Requests, KEYED)
}

/// A request with a bad parameter, a key of two lines and a bad body.
const TWO_LINES: Request<'static> = Request {
    day: 1,
    method: "POST",
    target: "/v2/default/transactions?dryRun=yes&sort=1",
    key: "a\nb",
    body: "7",
};

#[test]
fn a_parameter_before_a_key_of_two_lines(rt: HostRuntime) -> Result<(), Fail> {
    let call = told_request(rt.alloc(), &TWO_LINES)?;
    assert!(rt; call.as_str() == "invalid query dryRun");
    Ok(())
}
