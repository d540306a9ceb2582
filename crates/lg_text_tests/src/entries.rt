//! Lines of entries, and the first bad member of lines.

use crate::tables::{Reader, check};
use lg_base::ByteFeed;
use lg_entry_lines::{LineFault, ReadEntry, entry_of_line};
use lg_request_tests::text_of;
use lg_types::{Entry, EntryForm, ImportCause, entry_text};
use std::alloc::Global;
use std::test::Fail;

/// The text of the entry, or `itself` where that is the line.
fn told_entry(alloc: Global, entry: &Entry, form: EntryForm, line: &str) -> Result<String, Fail> {
    let mut feed = ByteFeed::new(alloc);
    entry_text(entry, form, &mut feed)?;
    if feed.bytes() == line.as_bytes() {
        return text_of(alloc, b"itself");
    }
    text_of(alloc, feed.bytes())
}

fn told_found(alloc: Global, found: &ReadEntry, line: &str) -> Result<String, Fail> {
    match found.form {
        2 => told_entry(alloc, &found.entry, EntryForm::Line, line),
        1 => told_entry(alloc, &found.entry, EntryForm::FirstLine, line),
        _ => text_of(alloc, b"another log form"),
    }
}

fn told_fault(alloc: Global, fault: &LineFault) -> Result<String, Fail> {
    match fault {
        LineFault::Bad(ImportCause::Member { path }) => text_of(alloc, path.bytes()),
        LineFault::Bad(ImportCause::Json) => text_of(alloc, b"no JSON"),
        LineFault::Bad(_) => text_of(alloc, b"another cause"),
        LineFault::NoMemory => text_of(alloc, b"memory is wanting"),
    }
}

/// Reads lines of entries: as the line of the entry that is found, or the first bad member.
struct Lines {
    /// Whether hashes are computed anew, so that a line may have none.
    recompute: bool,
}

impl Reader for Lines {
    fn told(&self, alloc: Global, text: &str) -> Result<String, Fail> {
        match entry_of_line(alloc, text.as_bytes(), self.recompute) {
            Ok(found) => {
                let told = told_found(alloc, &found, text);
                drop(found);
                told
            }
            Err(fault) => told_fault(alloc, &fault),
        }
    }
}

/// Lines of both log forms.
const GOOD_LINES: &str = r#"
{"type":"NEW_TRANSACTION","data":{"transaction":{"id":1,"postings":[{"source":"world","destination":"users:1","amount":100,"asset":"USD/2"}],"metadata":{"k":"v"},"reference":"order 1","timestamp":"2024-01-01T00:00:00Z"},"accountMetadata":{"users:1":{"a":"b\n"}}},"date":"2024-01-01T00:00:00Z","idempotencyKey":"key-1","idempotencyHash":"jnoTV2WP3huu2b88bj/HdvQeiHAwUerUGG1TETGqUzU=","form":2,"id":1,"hash":"uQgktvDVydNeaxP7RTNlBeCV7MZCmfY1GegFkxegsVY="} => itself
{"type":"SET_METADATA","data":{"targetType":"ACCOUNT","targetId":"users:1","metadata":{"é":"\u0001"}},"date":"2024-01-01T00:00:00.5Z","form":2,"id":2,"hash":"JwfYvZyNIvKMwWCgtVwIfrJDErea/8CxZXcQw0gfsbw="} => itself
{"type":"REVERTED_TRANSACTION","data":{"revertedTransactionID":1,"transaction":{"id":2,"postings":[{"source":"users:1","destination":"world","amount":100,"asset":"USD/2"}],"metadata":{"com.formance.spec/state/reverts":"1"},"timestamp":"2024-01-01T00:00:00Z"}},"date":"2024-01-01T00:00:00.5Z","form":2,"id":3,"hash":"w1ZmkggRcblh1j7+tp9FrfGa+JfJMym/WsPCYb3S0kY="} => itself
{"type":"DELETE_METADATA","data":{"targetType":"TRANSACTION","targetId":1,"key":"k"},"date":"2024-01-01T00:00:00.500001Z","form":2,"id":4,"hash":"6RixYRdHn0e4qMRWdFjbUofoqmeunfsFCh6lRykW7/o="} => itself
{"type":"NEW_TRANSACTION","data":{"transaction":{"id":1,"postings":[{"source":"world","destination":"users:1","amount":100,"asset":"USD/2"}],"metadata":{"k":"v"},"reference":"order 1","timestamp":"2024-01-01T00:00:00Z"},"accountMetadata":{"users:1":{"a":"b\n"}}},"date":"2024-01-01T00:00:00Z","idempotencyKey":"key-1","idempotencyHash":"jnoTV2WP3huu2b88bj/HdvQeiHAwUerUGG1TETGqUzU=","id":1,"hash":"uQgktvDVydNeaxP7RTNlBeCV7MZCmfY1GegFkxegsVY="} => itself
{"type":"SET_METADATA","data":{"targetType":"ACCOUNT","targetId":"users:1","metadata":{"é":"\u0001"}},"date":"2024-01-01T00:00:00.5Z","id":2,"hash":"JwfYvZyNIvKMwWCgtVwIfrJDErea/8CxZXcQw0gfsbw="} => itself
{"hash":"6RixYRdHn0e4qMRWdFjbUofoqmeunfsFCh6lRykW7/o=","id":4,"form":2,"other":null,"idempotencyHash":7,"idempotencyKey":"","date":"2024-01-01T01:00:00.5000005+01:00","data":{"key":"k","targetId":1,"targetType":"TRANSACTION"},"type":"DELETE_METADATA"} => {"type":"DELETE_METADATA","data":{"targetType":"TRANSACTION","targetId":1,"key":"k"},"date":"2024-01-01T00:00:00.500001Z","form":2,"id":4,"hash":"6RixYRdHn0e4qMRWdFjbUofoqmeunfsFCh6lRykW7/o="}
"#;

#[test]
fn good_lines(rt: HostRuntime) -> Result<(), Fail> {
    check(&rt, rt.alloc(), &Lines { recompute: false }, GOOD_LINES)
}

/// A line without a hash.
const BARE_LINE: &str = r#"
{"type":"DELETE_METADATA","data":{"targetType":"TRANSACTION","targetId":1,"key":"k"},"date":"2024-01-01T00:00:00Z","id":1} => {"type":"DELETE_METADATA","data":{"targetType":"TRANSACTION","targetId":1,"key":"k"},"date":"2024-01-01T00:00:00Z","id":1,"hash":"AAAAAAAAAAAAAAAAAAAAAAAAAAAAAAAAAAAAAAAAAAA="}
"#;

#[test]
fn absent_hash_where_hashes_are_computed_anew(rt: HostRuntime) -> Result<(), Fail> {
    check(&rt, rt.alloc(), &Lines { recompute: true }, BARE_LINE)
}

/// Lines with bad data, and the path of the first bad member of each.
const BAD_DATA: &str = r#"
[] => body
{} => type
{"type":"X"} => type
{"type":"SET_METADATA"} => data
{"type":"SET_METADATA","data":{"targetType":"X"}} => data.targetType
{"type":"SET_METADATA","data":{"targetType":"ACCOUNT","targetId":"a:"}} => data.targetId
{"type":"SET_METADATA","data":{"targetType":"TRANSACTION","targetId":"1"}} => data.targetId
{"type":"SET_METADATA","data":{"targetType":"ACCOUNT","targetId":"a"}} => data.metadata
{"type":"SET_METADATA","data":{"targetType":"ACCOUNT","targetId":"a","metadata":{"k":1}}} => data.metadata.k
{"type":"DELETE_METADATA","data":{"targetType":"ACCOUNT","targetId":"a","key":null}} => data.key
{"type":"REVERTED_TRANSACTION","data":{"revertedTransactionID":-1}} => data.revertedTransactionID
{"type":"REVERTED_TRANSACTION","data":{"revertedTransactionID":1}} => data.transaction
"#;

#[test]
fn bad_data(rt: HostRuntime) -> Result<(), Fail> {
    check(&rt, rt.alloc(), &Lines { recompute: false }, BAD_DATA)
}

/// Lines with bad transactions, and the path of the first bad member of each.
const BAD_TRANSACTIONS: &str = r#"
{"type":"NEW_TRANSACTION","data":{"transaction":{"id":18446744073709551616}}} => data.transaction.id
{"type":"NEW_TRANSACTION","data":{"transaction":{"id":1,"postings":[]}}} => data.transaction.postings
{"type":"NEW_TRANSACTION","data":{"transaction":{"id":1,"postings":[{"source":"a","destination":"b","amount":-1}]}}} => data.transaction.postings[0].amount
{"type":"NEW_TRANSACTION","data":{"transaction":{"id":1,"postings":[{"source":"a","destination":"b","amount":1,"asset":"USD"}]}}} => data.transaction.metadata
{"type":"NEW_TRANSACTION","data":{"transaction":{"id":1,"postings":[{"source":"a","destination":"b","amount":1,"asset":"USD"}],"metadata":{},"reference":""}}} => data.transaction.reference
{"type":"NEW_TRANSACTION","data":{"transaction":{"id":1,"postings":[{"source":"a","destination":"b","amount":1,"asset":"USD"}],"metadata":{},"timestamp":"2023-02-29T00:00:00Z"}}} => data.transaction.timestamp
{"type":"NEW_TRANSACTION","data":{"transaction":{"id":1,"postings":[{"source":"a","destination":"b","amount":1,"asset":"USD"}],"metadata":{},"timestamp":"2024-01-01T00:00:00Z"}}} => data.accountMetadata
{"type":"NEW_TRANSACTION","data":{"transaction":{"id":1,"postings":[{"source":"a","destination":"b","amount":1,"asset":"USD"}],"metadata":{},"timestamp":"2024-01-01T00:00:00Z"},"accountMetadata":{"a:":{}}}} => data.accountMetadata.a:
"#;

#[test]
fn bad_transactions(rt: HostRuntime) -> Result<(), Fail> {
    check(
        &rt,
        rt.alloc(),
        &Lines { recompute: false },
        BAD_TRANSACTIONS,
    )
}

/// Lines with bad members beside their data, and the path of the first bad member of each.
const BAD_LINES: &str = r#"
{"type":"DELETE_METADATA","data":{"targetType":"TRANSACTION","targetId":1,"key":"k"}} => date
{"type":"DELETE_METADATA","data":{"targetType":"TRANSACTION","targetId":1,"key":"k"},"date":"2024-01-01T00:00:00Z","idempotencyKey":" "} => idempotencyKey
{"type":"DELETE_METADATA","data":{"targetType":"TRANSACTION","targetId":1,"key":"k"},"date":"2024-01-01T00:00:00Z","idempotencyKey":"k"} => idempotencyHash
{"type":"DELETE_METADATA","data":{"targetType":"TRANSACTION","targetId":1,"key":"k"},"date":"2024-01-01T00:00:00Z","idempotencyKey":"k","idempotencyHash":"AA=="} => idempotencyHash
{"type":"DELETE_METADATA","data":{"targetType":"TRANSACTION","targetId":1,"key":"k"},"date":"2024-01-01T00:00:00Z","idempotencyKey":"","idempotencyHash":1,"form":3} => form
{"type":"DELETE_METADATA","data":{"targetType":"TRANSACTION","targetId":1,"key":"k"},"date":"2024-01-01T00:00:00Z","form":"2"} => form
{"type":"DELETE_METADATA","data":{"targetType":"TRANSACTION","targetId":1,"key":"k"},"date":"2024-01-01T00:00:00Z"} => id
{"type":"DELETE_METADATA","data":{"targetType":"TRANSACTION","targetId":1,"key":"k"},"date":"2024-01-01T00:00:00Z","id":1} => hash
{"type":"DELETE_METADATA","data":{"targetType":"TRANSACTION","targetId":1,"key":"k"},"date":"2024-01-01T00:00:00Z","id":1,"hash":""} => hash
{"type":1.0} => no JSON
"#;

#[test]
fn bad_lines(rt: HostRuntime) -> Result<(), Fail> {
    check(&rt, rt.alloc(), &Lines { recompute: false }, BAD_LINES)
}
