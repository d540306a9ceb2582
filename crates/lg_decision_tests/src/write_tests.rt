//! Decisions of writes on a log of two transactions, and the first entry of a log.

use crate::lines::{line_at, request_of, transaction_of, write_of};
use lg_decide::{Decided, Looked, decide_write, new_entry};
use lg_types::{Call, EntryBody, Refusal, Transaction, Write};
use std::alloc::Global;
use std::process::Abort;
use std::test::Fail;

/// The transaction of id 1 of the log.
const ORIGINAL: &str = r#"[{"source":"a","destination":"b","amount":10,"asset":"USD/2"}]"#;

fn told_refusal(alloc: Global, refusal: &Refusal) -> Result<String, Fail> {
    match refusal {
        Refusal::Limit { posting } => Ok(format!(in alloc; "posting {posting} is over")?),
        Refusal::Used { id, .. } => Ok(format!(in alloc; "used by {id}")?),
        Refusal::NoTransaction { id } => Ok(format!(in alloc; "no transaction {id}")?),
        _ => Ok(format!(in alloc; "another refusal")?),
    }
}

fn told_body(alloc: Global, body: &EntryBody) -> Result<String, Fail> {
    match body {
        EntryBody::NewTransaction { transaction, .. } => Ok(format!(in alloc;
            "transaction {} at {}",
            transaction.id, transaction.timestamp
        )?),
        EntryBody::Reverted {
            reverted,
            transaction,
        } => Ok(format!(in alloc;
            "transaction {} at {} for {reverted}",
            transaction.id, transaction.timestamp
        )?),
        _ => Ok(format!(in alloc; "metadata")?),
    }
}

fn told(alloc: Global, decided: &Decided) -> Result<String, Fail> {
    match decided {
        Decided::Denied(refusal) => told_refusal(alloc, refusal),
        Decided::Granted(body) => told_body(alloc, body),
    }
}

/// A write, by the members of its line; whether transaction 1 is found for it; the transaction that has its reference;
/// whether its postings pass the limit; and what is decided of it at the date 7.
#[derive(Drop)]
struct Row {
    members: &'static str,
    is_found: bool,
    used: Option<u64>,
    is_over: bool,
    told: &'static str,
}

fn trial_of(is_over: bool) -> Option<Refusal> {
    if is_over {
        Some(Refusal::Limit { posting: 0 })
    } else {
        None
    }
}

fn found_of(original: &Transaction, is_found: bool) -> Option<&Transaction> {
    if is_found { Some(original) } else { None }
}

fn decided(
    alloc: Global,
    write: &Write,
    original: &Transaction,
    row: &Row,
) -> Result<Decided, Fail> {
    let looked = Looked {
        transactions: 2,
        transaction: found_of(original, row.is_found),
        reverted_by: None,
        used: row.used,
    };
    Ok(decide_write(alloc, &7, write, &looked, trial_of(row.is_over))?)
}

fn told_write(
    alloc: Global,
    write: &Write,
    original: &Transaction,
    row: &Row,
) -> Result<String, Fail> {
    let decided = decided(alloc, write, original, row)?;
    told(alloc, &decided)
}

fn told_call(alloc: Global, call: &Call, row: &Row) -> Result<String, Fail> {
    let original = transaction_of(alloc, ORIGINAL)?;
    told_write(alloc, write_of(call)?, &original, row)
}

fn told_row(alloc: Global, row: &Row) -> Result<String, Fail> {
    let script = request_of(alloc, row.members)?;
    told_call(alloc, &line_at(&script, 0)?.call, row)
}

fn check(rt: &impl Abort, alloc: Global, rows: &[Row]) -> Result<(), Fail> {
    for (place, row) in rows.iter().enumerate() {
        let told = told_row(alloc, row)?;
        assert_eq!(rt; told.as_str(), row.told, "write {place}");
    }
    Ok(())
}

#[test]
fn a_creation_is_refused_for_its_postings_first(rt: HostRuntime) -> Result<(), Fail> {
    let members =
        r#""method":"POST","path":"/v2/default/transactions","body":{"postings":[{"source":"a","destination":"b","amount":10,"asset":"USD/2"}],"reference":"r1"}"#;
    check(
        &rt,
        rt.alloc(),
        &[
            Row {
                members,
                is_found: false,
                used: Some(1),
                is_over: true,
                told: "posting 0 is over",
            },
            Row {
                members,
                is_found: false,
                used: Some(1),
                is_over: false,
                told: "used by 1",
            },
            Row {
                members,
                is_found: false,
                used: None,
                is_over: false,
                told: "transaction 3 at 7",
            },
        ],
    )
}

#[test]
fn a_revert_needs_a_transaction_that_stands(rt: HostRuntime) -> Result<(), Fail> {
    check(
        &rt,
        rt.alloc(),
        &[
            Row {
                members: r#""method":"POST","path":"/v2/default/transactions/1/revert""#,
                is_found: false,
                used: None,
                is_over: false,
                told: "no transaction 1",
            },
            Row {
                members: r#""method":"POST","path":"/v2/default/transactions/1/revert""#,
                is_found: true,
                used: None,
                is_over: false,
                told: "transaction 3 at 7 for 1",
            },
            Row {
                members: r#""method":"POST","path":"/v2/default/transactions/1/revert?atEffectiveDate=true""#,
                is_found: true,
                used: None,
                is_over: false,
                told: "transaction 3 at 5 for 1",
            },
        ],
    )
}

#[test]
fn metadata_are_taken_from_what_is_there(rt: HostRuntime) -> Result<(), Fail> {
    let members = r#""method":"DELETE","path":"/v2/default/transactions/1/metadata/note""#;
    check(
        &rt,
        rt.alloc(),
        &[
            Row {
                members,
                is_found: true,
                used: None,
                is_over: false,
                told: "metadata",
            },
            Row {
                members,
                is_found: false,
                used: None,
                is_over: false,
                told: "no transaction 1",
            },
        ],
    )
}

/// What the first entry of a log records of a write.
fn body_of(alloc: Global, date: &i64, write: &Write) -> Result<EntryBody, Fail> {
    let nothing = Looked {
        transactions: 0,
        transaction: None,
        reverted_by: None,
        used: None,
    };
    match decide_write(alloc, date, write, &nothing, None)? {
        Decided::Granted(body) => Ok(body),
        Decided::Denied(_) => Err("refused".into()),
    }
}

/// What the first entry of a log records of a deposit.
fn first_body(alloc: Global, date: &i64) -> Result<EntryBody, Fail> {
    let script = request_of(
        alloc,
        r#""method":"POST","path":"/v2/default/transactions","body":{"postings":[{"source":"world","destination":"users:1","amount":100,"asset":"USD/2"}]}"#,
    )?;
    body_of(alloc, date, write_of(&line_at(&script, 0)?.call)?)
}

#[test]
fn the_first_entry_is_sealed(rt: HostRuntime) -> Result<(), Fail> {
    let date = 1_704_067_200_000_000;
    let entry = new_entry(0, None, &date, None, first_body(rt.alloc(), &date)?);
    assert_eq!(rt;
        entry.hash,
        [
            41, 131, 225, 165, 117, 22, 79, 105, 52, 84, 12, 185, 161, 113, 177, 222, 81, 136, 201,
            197, 156, 4, 228, 14, 248, 242, 65, 159, 186, 139, 178, 175
        ]
    );
    Ok(())
}
