//! The stripes of calls in the ledger `default`.

use crate::lines::{line_at, request_of, transaction_of};
use lg_types::{Call, Transaction};
use lg_weigh::{StripeSet, stripes_of};
use std::alloc::Global;
use std::process::Abort;
use std::test::Fail;

/// Whether the set has these stripes and no other.
fn is_just(set: StripeSet, stripes: &[u8]) -> bool {
    let mut same = true;
    for stripe in 0..16u8 {
        if set.has(stripe) != stripes.contains(&stripe) {
            same = false;
        }
    }
    same
}

/// A call, by the members of its line; the postings of the transaction of id 1 in JSON, where that is known; and the
/// stripes that the call needs.
#[derive(Drop)]
struct Row {
    members: &'static str,
    known: Option<&'static str>,
    stripes: &'static [u8],
}

fn known_of(alloc: Global, known: Option<&str>) -> Result<Option<Transaction>, Fail> {
    match known {
        Some(list) => Ok(Some(transaction_of(alloc, list)?)),
        None => Ok(None),
    }
}

fn needs_just(
    alloc: Global,
    call: &Call,
    known: Option<&str>,
    stripes: &[u8],
) -> Result<bool, Fail> {
    let known = known_of(alloc, known)?;
    Ok(is_just(stripes_of(call, known.as_ref()), stripes))
}

fn check(rt: &impl Abort, alloc: Global, rows: &[Row]) -> Result<(), Fail> {
    for row in rows {
        let script = request_of(alloc, row.members)?;
        let call = &line_at(&script, 0)?.call;
        let right = needs_just(alloc, call, row.known, row.stripes)?;
        assert!(rt; right, "{}", row.members);
    }
    Ok(())
}

#[test]
fn writes_need_their_accounts_keys_and_references(rt: HostRuntime) -> Result<(), Fail> {
    check(
        &rt,
        rt.alloc(),
        &[
            Row {
                members: r#""method":"POST","path":"/v2/default/transactions","body":{"postings":[{"source":"world","destination":"a","amount":10,"asset":"USD/2"},{"source":"a","destination":"b","amount":10,"asset":"USD/2"}]}"#,
                known: None,
                stripes: &[0, 7, 9],
            },
            Row {
                members: r#""method":"POST","path":"/v2/default/transactions","key":"k2","body":{"postings":[{"source":"c","destination":"d","amount":10,"asset":"USD/2"}],"reference":"r1"}"#,
                known: None,
                stripes: &[1, 2, 6, 15],
            },
            Row {
                members: r#""method":"POST","path":"/v2/default/accounts/c/metadata","body":{}"#,
                known: None,
                stripes: &[6],
            },
        ],
    )
}

#[test]
fn a_revert_needs_the_accounts_of_its_transaction(rt: HostRuntime) -> Result<(), Fail> {
    check(
        &rt,
        rt.alloc(),
        &[
            Row {
                members: r#""method":"POST","path":"/v2/default/transactions/1/revert""#,
                known: Some(
                    r#"[{"source":"users:1","destination":"users:2","amount":10,"asset":"USD/2"}]"#,
                ),
                stripes: &[2, 15],
            },
            Row {
                members: r#""method":"POST","path":"/v2/default/transactions/1/revert""#,
                known: None,
                stripes: &[],
            },
        ],
    )
}

#[test]
fn reads_need_one_account_or_all_stripes(rt: HostRuntime) -> Result<(), Fail> {
    check(
        &rt,
        rt.alloc(),
        &[
            Row {
                members: r#""method":"GET","path":"/v2/default/accounts/d?expand=volumes""#,
                known: None,
                stripes: &[15],
            },
            Row {
                members: r#""method":"GET","path":"/v2/default/accounts""#,
                known: None,
                stripes: &[0, 1, 2, 3, 4, 5, 6, 7, 8, 9, 10, 11, 12, 13, 14, 15],
            },
        ],
    )
}

#[test]
fn what_is_unreadable_needs_nothing(rt: HostRuntime) -> Result<(), Fail> {
    check(
        &rt,
        rt.alloc(),
        &[Row {
            members: r#""method":"GET","path":"/""#,
            known: None,
            stripes: &[],
        }],
    )
}
