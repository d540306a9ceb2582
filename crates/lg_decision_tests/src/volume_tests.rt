//! The volumes that new transactions are shown with: alone, and after others of the same list, which no shard has yet.

use crate::lines::{line_at, request_of};
use lg_containers::Shared;
use lg_store::Solo;
use lg_types::Call;
use lg_views::{AccountVolumes, BulkItem, Content, Reply, TransactionView};
use std::alloc::Global;
use std::process::Abort;
use std::test::Fail;

/// The four maps of volumes of a transaction.
#[derive(Clone, Copy)]
enum Map {
    Before,
    After,
    EffectiveBefore,
    EffectiveAfter,
}

/// A map, an account, and its input and output in EUR there.
#[derive(Drop)]
struct Row {
    map: Map,
    account: &'static str,
    volumes: Option<(u128, u128)>,
}

fn volumes_in(view: &TransactionView, map: Map) -> &Option<Shared<AccountVolumes>> {
    match map {
        Map::Before => &view.pre_commit_volumes,
        Map::After => &view.post_commit_volumes,
        Map::EffectiveBefore => &view.pre_commit_effective_volumes,
        Map::EffectiveAfter => &view.post_commit_effective_volumes,
    }
}

/// The input and the output of the account in EUR.
fn shown(view: &TransactionView, map: Map, account: &str) -> Option<(u128, u128)> {
    let volumes = volumes_in(view, map).as_ref()?;
    let assets = volumes.get().find(account.as_bytes())?;
    let own = assets.find(b"EUR")?;
    Some((own.input, own.output))
}

/// The last transaction of a reply.
fn last_view(reply: &Reply) -> Option<&TransactionView> {
    match &reply.content {
        Content::Created(view) => Some(view),
        Content::Bulk(view) => match view.items.as_slice().last()? {
            BulkItem::Good { transaction, .. } => transaction.as_ref(),
            BulkItem::Failed { .. } => None,
        },
        _ => None,
    }
}

/// The reply to a call at midnight of 2024-01-01 on new ledgers.
fn reply_to(alloc: Global, call: &Call) -> Result<Reply, Fail> {
    let mut solo = Solo::new(alloc)?;
    Ok(solo.call(call, 1_704_067_200_000_000).reply)
}

fn replied(alloc: Global, members: &str) -> Result<Reply, Fail> {
    let script = request_of(alloc, members)?;
    reply_to(alloc, &line_at(&script, 0)?.call)
}

fn check_view(rt: &impl Abort, view: &TransactionView, rows: &[Row]) -> Result<(), Fail> {
    for (place, row) in rows.iter().enumerate() {
        let volumes = shown(view, row.map, row.account);
        assert_eq!(rt; volumes, row.volumes, "row {place}");
    }
    Ok(())
}

fn check_reply(rt: &impl Abort, reply: &Reply, rows: &[Row]) -> Result<(), Fail> {
    match last_view(reply) {
        Some(view) => check_view(rt, view, rows),
        None => Err("no transaction".into()),
    }
}

/// Asserts what the last transaction of a call is shown with.
fn check(rt: &impl Abort, alloc: Global, members: &str, rows: &[Row]) -> Result<(), Fail> {
    let reply = replied(alloc, members)?;
    check_reply(rt, &reply, rows)
}

#[test]
fn shows_a_first_payment(rt: HostRuntime) -> Result<(), Fail> {
    check(
        &rt,
        rt.alloc(),
        r#""method":"POST","path":"/v2/default/transactions","body":{"postings":[{"source":"world","destination":"a","amount":10,"asset":"EUR"}],"timestamp":"1970-01-01T00:00:00Z"}"#,
        &[
            Row {
                map: Map::Before,
                account: "a",
                volumes: Some((0, 0)),
            },
            Row {
                map: Map::Before,
                account: "world",
                volumes: Some((0, 0)),
            },
            Row {
                map: Map::EffectiveBefore,
                account: "a",
                volumes: Some((0, 0)),
            },
            Row {
                map: Map::EffectiveBefore,
                account: "world",
                volumes: Some((0, 0)),
            },
            Row {
                map: Map::After,
                account: "a",
                volumes: Some((10, 0)),
            },
            Row {
                map: Map::After,
                account: "world",
                volumes: Some((0, 10)),
            },
            Row {
                map: Map::After,
                account: "b",
                volumes: None,
            },
            Row {
                map: Map::EffectiveAfter,
                account: "a",
                volumes: Some((10, 0)),
            },
            Row {
                map: Map::EffectiveAfter,
                account: "world",
                volumes: Some((0, 10)),
            },
            Row {
                map: Map::EffectiveAfter,
                account: "b",
                volumes: None,
            },
        ],
    )
}

#[test]
fn adds_up_postings_of_the_same_account(rt: HostRuntime) -> Result<(), Fail> {
    check(
        &rt,
        rt.alloc(),
        r#""method":"POST","path":"/v2/default/transactions","body":{"postings":[{"source":"world","destination":"a","amount":50,"asset":"EUR"},{"source":"a","destination":"b","amount":50,"asset":"EUR"},{"source":"world","destination":"b","amount":7,"asset":"EUR"}],"timestamp":"1970-01-01T00:00:00Z"}"#,
        &[
            Row {
                map: Map::Before,
                account: "a",
                volumes: Some((0, 0)),
            },
            Row {
                map: Map::After,
                account: "a",
                volumes: Some((50, 50)),
            },
            Row {
                map: Map::After,
                account: "b",
                volumes: Some((57, 0)),
            },
            Row {
                map: Map::EffectiveAfter,
                account: "world",
                volumes: Some((0, 57)),
            },
        ],
    )
}

#[test]
fn looks_at_dates_before_ids(rt: HostRuntime) -> Result<(), Fail> {
    check(
        &rt,
        rt.alloc(),
        r#""method":"POST","path":"/v2/default/_bulk","body":[{"action":"CREATE_TRANSACTION","data":{"postings":[{"source":"world","destination":"users:1","amount":100,"asset":"EUR"}],"timestamp":"1970-01-03T00:00:00Z"}},{"action":"CREATE_TRANSACTION","data":{"postings":[{"source":"users:1","destination":"users:2","amount":100,"asset":"EUR"}],"timestamp":"1970-01-04T00:00:00Z"}},{"action":"CREATE_TRANSACTION","data":{"postings":[{"source":"world","destination":"users:1","amount":7,"asset":"EUR"}],"timestamp":"1970-01-02T00:00:00Z"}}]"#,
        &[
            Row {
                map: Map::Before,
                account: "users:1",
                volumes: Some((100, 100)),
            },
            Row {
                map: Map::Before,
                account: "world",
                volumes: Some((0, 100)),
            },
            Row {
                map: Map::After,
                account: "users:1",
                volumes: Some((107, 100)),
            },
            Row {
                map: Map::EffectiveBefore,
                account: "users:1",
                volumes: Some((0, 0)),
            },
            Row {
                map: Map::EffectiveAfter,
                account: "users:1",
                volumes: Some((7, 0)),
            },
            Row {
                map: Map::EffectiveAfter,
                account: "world",
                volumes: Some((0, 7)),
            },
        ],
    )
}

#[test]
fn ranks_equal_dates_by_id(rt: HostRuntime) -> Result<(), Fail> {
    check(
        &rt,
        rt.alloc(),
        r#""method":"POST","path":"/v2/default/_bulk","body":[{"action":"CREATE_TRANSACTION","data":{"postings":[{"source":"world","destination":"a","amount":10,"asset":"EUR"}],"timestamp":"1970-01-02T00:00:00Z"}},{"action":"CREATE_TRANSACTION","data":{"postings":[{"source":"world","destination":"a","amount":5,"asset":"EUR"}],"timestamp":"1970-01-02T00:00:00Z"}},{"action":"CREATE_TRANSACTION","data":{"postings":[{"source":"world","destination":"a","amount":1,"asset":"EUR"}],"timestamp":"1970-01-02T00:00:00Z"}}]"#,
        &[
            Row {
                map: Map::EffectiveBefore,
                account: "a",
                volumes: Some((15, 0)),
            },
            Row {
                map: Map::EffectiveAfter,
                account: "a",
                volumes: Some((16, 0)),
            },
        ],
    )
}
