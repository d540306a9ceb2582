//! Replies: their statuses and bodies.

use lg_containers::{List, NameFault, Shared};
use lg_replies::status_of;
use lg_request_tests::body_text;
use lg_types::{Address, Amount, Asset, Meta, Posting, Postings, Reason, Refusal, Text, Volumes};
use lg_views::{
    AccountVolumes, Action, AssetVolumes, BulkItem, BulkView, Content, Reply, TransactionView,
};
use std::alloc::Global;
use std::process::Abort;
use std::test::Fail;

/// Asserts that the reply has a status and a body.
fn check_reply(
    rt: &impl Abort,
    alloc: Global,
    reply: Reply,
    status: u16,
    body: &str,
) -> Result<(), Fail> {
    let found = status_of(&reply);
    let told = body_text(alloc, &reply);
    drop(reply);
    let told = told?;
    assert!(rt; found == status);
    assert!(rt; told.as_str() == body, "{told}");
    Ok(())
}

fn plain(content: Content) -> Reply {
    Reply {
        hit: false,
        content,
    }
}

const NO_TRANSACTION: &str = r#"{"errorCode":"NOT_FOUND","errorMessage":"transaction 7"}"#;

#[test]
fn refusals(rt: HostRuntime) -> Result<(), Fail> {
    let refused = plain(Content::Refused(Refusal::NoTransaction { id: 7 }));
    check_reply(&rt, rt.alloc(), refused, 404, NO_TRANSACTION)
}

fn failed_item(alloc: Global) -> Result<BulkItem, NameFault> {
    let path = Text::read(alloc, b"action")?;
    Ok(BulkItem::Failed {
        element: 1,
        refusal: Refusal::Member {
            path,
            reason: Reason::Form,
        },
    })
}

fn list_reply(alloc: Global) -> Result<Reply, NameFault> {
    let failed = failed_item(alloc)?;
    let mut items = List::new(alloc);
    items.push(BulkItem::Good {
        action: Action::AddMetadata,
        log_id: 2,
        transaction: None,
    })?;
    items.push(failed)?;
    Ok(plain(Content::Bulk(BulkView { items })))
}

const LIST: &str =
    r#"{"data":[{"responseType":"ADD_METADATA","logID":2},{"responseType":"ERROR","errorCode":"VALIDATION","errorDescription":"element 1: action: form"}]}"#;

#[test]
fn failed_elements(rt: HostRuntime) -> Result<(), Fail> {
    let reply = list_reply(rt.alloc())?;
    check_reply(&rt, rt.alloc(), reply, 400, LIST)
}

fn volumes_of(
    alloc: Global,
    account: &[u8],
    volumes: Volumes,
) -> Result<Option<Shared<AccountVolumes>>, NameFault> {
    let mut assets = AssetVolumes::new(alloc);
    assets.put(Asset::read(alloc, b"USD/2")?, volumes)?;
    let mut accounts = AccountVolumes::new(alloc);
    accounts.put(Address::read(alloc, account)?, assets)?;
    Ok(Some(Shared::new(alloc, accounts)?))
}

fn one_posting(alloc: Global) -> Result<Postings, NameFault> {
    let source = Address::read(alloc, b"world")?;
    let destination = Address::read(alloc, b"users:1")?;
    let asset = Asset::read(alloc, b"USD/2")?;
    let amount = match Amount::of(100) {
        Some(amount) => amount,
        None => return Err(NameFault::NoMemory),
    };
    Ok(Postings::of(
        alloc,
        Posting {
            source,
            destination,
            asset,
            amount,
        },
    )?)
}

fn created(alloc: Global, before: Volumes, after: Volumes) -> Result<Reply, NameFault> {
    Ok(plain(Content::Created(TransactionView {
        id: 1,
        postings: one_posting(alloc)?,
        metadata: Meta::new(alloc),
        reference: None,
        timestamp: 1704067200000000,
        inserted_at: 1704067200000000,
        reverted: false,
        reverted_at: None,
        pre_commit_volumes: volumes_of(alloc, b"world", before)?,
        post_commit_volumes: volumes_of(alloc, b"world", after)?,
        pre_commit_effective_volumes: None,
        post_commit_effective_volumes: None,
    })))
}

const CREATED: &str =
    r#"{"data":{"id":1,"postings":[{"source":"world","destination":"users:1","amount":100,"asset":"USD/2"}],"metadata":{},"timestamp":"2024-01-01T00:00:00Z","insertedAt":"2024-01-01T00:00:00Z","reverted":false,"preCommitVolumes":{"world":{"USD/2":{"input":0,"output":0,"balance":0}}},"postCommitVolumes":{"world":{"USD/2":{"input":0,"output":100,"balance":-100}}}}}"#;

#[test]
fn a_new_transaction_is_shown(rt: HostRuntime) -> Result<(), Fail> {
    let none = Volumes {
        input: 0,
        output: 0,
    };
    let spent = Volumes {
        input: 0,
        output: 100,
    };
    let reply = created(rt.alloc(), none, spent)?;
    check_reply(&rt, rt.alloc(), reply, 200, CREATED)
}
