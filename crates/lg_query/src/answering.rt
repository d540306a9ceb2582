//! What a ledger is asked, answered from the book.

ghost use Rattle.std.specs.Prelude.{◌≡◌, ◌<◌, ◌≤◌, IfOk, List, length, take};
ghost use Rattle.lg_types.specs.Parts.{part_of};
ghost use Rattle.lg_types.specs.Stripes.{stripe};
ghost use Rattle.lg_types.specs.declared.classes.Class.TheVariants.{Account as AccountClass};
ghost use Rattle.lg_types.specs.declared.calls.Call.TheVariants.{Unreadable, Read as ReadCall};
ghost use Rattle.lg_types.specs.declared.queries.Read.TheVariants.{Ledger as OfLedger, Account as OfAccount, Logs as OfLogs, Export as OfExport};
ghost use Rattle.lg_types.specs.declared.records.Event.{Event};
ghost use Rattle.lg_types.specs.declared.refusals.Refusal.TheVariants.{NoLedger, NotBuilt};
ghost use Rattle.lg_types.specs.Log.{log};
ghost use Rattle.lg_views.specs.Reads.{account_content};
ghost use Rattle.lg_views.specs.Replies.{plain as plain_reply, refused};
ghost use Rattle.lg_accounts.specs.Dates.{NeverFall};
ghost use Rattle.lg_query.specs.Asked.{AreReady, IsReadAs, as_asked};

use crate::entries::entries_page;
use lg_accounts::{AccountAt, account};
use lg_base::NoMemory;
use lg_book::Book;
use lg_containers::{Duplicate, LedgerName, List};
use lg_runs::Steps;
use lg_shard::{Class, Shards, stripe_of};
use lg_types::{Address, Entries, Expand, Query, Read, Refusal};
use lg_views::{Content, Reply};
use std::alloc::Global;
use std::marker::Brand;
use std::sync::ledger::{Blank, Ledger};

/// What a reading of a ledger is answered, over the shards of the stripes that it needs and the book.
pub fn answer<S: Shards>(
    alloc: Global,
    shards: &S,
    book: &Book,
    ledger: &LedgerName,
    read: &Read,
) -> Result<Reply, NoMemory>
    requires { AreReady (S.lent shards.now) book.now.events ledger.now read.now }
    ensures { IfOk result (IsReadAs book.now.events (as_asked ledger.now read.now)) }
{
    match read {
        Read::Ledger => ledger_record(alloc, book, ledger),
        Read::Account {
            address,
            pit,
            expand,
        } => account_at(alloc, shards, book, ledger, address, *pit, *expand),
        Read::Transaction { .. } => Ok(not_built()),
        Read::Accounts { .. } => Ok(not_built()),
        Read::Transactions { .. } => Ok(not_built()),
        Read::Logs { query } => page_of_log(alloc, book, ledger, query),
        Read::Volumes { .. } => Ok(not_built()),
        Read::Aggregate { .. } => Ok(not_built()),
        Read::Stats => Ok(not_built()),
        Read::Export => export(alloc, book, ledger),
    }
}

// The record of a ledger, as it was made.
fn ledger_record(alloc: Global, book: &Book, ledger: &LedgerName) -> Result<Reply, NoMemory>
    ensures { IfOk result (IsReadAs book.now.events (ReadCall ledger.now OfLedger)) }
{
    match book.ledger(ledger) {
        None => no_ledger(alloc, ledger),
        Some(info) => Ok(plain(Content::Ledger(info.copy(alloc)?))),
    }
}

// One account of a ledger at a date.
fn account_at<S: Shards>(
    alloc: Global,
    shards: &S,
    book: &Book,
    ledger: &LedgerName,
    address: &Address,
    pit: Option<i64>,
    expand: Expand,
) -> Result<Reply, NoMemory>
    requires { AreReady (S.lent shards.now) book.now.events ledger.now (OfAccount address.now pit expand) }
    ensures { IfOk result (IsReadAs book.now.events (ReadCall ledger.now (OfAccount address.now pit expand))) }
{
    let _grown = book.len();
    match book.log_len(ledger) {
        None => no_ledger(alloc, ledger),
        Some(_) => match shards.shard(stripe_of(Class::Account, ledger, address.bytes())) {
            None => unreachable!(),
            Some(shard) => {
                let of = AccountAt {
                    shard,
                    ledger,
                    address,
                    pit,
                };
                Ok(plain(content_of::<Brand>(alloc, &of, expand, Blank::new(1))?))
            }
        },
    }
}

// The account as it is at the date.
fn content_of<L: Ledger>(
    alloc: Global,
    of: &AccountAt<'_>,
    expand: Expand,
    blank: Blank,
) -> Result<Content, NoMemory>
    requires name { blank.name ≡ L.name }
    requires parts { blank.parts ≡ L.parts }
    requires some { 0 < L.parts }
    ensures { IfOk result (λ content. (events : List Event) → of.now.shard.now.shares ≡ part_of (stripe AccountClass of.now.ledger.now of.now.address.now) events → NeverFall (log events of.now.ledger.now) → content ≡ account_content (log events of.now.ledger.now) of.now.address.now of.now.pit expand) }
{
    let mut steps = Steps::<L>::new(blank);
    account(alloc, of, expand, &mut steps)
}

// The page of a ledger's log.
fn page_of_log(
    alloc: Global,
    book: &Book,
    ledger: &LedgerName,
    query: &Query,
) -> Result<Reply, NoMemory>
    ensures { IfOk result (IsReadAs book.now.events (ReadCall ledger.now (OfLogs query.now))) }
{
    match book.log_len(ledger) {
        None => no_ledger(alloc, ledger),
        Some(_) => Ok(plain(entries_page(alloc, book, ledger, query)?)),
    }
}

// All entries of a ledger.
fn export(alloc: Global, book: &Book, ledger: &LedgerName) -> Result<Reply, NoMemory>
    ensures { IfOk result (IsReadAs book.now.events (ReadCall ledger.now OfExport)) }
{
    match book.log_len(ledger) {
        None => no_ledger(alloc, ledger),
        Some(count) => Ok(plain(Content::Export(entries(alloc, book, ledger, count)?))),
    }
}

// The first entries of a ledger, as many as are given.
fn entries(alloc: Global, book: &Book, ledger: &LedgerName, count: u64) -> Result<Entries, NoMemory>
    requires { count ≤ length (log book.now.events ledger.now) }
    ensures { IfOk result (λ entries. entries ≡ take count (log book.now.events ledger.now)) }
{
    let _grown = book.len();
    let mut entries = List::new(alloc);
    for place in 0..count {
        if let Some(entry) = book.entry(ledger, place + 1) {
            entries.push(entry.copy(alloc)?)?;
        }
    }
    Ok(entries)
}

// The reply where the ledger isn't there.
fn no_ledger(alloc: Global, ledger: &LedgerName) -> Result<Reply, NoMemory>
    ensures { IfOk result (λ reply. reply ≡ refused (NoLedger ledger.now)) }
{
    Ok(plain(Content::Refused(Refusal::NoLedger {
        name: ledger.copy(alloc)?,
    })))
}

// The reply to what isn't built.
fn not_built() -> Reply
    ensures { (events : List Event) → IsReadAs events (Unreadable NotBuilt) result }
{
    plain(Content::Refused(Refusal::NotBuilt))
}

// A reply that is no first reply of a kept key.
fn plain(content: Content) -> Reply
    ensures { result ≡ plain_reply content }
{
    Reply {
        hit: false,
        content,
    }
}
