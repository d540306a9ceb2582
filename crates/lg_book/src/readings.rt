//! What is read through a ledger's index.

ghost use Rattle.std.specs.Prelude.{◌≡◌, Some, None, if◌then◌else◌, int_lt, List, take, slice_get, IsSome, IfSome, IfOk};
ghost use Rattle.std.specs.Option.{option_copied, option_map};
ghost use Rattle.lg_types.specs.Moves.{body_transaction};
ghost use Rattle.lg_types.specs.Chain.{entry_hash};
ghost use Rattle.lg_types.specs.Known.{date_after as date_after_entry};
ghost use Rattle.lg_types.specs.declared.records.Entry.{Entry};
ghost use Rattle.lg_views.specs.Replies.{plain};
ghost use Rattle.lg_views.specs.Writes.{first_reply};
ghost use Rattle.lg_book.specs.FirstVolumes.{entry_volumes};
ghost use Rattle.lg_book.specs.Index.{by_id, date_by_entry, entry_by_record, entry_there, history_of, info_if, info_there, made_by_record, reverted_by_record, transaction_by_entry};

use crate::ledger_index::LedgerIndex;
use crate::records::EntryRecord;
use crate::replies::reply_of;
use lg_containers::Shared;
use lg_meta::MetaHistory;
use lg_types::{Entry, EntryBody, Event, LedgerInfo, NoMemory, Transaction, bring};
use lg_views::Reply;
use std::alloc::Global;

/// The count of a ledger that is there.
pub(crate) fn counted(there: bool, count: usize) -> Option<u64>
    ensures { result ≡ (if there then Some count else None) }
{
    if there { Some(count as u64) } else { None }
}

/// The event at the place, added or prepared.
pub(crate) fn event_at(events: &[Shared<Event>], place: usize) -> Option<&Event>
    ensures { option_copied result ≡ slice_get events.now place }
{
    match events.get(place) {
        None => None,
        Some(event) => Some(event.get()),
    }
}

fn entry_at(events: &[Shared<Event>], place: usize) -> Option<&Entry>
    ensures { option_copied result ≡ entry_there (slice_get events.now place) }
{
    match event_at(events, place) {
        None => None,
        Some(event) => entry_of(event),
    }
}

fn entry_of(event: &Event) -> Option<&Entry>
    ensures { option_copied result ≡ entry_there (Some event.now) }
{
    match event {
        Event::Made(_) => None,
        Event::Logged { entry, .. } => Some(entry),
    }
}

fn info_of(event: &Event) -> Option<&LedgerInfo>
    ensures { option_copied result ≡ info_there (Some event.now) }
{
    match event {
        Event::Made(info) => Some(info),
        Event::Logged { .. } => None,
    }
}

fn info_at(events: &[Shared<Event>], place: usize) -> Option<&LedgerInfo>
    ensures { option_copied result ≡ info_there (slice_get events.now place) }
{
    match event_at(events, place) {
        None => None,
        Some(event) => info_of(event),
    }
}

/// The record of a ledger that was added.
pub(crate) fn info_in<'a>(
    events: &'a [Shared<Event>],
    index: &LedgerIndex,
) -> Option<&'a LedgerInfo>
    ensures { option_copied result ≡ info_if index.now.there (slice_get events.now index.now.made) }
{
    if index.is_there() {
        info_at(events, index.made())
    } else {
        None
    }
}

/// The entry of the id, of those that were added.
pub(crate) fn entry_in<'a>(
    events: &'a [Shared<Event>],
    index: &LedgerIndex,
    id: u64,
) -> Option<&'a Entry>
    ensures { option_copied result ≡ entry_by_record events.now (by_id (take index.now.logged index.now.entries) id) }
{
    match index.entry_record(id) {
        None => None,
        Some(record) => entry_at(events, record.place),
    }
}

/// The entry that made the transaction of the id, of those that were added.
fn made_in<'a>(events: &'a [Shared<Event>], index: &LedgerIndex, id: u64) -> Option<&'a Entry>
    ensures { option_copied result ≡ made_by_record events.now (by_id (take index.now.transacted index.now.transactions) id) }
{
    match index.transaction_record(id) {
        None => None,
        Some(record) => entry_at(events, record.place),
    }
}

fn transaction_of(body: &EntryBody) -> Option<&Transaction>
    ensures { option_copied result ≡ body_transaction body.now }
{
    match body {
        EntryBody::NewTransaction { transaction, .. } => Some(transaction),
        EntryBody::SetMetadata { .. } => None,
        EntryBody::Reverted { transaction, .. } => Some(transaction),
        EntryBody::DeleteMetadata { .. } => None,
    }
}

/// The transaction of the id, of those that were added.
pub(crate) fn transaction_in<'a>(
    events: &'a [Shared<Event>],
    index: &LedgerIndex,
    id: u64,
) -> Option<&'a Transaction>
    ensures { option_copied result ≡ transaction_by_entry (made_by_record events.now (by_id (take index.now.transacted index.now.transactions) id)) }
{
    match made_in(events, index, id) {
        None => None,
        Some(entry) => transaction_of(&entry.body),
    }
}

/// The date of the entry of a transaction that was added.
pub(crate) fn inserted_in(events: &[Shared<Event>], index: &LedgerIndex, id: u64) -> Option<i64>
    ensures { result ≡ date_by_entry (made_by_record events.now (by_id (take index.now.transacted index.now.transactions) id)) }
{
    match made_in(events, index, id) {
        None => None,
        Some(entry) => Some(entry.date),
    }
}

/// The transaction that reverts the transaction of the id.
pub(crate) fn reverted_in(index: &LedgerIndex, id: u64) -> Option<u64>
    ensures { result ≡ reverted_by_record (by_id (take index.now.transacted index.now.transactions) id) }
{
    match index.transaction_record(id) {
        None => None,
        Some(record) => record.reverted_by,
    }
}

/// The metadata of a transaction that was added.
pub(crate) fn history_in(index: &LedgerIndex, id: u64) -> Option<&MetaHistory>
    ensures { option_copied result ≡ option_map history_of (by_id (take index.now.transacted index.now.transactions) id) }
{
    match index.transaction_record(id) {
        None => None,
        Some(record) => Some(&record.history),
    }
}

/// The last entry that was added.
pub(crate) fn last_in<'a>(events: &'a [Shared<Event>], index: &LedgerIndex) -> Option<&'a Entry>
    ensures { option_copied result ≡ entry_by_record events.now (by_id (take index.now.logged index.now.entries) index.now.logged) }
{
    entry_in(events, index, index.logged() as u64)
}

/// The hash of the last entry that was added.
pub(crate) fn last_hash_in(events: &[Shared<Event>], index: &LedgerIndex) -> Option<[u8; 32]>
    ensures { result ≡ option_map entry_hash (entry_by_record events.now (by_id (take index.now.logged index.now.entries) index.now.logged)) }
{
    match last_in(events, index) {
        None => None,
        Some(entry) => Some(entry.hash),
    }
}

/// The date of an entry after the last one.
pub(crate) fn date_in(events: &[Shared<Event>], index: &LedgerIndex, now: i64) -> i64
    ensures { result ≡ date_after_entry (entry_by_record events.now (by_id (take index.now.logged index.now.entries) index.now.logged)) now }
{
    match last_in(events, index) {
        None => bring(&now),
        Some(entry) => later(entry.date, bring(&now)),
    }
}

// The later of two dates.
fn later(last: i64, now: i64) -> i64
    ensures { result ≡ (if int_lt now last then last else now) }
{
    if now < last { last } else { now }
}

/// The first reply of the entry of the id, of those that were added.
pub(crate) fn reply_in(
    alloc: Global,
    events: &[Shared<Event>],
    index: &LedgerIndex,
    id: u64,
) -> Result<Reply, NoMemory>
    requires { IsSome (entry_by_record events.now (by_id (take index.now.logged index.now.entries) id)) }
    ensures { IfOk result (λ reply. IfSome (by_id (take index.now.logged index.now.entries) id) (λ r. IfSome (entry_there (slice_get events.now r.place)) (λ e. (g : List Entry) → r.volumes ≡ entry_volumes g e → reply ≡ plain (first_reply g e)))) }
{
    match index.entry_record(id) {
        None => unreachable!(),
        Some(record) => reply_by_record(alloc, events, record),
    }
}

fn reply_by_record(
    alloc: Global,
    events: &[Shared<Event>],
    kept: &EntryRecord,
) -> Result<Reply, NoMemory>
    requires { IsSome (entry_there (slice_get events.now kept.now.place)) }
    ensures { IfOk result (λ reply. IfSome (entry_there (slice_get events.now kept.now.place)) (λ e. (g : List Entry) → kept.now.volumes ≡ entry_volumes g e → reply ≡ plain (first_reply g e))) }
{
    match entry_at(events, kept.place) {
        None => unreachable!(),
        Some(entry) => reply_of(alloc, entry, kept.volumes.get()),
    }
}
