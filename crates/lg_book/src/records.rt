//! What is kept of a ledger's entries and transactions.

ghost use Rattle.std.specs.Prelude.{◌≡◌, ◌-◌, ◌++◌, ◌∷◌, [], OnOk, OnErr};
ghost use Rattle.lg_book.specs.Index.{CanAddTo, CanChange, CanChangeTarget, CanPrepare, HasTarget, IsIdIn, changed_at, new_record, records_added, records_forgotten, records_prepared, target_added, target_forgotten, target_prepared, with_first_applied, with_none_prepared, with_prepared, with_reverted_by};

use crate::volumes::FirstVolumes;
use lg_containers::{Duplicate, Meta, Shared, Text};
use lg_meta::MetaHistory;
use lg_types::{EntryBody, MetaChange, NoMemory, Target, Transaction};
use std::alloc::Global;

/// Where an entry stands among the events, and the volumes that its first reply shows.
#[derive(Drop)]
pub(crate) struct EntryRecord {
    pub(crate) place: usize,
    pub(crate) volumes: Shared<FirstVolumes>,
}

/// Where the entry of a transaction stands among the events, the transaction that reverts it, and its metadata.
#[derive(Drop)]
pub(crate) struct TransactionRecord {
    pub(crate) place: usize,
    pub(crate) reverted_by: Option<u64>,
    pub(crate) history: MetaHistory,
}

/// Prepares the records for an entry of the place.
pub(crate) fn prepare_records(
    alloc: Global,
    records: &mut Vec<TransactionRecord>,
    place: usize,
    body: &EntryBody,
) -> Result<(), NoMemory>
    requires { CanPrepare records.old.items body.now }
    ensures ok { OnOk result (records.new.items ≡ records_prepared place body.now records.old.items) }
    ensures err { OnErr result (records.new.items ≡ records.old.items) }
{
    match body {
        EntryBody::NewTransaction { transaction, .. } => {
            prepare_new(alloc, records, place, transaction)
        }
        EntryBody::SetMetadata { target, metadata } => {
            prepare_set(alloc, records, target, metadata)
        }
        EntryBody::Reverted { transaction, .. } => prepare_new(alloc, records, place, transaction),
        EntryBody::DeleteMetadata { target, name } => prepare_drop(alloc, records, target, name),
    }
}

fn prepare_new(
    alloc: Global,
    records: &mut Vec<TransactionRecord>,
    place: usize,
    transaction: &Transaction,
) -> Result<(), NoMemory>
    ensures ok { OnOk result (records.new.items ≡ records.old.items ++ new_record place transaction.now ∷ []) }
    ensures err { OnErr result (records.new.items ≡ records.old.items) }
{
    let change = MetaChange::Set(transaction.metadata.copy(alloc)?);
    let mut history = MetaHistory::new(alloc);
    history.prepare(&change)?;
    let record = TransactionRecord {
        place,
        reverted_by: None,
        history,
    };
    records.push(record)?;
    Ok(())
}

fn prepare_set(
    alloc: Global,
    records: &mut Vec<TransactionRecord>,
    target: &Target,
    metadata: &Meta,
) -> Result<(), NoMemory>
    requires { HasTarget records.old.items target.now }
    ensures ok { OnOk result (records.new.items ≡ target_prepared target.now (MetaChange.Set metadata.now) records.old.items) }
    ensures err { OnErr result (records.new.items ≡ records.old.items) }
{
    match target {
        Target::Account(_) => Ok(()),
        Target::Transaction(id) => {
            let change = MetaChange::Set(metadata.copy(alloc)?);
            prepare_change(records, *id, &change)
        }
    }
}

fn prepare_drop(
    alloc: Global,
    records: &mut Vec<TransactionRecord>,
    target: &Target,
    name: &Text,
) -> Result<(), NoMemory>
    requires { HasTarget records.old.items target.now }
    ensures ok { OnOk result (records.new.items ≡ target_prepared target.now (MetaChange.Drop name.now) records.old.items) }
    ensures err { OnErr result (records.new.items ≡ records.old.items) }
{
    match target {
        Target::Account(_) => Ok(()),
        Target::Transaction(id) => {
            let change = MetaChange::Drop(name.copy(alloc)?);
            prepare_change(records, *id, &change)
        }
    }
}

fn prepare_change(
    records: &mut Vec<TransactionRecord>,
    id: u64,
    change: &MetaChange,
) -> Result<(), NoMemory>
    requires { IsIdIn records.old.items id }
    ensures ok { OnOk result (records.new.items ≡ changed_at (with_prepared change.now) (id - 1) records.old.items) }
    ensures err { OnErr result (records.new.items ≡ records.old.items) }
{
    let place = (id - 1) as usize;
    let record = &mut records[place];
    record.history.prepare(change)
}

/// Adds the first prepared entry, of the date, to the records. Takes no memory.
pub(crate) fn add_to_records(records: &mut Vec<TransactionRecord>, date: i64, body: &EntryBody)
    requires { CanAddTo records.old.items date body.now }
    ensures { records.new.items ≡ records_added date body.now records.old.items }
{
    match body {
        EntryBody::NewTransaction { transaction, .. } => {
            apply_change(records, date, transaction.id)
        }
        EntryBody::SetMetadata { target, .. } => apply_to_target(records, date, target),
        EntryBody::Reverted {
            reverted,
            transaction,
        } => {
            apply_change(records, date, transaction.id);
            mark_reverted(records, *reverted, transaction.id);
        }
        EntryBody::DeleteMetadata { target, .. } => apply_to_target(records, date, target),
    }
}

fn apply_to_target(records: &mut Vec<TransactionRecord>, date: i64, target: &Target)
    requires { CanChangeTarget records.old.items date target.now }
    ensures { records.new.items ≡ target_added date target.now records.old.items }
{
    match target {
        Target::Account(_) => {}
        Target::Transaction(id) => apply_change(records, date, *id),
    }
}

fn apply_change(records: &mut Vec<TransactionRecord>, date: i64, id: u64)
    requires { CanChange records.old.items date id }
    ensures { records.new.items ≡ changed_at (with_first_applied date) (id - 1) records.old.items }
{
    let place = (id - 1) as usize;
    let record = &mut records[place];
    record.history.apply_first(date);
}

fn mark_reverted(records: &mut Vec<TransactionRecord>, id: u64, by: u64)
    requires { IsIdIn records.old.items id }
    ensures { records.new.items ≡ changed_at (with_reverted_by by) (id - 1) records.old.items }
{
    let place = (id - 1) as usize;
    let record = &mut records[place];
    record.reverted_by = Some(by);
}

/// Gives up what is prepared of the transaction that the entry's metadata are about.
pub(crate) fn forget_in_records(records: &mut Vec<TransactionRecord>, body: &EntryBody)
    ensures { records.new.items ≡ records_forgotten body.now records.old.items }
{
    match body {
        EntryBody::NewTransaction { .. } => {}
        EntryBody::SetMetadata { target, .. } => forget_target(records, target),
        EntryBody::Reverted { .. } => {}
        EntryBody::DeleteMetadata { target, .. } => forget_target(records, target),
    }
}

fn forget_target(records: &mut Vec<TransactionRecord>, target: &Target)
    ensures { records.new.items ≡ target_forgotten target.now records.old.items }
{
    match target {
        Target::Account(_) => {}
        Target::Transaction(id) => forget_changes(records, *id),
    }
}

fn forget_changes(records: &mut Vec<TransactionRecord>, id: u64)
    ensures { records.new.items ≡ changed_at with_none_prepared (id - 1) records.old.items }
{
    let place = id.saturating_sub(1) as usize;
    if place < records.len() {
        let record = &mut records[place];
        record.history.forget();
    }
}
