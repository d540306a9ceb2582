//! By what a ledger's entries and transactions are found.

ghost use Rattle.std.specs.Prelude.{◌≡◌, ◌+◌, ◌<◌, ◌++◌, ◌∷◌, [], length, take, OnOk, OnErr, vec_len};
ghost use Rattle.std.specs.Vec.{vec_capacity};
ghost use Rattle.std.specs.Option.{option_copied};
ghost use Rattle.lg_types.specs.Moves.{body_transaction};
ghost use Rattle.lg_book.specs.Index.{CanAdd, CanPrepare, by_id, count_made, index_added, index_forgotten, index_made, index_prepared, new_index};

use crate::records::{
    EntryRecord, TransactionRecord, add_to_records, forget_in_records, prepare_records,
};
use crate::volumes::FirstVolumes;
use lg_containers::Shared;
use lg_types::{Entry, EntryBody, NoMemory};
use std::alloc::Global;
use std::marker::Model;

/// A ledger's entries and transactions, those that are prepared behind those that were added.
#[derive(Drop)]
pub(crate) struct LedgerIndex {
    // Where the event stands that makes the ledger, and whether it was added.
    made: usize,
    there: bool,
    entries: Vec<EntryRecord>,
    // How many of the entries were added.
    logged: usize,
    transactions: Vec<TransactionRecord>,
    // How many of the transactions were added.
    transacted: usize,
}

impl Model for LedgerIndex {
    ghost use Rattle.lg_book.specs.Index.{LedgerView};

    ghost Value = { LedgerView };

    ghost view = { λ x. record { made = x.made; there = x.there; entries = x.entries.items; logged = x.logged; transactions = x.transactions.items; transacted = x.transacted } };
}

impl LedgerIndex {
    /// The index of a ledger that is prepared, and made by the event at the place.
    pub(crate) fn new(alloc: Global, made: usize) -> LedgerIndex
        ensures { result ≡ new_index made }
    {
        LedgerIndex {
            made,
            there: false,
            entries: Vec::new(alloc),
            logged: 0,
            transactions: Vec::new(alloc),
            transacted: 0,
        }
    }

    pub(crate) fn made(&self) -> usize
        ensures { result ≡ self.now.made }
    {
        self.made
    }

    pub(crate) fn is_there(&self) -> bool
        ensures { result ≡ self.now.there }
    {
        self.there
    }

    pub(crate) fn logged(&self) -> usize
        ensures { result ≡ self.now.logged }
    {
        self.logged
    }

    pub(crate) fn transacted(&self) -> usize
        ensures { result ≡ self.now.transacted }
    {
        self.transacted
    }

    /// The record of an entry that was added.
    pub(crate) fn entry_record(&self, id: u64) -> Option<&EntryRecord>
        ensures { option_copied result ≡ by_id (take self.now.logged self.now.entries) id }
    {
        item(&self.entries, self.logged, id)
    }

    /// The record of a transaction that was added.
    pub(crate) fn transaction_record(&self, id: u64) -> Option<&TransactionRecord>
        ensures { option_copied result ≡ by_id (take self.now.transacted self.now.transactions) id }
    {
        item(&self.transactions, self.transacted, id)
    }

    /// The ledger was added.
    pub(crate) fn set_there(&mut self)
        ensures { self.new ≡ index_made self.old }
    {
        self.there = true;
    }

    /// Prepares the entry of the place.
    pub(crate) fn prepare(
        &mut self,
        alloc: Global,
        place: usize,
        entry: &Entry,
        volumes: &Shared<FirstVolumes>,
    ) -> Result<(), NoMemory>
        requires { CanPrepare self.old.transactions entry.now.body }
        ensures ok { OnOk result (self.new ≡ index_prepared place entry.now volumes.now self.old) }
        ensures err { OnErr result (self.new ≡ self.old) }
    {
        let shared = volumes.share()?;
        self.entries.reserve(1)?;
        prepare_records(alloc, &mut self.transactions, place, &entry.body)?;
        let record = EntryRecord {
            place,
            volumes: shared,
        };
        push_within(&mut self.entries, record);
        Ok(())
    }

    /// Adds the first prepared entry, which is the one given. Takes no memory.
    pub(crate) fn add(&mut self, entry: &Entry)
        requires { CanAdd entry.now self.old }
        ensures { self.new ≡ index_added entry.now self.old }
    {
        let date = entry.date;
        add_to_records(&mut self.transactions, date, &entry.body);
        self.logged += 1;
        self.transacted += count(&entry.body);
    }

    /// Gives up the prepared entry.
    pub(crate) fn forget(&mut self, body: &EntryBody)
        ensures { self.new ≡ index_forgotten body.now self.old }
    {
        forget_in_records(&mut self.transactions, body);
        self.transactions.truncate(self.transacted);
        self.entries.truncate(self.logged);
    }
}

// How many transactions an entry makes.
fn count(body: &EntryBody) -> usize
    ensures { result ≡ count_made body.now }
{
    match body {
        EntryBody::NewTransaction { .. } => 1,
        EntryBody::SetMetadata { .. } => 0,
        EntryBody::Reverted { .. } => 1,
        EntryBody::DeleteMetadata { .. } => 0,
    }
}

// The item of the id, of the first `count` items.
fn item<T>(items: &[T], count: usize, id: u64) -> Option<&T>
    ensures { option_copied result ≡ by_id (take count items.now) id }
{
    if id == 0 || (count as u64) < id {
        None
    } else {
        items.get((id - 1) as usize)
    }
}

/// Appends the item, into room that is there.
pub(crate) fn push_within<T: Drop>(items: &mut Vec<T>, item: T)
    requires { vec_len items.old < vec_capacity items.old }
    ensures { items.new.items ≡ items.old.items ++ item ∷ [] }
{
    match items.push(item) {
        Ok(()) => {}
        Err(_) => unreachable!(),
    }
}
