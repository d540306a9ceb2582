//! The ledgers by their names.

ghost use Rattle.std.specs.Prelude.{◌≡◌, IfSome, OnOk, OnErr};
ghost use Rattle.lg_containers.specs.NameTable as table;
ghost use Rattle.lg_book.specs.Index.{CanAdd, CanPrepare, index_added, index_forgotten, index_made, index_prepared, new_index, put_changed};

use crate::ledger_index::LedgerIndex;
use crate::volumes::FirstVolumes;
use lg_containers::{Duplicate, LedgerName, LedgerNameGrammar, Shared};
use lg_maps::NameMap;
use lg_types::{Entry, EntryBody, NoMemory};
use std::alloc::Global;

/// The indexes of the ledgers by their names.
pub(crate) type Ledgers = NameMap<LedgerNameGrammar, LedgerIndex>;

/// Prepares a ledger, made by the event at the place.
pub(crate) fn prepare_made(
    alloc: Global,
    ledgers: &mut Ledgers,
    name: &LedgerName,
    made: usize,
) -> Result<(), NoMemory>
    ensures ok { OnOk result (ledgers.new ≡ table.insert ledgers.old name.now (new_index made)) }
    ensures err { OnErr result (ledgers.new ≡ ledgers.old) }
{
    ledgers.put(name.copy(alloc)?, LedgerIndex::new(alloc, made))
}

/// Prepares an entry of the ledger, at the place among the events.
pub(crate) fn prepare_logged(
    alloc: Global,
    ledgers: &mut Ledgers,
    name: &LedgerName,
    place: usize,
    entry: &Entry,
    volumes: &Shared<FirstVolumes>,
) -> Result<(), NoMemory>
    requires { IfSome (table.get ledgers.old name.now) (λ x. CanPrepare x.transactions entry.now.body) }
    ensures ok { OnOk result (ledgers.new ≡ put_changed name.now (index_prepared place entry.now volumes.now) ledgers.old) }
    ensures err { OnErr result (ledgers.new ≡ ledgers.old) }
{
    match ledgers.find(name.bytes()) {
        Some(_) => {
            let index = ledgers.value_mut(name.bytes());
            index.prepare(alloc, place, entry, volumes)
        }
        None => Ok(()),
    }
}

/// Adds the prepared ledger. Takes no memory.
pub(crate) fn add_made(ledgers: &mut Ledgers, name: &LedgerName)
    ensures { ledgers.new ≡ put_changed name.now index_made ledgers.old }
{
    match ledgers.find(name.bytes()) {
        Some(_) => {
            let index = ledgers.value_mut(name.bytes());
            index.set_there();
        }
        None => {}
    }
}

/// Adds the first prepared entry of the ledger, which is the one given. Takes no memory.
pub(crate) fn add_logged(ledgers: &mut Ledgers, name: &LedgerName, entry: &Entry)
    requires { IfSome (table.get ledgers.old name.now) (λ x. CanAdd entry.now x) }
    ensures { ledgers.new ≡ put_changed name.now (index_added entry.now) ledgers.old }
{
    match ledgers.find(name.bytes()) {
        Some(_) => {
            let index = ledgers.value_mut(name.bytes());
            index.add(entry);
        }
        None => {}
    }
}

/// Gives up the prepared ledger.
pub(crate) fn forget_made(ledgers: &mut Ledgers, name: &LedgerName)
    ensures { ledgers.new ≡ table.remove ledgers.old name.now }
{
    let _index = ledgers.take(name.bytes());
}

/// Gives up a prepared entry of the ledger.
pub(crate) fn forget_logged(ledgers: &mut Ledgers, name: &LedgerName, body: &EntryBody)
    ensures { ledgers.new ≡ put_changed name.now (index_forgotten body.now) ledgers.old }
{
    match ledgers.find(name.bytes()) {
        Some(_) => {
            let index = ledgers.value_mut(name.bytes());
            index.forget(body);
        }
        None => {}
    }
}
