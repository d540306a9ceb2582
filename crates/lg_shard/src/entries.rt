//! The moves and the changes of an entry on the accounts of its ledger, as far as the accounts are of the stripe.

ghost use Rattle.std.specs.Prelude.{◌≡◌, ℕ, ◌≤◌, List, ◌++◌, length, OnOk, OnErr};
ghost use Rattle.lg_types.specs.Changes.{Change};
ghost use Rattle.lg_types.specs.Moves.{Placed, pair_moves};
ghost use Rattle.lg_shard.specs.Accounts.{items_at, waiting_at, SameHistories, SameSlots};
ghost use Rattle.lg_shard.specs.Holdings.{ChangesFollow, MovesFollow, own_changes, own_moves};
ghost use Rattle.lg_shard.specs.Ties.{HistoriesTied, MovesTied};

use crate::accounts::Accounts;
use crate::entry_changes::{apply_body, forget_body, prepare_body};
use crate::entry_moves::{apply_postings, release_postings, reserve_postings};
use crate::names::transaction_of;
use lg_containers::NoMemory;
use lg_runs::Steps;
use lg_types::{Entry, LedgerName};
use std::alloc::Global;
use std::sync::ledger::Ledger;

/// Makes room for the moves of the entry.
pub fn reserve_moves(
    alloc: Global,
    accounts: &mut Accounts,
    stripe: u8,
    ledger: &LedgerName,
    entry: &Entry,
) -> Result<(), NoMemory>
    ensures ok { OnOk result ((done ahead : List Placed) → MovesTied accounts.old done ahead → MovesTied accounts.new done (ahead ++ own_moves stripe ledger.now entry.now)) }
    ensures err { OnErr result ((done ahead : List Placed) → MovesTied accounts.old done ahead → MovesTied accounts.new done ahead) }
    ensures histories { SameHistories accounts.old accounts.new }
{
    match transaction_of(&entry.body) {
        Some(transaction) => reserve_postings(
            alloc,
            accounts,
            stripe,
            ledger,
            transaction.postings.as_slice(),
        ),
        None => Ok(()),
    }
}

/// Gives back the room for the moves of the entry.
pub fn release_moves(accounts: &mut Accounts, stripe: u8, ledger: &LedgerName, entry: &Entry)
    ensures tied { (done ahead : List Placed) → MovesTied accounts.old done (ahead ++ own_moves stripe ledger.now entry.now) → MovesTied accounts.new done ahead }
    ensures histories { SameHistories accounts.old accounts.new }
{
    match transaction_of(&entry.body) {
        Some(transaction) => {
            release_postings(accounts, stripe, ledger, transaction.postings.as_slice());
        }
        None => {}
    }
}

/// Applies the moves of the entry, which have room.
pub fn apply_moves<L: Ledger>(
    accounts: &mut Accounts,
    stripe: u8,
    ledger: &LedgerName,
    entry: &Entry,
    steps: &mut Steps<L>,
)
    requires room { (a b : List ℕ) → length (pair_moves (own_moves stripe ledger.now entry.now) a b) ≤ waiting_at accounts.old a b }
    requires follows { (a b : List ℕ) → MovesFollow (items_at accounts.old a b) (pair_moves (own_moves stripe ledger.now entry.now) a b) }
    ensures tied { (done ahead : List Placed) → MovesTied accounts.old done (own_moves stripe ledger.now entry.now ++ ahead) → MovesTied accounts.new (done ++ own_moves stripe ledger.now entry.now) ahead }
    ensures histories { SameHistories accounts.old accounts.new }
{
    match transaction_of(&entry.body) {
        Some(transaction) => {
            apply_postings(
                accounts,
                stripe,
                ledger,
                transaction,
                &entry.date,
                transaction.postings.as_slice(),
                steps,
            );
        }
        None => {}
    }
}

/// Prepares the changes of the entry.
pub fn prepare_changes(
    alloc: Global,
    accounts: &mut Accounts,
    stripe: u8,
    ledger: &LedgerName,
    entry: &Entry,
) -> Result<(), NoMemory>
    ensures slots { SameSlots accounts.old accounts.new }
    ensures ok { OnOk result ((done ahead : List Change) → HistoriesTied accounts.old done ahead → HistoriesTied accounts.new done (ahead ++ own_changes stripe ledger.now entry.now)) }
    ensures err { OnErr result (SameHistories accounts.old accounts.new) }
{
    prepare_body(alloc, accounts, stripe, ledger, &entry.body)
}

/// Gives up the changes of the entry, which were prepared last.
pub fn forget_changes(accounts: &mut Accounts, stripe: u8, ledger: &LedgerName, entry: &Entry)
    ensures slots { SameSlots accounts.old accounts.new }
    ensures tied { (done ahead : List Change) → HistoriesTied accounts.old done (ahead ++ own_changes stripe ledger.now entry.now) → HistoriesTied accounts.new done ahead }
{
    forget_body(accounts, stripe, ledger, &entry.body);
}

/// Applies the changes of the entry, the first of those that are prepared.
pub fn apply_changes(accounts: &mut Accounts, stripe: u8, ledger: &LedgerName, entry: &Entry)
    requires { (done : List Change) × (ahead : List Change) × HistoriesTied accounts.old done (own_changes stripe ledger.now entry.now ++ ahead) × ChangesFollow done (own_changes stripe ledger.now entry.now) }
    ensures slots { SameSlots accounts.old accounts.new }
    ensures tied { (done ahead : List Change) → HistoriesTied accounts.old done (own_changes stripe ledger.now entry.now ++ ahead) → HistoriesTied accounts.new (done ++ own_changes stripe ledger.now entry.now) ahead }
{
    apply_body(accounts, stripe, ledger, &entry.body, &entry.date);
}
