//! Changes of the metadata of accounts of a ledger, as far as the accounts are of the stripe.

ghost use Rattle.std.specs.Prelude.{◌≡◌, ℕ, ◌<◌, ◌≤◌, ◌≤ℤ◌, List, length, sum_by, OnOk, OnErr, IfSome};
ghost use Rattle.std.specs.List.{flat_map};
ghost use Rattle.lg_meta.specs.MetaFold.{last_date};
ghost use Rattle.lg_shard.specs.Accounts.{history_at, SameHistories, SameSlots};
ghost use Rattle.lg_shard.specs.Histories.{given_count, own_change, own_count, own_given, with_all_prepared, with_applied, without_last};

use crate::accounts::{Accounts, apply_change, forget_change, prepare_change};
use crate::entry_moves::is_own;
use lg_containers::{Address, Duplicate, Meta, NoMemory, Text};
use lg_types::{LedgerName, MetaChange};
use std::alloc::Global;

/// Prepares a set of the account's metadata, where the account is of the stripe.
pub fn prepare_set(
    alloc: Global,
    accounts: &mut Accounts,
    stripe: u8,
    ledger: &LedgerName,
    account: &Address,
    metadata: &Meta,
) -> Result<(), NoMemory>
    ensures slots { SameSlots accounts.old accounts.new }
    ensures ok { OnOk result ((a : List ℕ) → history_at accounts.new a ≡ with_all_prepared (history_at accounts.old a) (own_change stripe ledger.now account.now (MetaChange.Set metadata.now) a)) }
    ensures err { OnErr result (SameHistories accounts.old accounts.new) }
{
    if is_own(stripe, ledger, account) {
        let change = MetaChange::Set(metadata.copy(alloc)?);
        prepare_change(alloc, accounts, account, &change)
    } else {
        Ok(())
    }
}

/// Prepares a drop of one name of the account's metadata, where the account is of the stripe.
pub fn prepare_drop(
    alloc: Global,
    accounts: &mut Accounts,
    stripe: u8,
    ledger: &LedgerName,
    account: &Address,
    name: &Text,
) -> Result<(), NoMemory>
    ensures slots { SameSlots accounts.old accounts.new }
    ensures ok { OnOk result ((a : List ℕ) → history_at accounts.new a ≡ with_all_prepared (history_at accounts.old a) (own_change stripe ledger.now account.now (MetaChange.Drop name.now) a)) }
    ensures err { OnErr result (SameHistories accounts.old accounts.new) }
{
    if is_own(stripe, ledger, account) {
        let change = MetaChange::Drop(name.copy(alloc)?);
        prepare_change(alloc, accounts, account, &change)
    } else {
        Ok(())
    }
}

/// Gives up the change of the account that was prepared last, where the account is of the stripe.
pub fn forget_own(accounts: &mut Accounts, stripe: u8, ledger: &LedgerName, account: &Address)
    ensures slots { SameSlots accounts.old accounts.new }
    ensures histories { (a : List ℕ) → history_at accounts.new a ≡ without_last (history_at accounts.old a) (own_count stripe ledger.now account.now a) }
{
    if is_own(stripe, ledger, account) {
        forget_change(accounts, account);
    }
}

/// Applies the first prepared change of the account at the date, where the account is of the stripe.
pub fn apply_own(
    accounts: &mut Accounts,
    stripe: u8,
    ledger: &LedgerName,
    account: &Address,
    date: &i64,
)
    requires room { (a : List ℕ) → own_count stripe ledger.now account.now a ≤ length (history_at accounts.old a).prepared }
    requires later { (a : List ℕ) → 0 < own_count stripe ledger.now account.now a → IfSome (last_date (history_at accounts.old a).changes) (λ last. last ≤ℤ date.now) }
    ensures slots { SameSlots accounts.old accounts.new }
    ensures histories { (a : List ℕ) → history_at accounts.new a ≡ with_applied date.now (history_at accounts.old a) (own_count stripe ledger.now account.now a) }
{
    if is_own(stripe, ledger, account) {
        apply_change(accounts, account, date);
    }
}

/// Prepares a set of the metadata given for each account of the stripe.
pub fn prepare_given(
    alloc: Global,
    accounts: &mut Accounts,
    stripe: u8,
    ledger: &LedgerName,
    given: &[(Address, Meta)],
) -> Result<(), NoMemory>
    ensures slots { SameSlots accounts.old accounts.new }
    ensures ok { OnOk result ((a : List ℕ) → history_at accounts.new a ≡ with_all_prepared (history_at accounts.old a) (flat_map (own_given stripe ledger.now a) given.now)) }
    ensures err { OnErr result (SameHistories accounts.old accounts.new) }
{
    for done in 0..given.len() {
        let pair = &given[done];
        match prepare_set(alloc, accounts, stripe, ledger, &pair.0, &pair.1) {
            Ok(()) => {}
            Err(error) => {
                forget_given(accounts, stripe, ledger, &given[..done]);
                return Err(error);
            }
        }
    }
    Ok(())
}

/// Gives up the last prepared change of each account of the stripe.
pub fn forget_given(
    accounts: &mut Accounts,
    stripe: u8,
    ledger: &LedgerName,
    given: &[(Address, Meta)],
)
    ensures slots { SameSlots accounts.old accounts.new }
    ensures histories { (a : List ℕ) → history_at accounts.new a ≡ without_last (history_at accounts.old a) (sum_by (given_count stripe ledger.now a) given.now) }
{
    for pair in given {
        forget_own(accounts, stripe, ledger, &pair.0);
    }
}

/// Applies the first prepared change of each account of the stripe at the date.
pub fn apply_given(
    accounts: &mut Accounts,
    stripe: u8,
    ledger: &LedgerName,
    given: &[(Address, Meta)],
    date: &i64,
)
    requires room { (a : List ℕ) → sum_by (given_count stripe ledger.now a) given.now ≤ length (history_at accounts.old a).prepared }
    requires later { (a : List ℕ) → 0 < sum_by (given_count stripe ledger.now a) given.now → IfSome (last_date (history_at accounts.old a).changes) (λ last. last ≤ℤ date.now) }
    ensures slots { SameSlots accounts.old accounts.new }
    ensures histories { (a : List ℕ) → history_at accounts.new a ≡ with_applied date.now (history_at accounts.old a) (sum_by (given_count stripe ledger.now a) given.now) }
{
    for pair in given {
        apply_own(accounts, stripe, ledger, &pair.0, date);
    }
}
