//! What an entry changes of the metadata of its ledger's accounts, as far as the accounts are of the stripe.

ghost use Rattle.std.specs.Prelude.{◌≡◌, ℕ, ◌<◌, ◌≤◌, ℤ, ◌≤ℤ◌, List, length, OnOk, OnErr, IfSome};
ghost use Rattle.lg_meta.specs.MetaFold.{last_date};
ghost use Rattle.lg_shard.specs.Accounts.{history_at, SameHistories, SameSlots};
ghost use Rattle.lg_shard.specs.Histories.{body_on, target_count, with_all_prepared, with_applied, without_last};

use crate::accounts::Accounts;
use crate::changes::{
    apply_given, apply_own, forget_given, forget_own, prepare_drop, prepare_given, prepare_set,
};
use lg_containers::{Meta, NoMemory, Text};
use lg_types::{EntryBody, LedgerName, Target};
use std::alloc::Global;

// Prepares a set of the target's metadata.
fn prepare_set_of(
    alloc: Global,
    accounts: &mut Accounts,
    stripe: u8,
    ledger: &LedgerName,
    target: &Target,
    metadata: &Meta,
) -> Result<(), NoMemory>
    ensures slots { SameSlots accounts.old accounts.new }
    ensures ok { OnOk result ((date : ℤ) (a : List ℕ) → history_at accounts.new a ≡ with_all_prepared (history_at accounts.old a) (body_on stripe ledger.now date (EntryBody.SetMetadata target.now metadata.now) a)) }
    ensures err { OnErr result (SameHistories accounts.old accounts.new) }
{
    match target {
        Target::Account(account) => {
            prepare_set(alloc, accounts, stripe, ledger, account, metadata)
        }
        Target::Transaction(_) => Ok(()),
    }
}

// Prepares a drop of one name of the target's metadata.
fn prepare_drop_of(
    alloc: Global,
    accounts: &mut Accounts,
    stripe: u8,
    ledger: &LedgerName,
    target: &Target,
    name: &Text,
) -> Result<(), NoMemory>
    ensures slots { SameSlots accounts.old accounts.new }
    ensures ok { OnOk result ((date : ℤ) (a : List ℕ) → history_at accounts.new a ≡ with_all_prepared (history_at accounts.old a) (body_on stripe ledger.now date (EntryBody.DeleteMetadata target.now name.now) a)) }
    ensures err { OnErr result (SameHistories accounts.old accounts.new) }
{
    match target {
        Target::Account(account) => prepare_drop(alloc, accounts, stripe, ledger, account, name),
        Target::Transaction(_) => Ok(()),
    }
}

// Gives up the change of the target that was prepared last.
fn forget_target(accounts: &mut Accounts, stripe: u8, ledger: &LedgerName, target: &Target)
    ensures slots { SameSlots accounts.old accounts.new }
    ensures histories { (a : List ℕ) → history_at accounts.new a ≡ without_last (history_at accounts.old a) (target_count stripe ledger.now target.now a) }
{
    match target {
        Target::Account(account) => forget_own(accounts, stripe, ledger, account),
        Target::Transaction(_) => {}
    }
}

// Applies the first prepared change of the target at the date.
fn apply_target(
    accounts: &mut Accounts,
    stripe: u8,
    ledger: &LedgerName,
    target: &Target,
    date: &i64,
)
    requires room { (a : List ℕ) → target_count stripe ledger.now target.now a ≤ length (history_at accounts.old a).prepared }
    requires later { (a : List ℕ) → 0 < target_count stripe ledger.now target.now a → IfSome (last_date (history_at accounts.old a).changes) (λ last. last ≤ℤ date.now) }
    ensures slots { SameSlots accounts.old accounts.new }
    ensures histories { (a : List ℕ) → history_at accounts.new a ≡ with_applied date.now (history_at accounts.old a) (target_count stripe ledger.now target.now a) }
{
    match target {
        Target::Account(account) => apply_own(accounts, stripe, ledger, account, date),
        Target::Transaction(_) => {}
    }
}

/// Prepares the changes of the entry's body.
pub fn prepare_body(
    alloc: Global,
    accounts: &mut Accounts,
    stripe: u8,
    ledger: &LedgerName,
    body: &EntryBody,
) -> Result<(), NoMemory>
    ensures slots { SameSlots accounts.old accounts.new }
    ensures ok { OnOk result ((date : ℤ) (a : List ℕ) → history_at accounts.new a ≡ with_all_prepared (history_at accounts.old a) (body_on stripe ledger.now date body.now a)) }
    ensures err { OnErr result (SameHistories accounts.old accounts.new) }
{
    match body {
        EntryBody::NewTransaction {
            accounts: given,
            ..
        } => { prepare_given(alloc, accounts, stripe, ledger, given.entries()) }
        EntryBody::SetMetadata { target, metadata } => {
            prepare_set_of(alloc, accounts, stripe, ledger, target, metadata)
        }
        EntryBody::Reverted { .. } => Ok(()),
        EntryBody::DeleteMetadata { target, name } => {
            prepare_drop_of(alloc, accounts, stripe, ledger, target, name)
        }
    }
}

/// Gives up the changes of the entry's body, which were prepared last.
pub fn forget_body(accounts: &mut Accounts, stripe: u8, ledger: &LedgerName, body: &EntryBody)
    ensures slots { SameSlots accounts.old accounts.new }
    ensures histories { (date : ℤ) (a : List ℕ) → history_at accounts.new a ≡ without_last (history_at accounts.old a) (length (body_on stripe ledger.now date body.now a)) }
{
    match body {
        EntryBody::NewTransaction {
            accounts: given,
            ..
        } => {
            forget_given(accounts, stripe, ledger, given.entries());
        }
        EntryBody::SetMetadata { target, .. } => forget_target(accounts, stripe, ledger, target),
        EntryBody::Reverted { .. } => {}
        EntryBody::DeleteMetadata { target, .. } => {
            forget_target(accounts, stripe, ledger, target);
        }
    }
}

/// Applies the changes of the entry's body at the date, the first of those that are prepared.
pub fn apply_body(
    accounts: &mut Accounts,
    stripe: u8,
    ledger: &LedgerName,
    body: &EntryBody,
    date: &i64,
)
    requires room { (a : List ℕ) → length (body_on stripe ledger.now date.now body.now a) ≤ length (history_at accounts.old a).prepared }
    requires later { (a : List ℕ) → 0 < length (body_on stripe ledger.now date.now body.now a) → IfSome (last_date (history_at accounts.old a).changes) (λ last. last ≤ℤ date.now) }
    ensures slots { SameSlots accounts.old accounts.new }
    ensures histories { (a : List ℕ) → history_at accounts.new a ≡ with_applied date.now (history_at accounts.old a) (length (body_on stripe ledger.now date.now body.now a)) }
{
    match body {
        EntryBody::NewTransaction {
            accounts: given,
            ..
        } => {
            apply_given(accounts, stripe, ledger, given.entries(), date);
        }
        EntryBody::SetMetadata { target, .. } => {
            apply_target(accounts, stripe, ledger, target, date);
        }
        EntryBody::Reverted { .. } => {}
        EntryBody::DeleteMetadata { target, .. } => {
            apply_target(accounts, stripe, ledger, target, date);
        }
    }
}
