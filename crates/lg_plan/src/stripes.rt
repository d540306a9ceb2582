//! The stripes that an event touches.

ghost use Rattle.std.specs.Prelude.{◌≡◌, ℕ, ◌<◌, ◌||◌, ◌&&◌, nat_eq, map, Some};
ghost use Rattle.std.specs.List.{flat_map};
ghost use Rattle.std.specs.Option.{option_to_list};
ghost use Rattle.lg_types.specs.Known.{posting_accounts, target_accounts, referred_by, transaction_accounts, transaction_references};
ghost use Rattle.lg_types.specs.Parts.{account_resource, is_in, touches};
ghost use Rattle.lg_turns.specs.Stripes.{has};
ghost use Rattle.lg_plan.specs.Resources.{first_of, has_accounts, has_keys, has_references, body_accounts, body_references};

use lg_containers::{Address, LedgerName, Meta};
use lg_shard::stripe_of;
use lg_turns::StripeSet;
use lg_types::{Class, EntryBody, Event, KeyMark, Posting, Target, Transaction};

/// The stripes that the event has a resource in.
pub(crate) fn event_stripes(event: &Event) -> StripeSet
    ensures { (k : ℕ) → has result k ≡ touches k event.now }
{
    match event {
        Event::Made(_) => StripeSet::none(),
        Event::Logged { ledger, entry } => {
            let set = with_key(StripeSet::none(), ledger, &entry.mark);
            with_body(set, ledger, &entry.body)
        }
    }
}

/// The stripes of both sets.
pub(crate) fn joined(one: StripeSet, other: StripeSet) -> StripeSet
    ensures { (k : ℕ) → has result k ≡ (has one k || has other k) }
{
    let mut all = one;
    for stripe in 0..16u8 {
        all = with_common(all, other, stripe);
    }
    all
}

/// The set with the stripe, where the other has it.
fn with_common(set: StripeSet, other: StripeSet, stripe: u8) -> StripeSet
    requires { stripe < 16 }
    ensures { (k : ℕ) → has result k ≡ ((nat_eq k stripe && has other k) || has set k) }
{
    if other.has(stripe) {
        set.with(stripe)
    } else {
        set
    }
}

/// The set with the stripes of the accounts that the body names and of its transaction's reference.
fn with_body(set: StripeSet, ledger: &LedgerName, body: &EntryBody) -> StripeSet
    ensures { (k : ℕ) → has result k ≡ (has_accounts k ledger.now (body_accounts body.now) || (has_references k ledger.now (body_references body.now) || has set k)) }
{
    match body {
        EntryBody::NewTransaction {
            transaction,
            accounts,
        } => {
            let set = with_transaction(set, ledger, transaction);
            with_given(set, ledger, accounts.entries())
        }
        EntryBody::SetMetadata { target, .. } => with_target(set, ledger, target),
        EntryBody::Reverted { transaction, .. } => with_transaction(set, ledger, transaction),
        EntryBody::DeleteMetadata { target, .. } => with_target(set, ledger, target),
    }
}

/// The set with the stripes of the accounts of the transaction's postings and of its reference.
fn with_transaction(set: StripeSet, ledger: &LedgerName, transaction: &Transaction) -> StripeSet
    ensures { (k : ℕ) → has result k ≡ (has_accounts k ledger.now (transaction_accounts (Some transaction.now)) || (has_references k ledger.now (transaction_references (Some transaction.now)) || has set k)) }
{
    let set = with_reference(set, ledger, transaction);
    with_postings(set, ledger, transaction.postings.as_slice())
}

fn with_key(set: StripeSet, ledger: &LedgerName, mark: &Option<KeyMark>) -> StripeSet
    ensures { (k : ℕ) → has result k ≡ (has_keys k ledger.now (option_to_list mark.now) || has set k) }
{
    match mark {
        Some(mark) => set.with(stripe_of(Class::Key, ledger, mark.key.bytes())),
        None => set,
    }
}

fn with_reference(set: StripeSet, ledger: &LedgerName, transaction: &Transaction) -> StripeSet
    ensures { (k : ℕ) → has result k ≡ (has_references k ledger.now (transaction_references (Some transaction.now)) || has set k) }
{
    match &transaction.reference {
        Some(reference) => set.with(stripe_of(Class::Reference, ledger, reference.bytes())),
        None => set,
    }
}

fn with_account(set: StripeSet, ledger: &LedgerName, name: &[u8]) -> StripeSet
    ensures { (k : ℕ) → has result k ≡ (is_in k ledger.now (account_resource name.now) || has set k) }
{
    set.with(stripe_of(Class::Account, ledger, name))
}

fn with_target(set: StripeSet, ledger: &LedgerName, target: &Target) -> StripeSet
    ensures { (k : ℕ) → has result k ≡ (has_accounts k ledger.now (target_accounts target.now) || has set k) }
{
    match target {
        Target::Account(address) => with_account(set, ledger, address.bytes()),
        Target::Transaction(_) => set,
    }
}

/// The set with the stripes of the accounts of the postings.
fn with_postings(set: StripeSet, ledger: &LedgerName, postings: &[Posting]) -> StripeSet
    ensures { (k : ℕ) → has result k ≡ (has_accounts k ledger.now (flat_map posting_accounts postings.now) || has set k) }
{
    let mut all = set;
    for posting in postings {
        all = with_account(all, ledger, posting.source.bytes());
        all = with_account(all, ledger, posting.destination.bytes());
    }
    all
}

/// The set with the stripes of the accounts that metadata are given for.
fn with_given(set: StripeSet, ledger: &LedgerName, given: &[(Address, Meta)]) -> StripeSet
    ensures { (k : ℕ) → has result k ≡ (has_accounts k ledger.now (map first_of given.now) || has set k) }
{
    let mut all = set;
    for pair in given {
        all = with_account(all, ledger, pair.0.bytes());
    }
    all
}
