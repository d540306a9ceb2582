//! The stripes that a call needs.

ghost use Rattle.std.specs.Prelude.{◌≡◌, ℕ, ◌||◌, nat_eq, map};
ghost use Rattle.std.specs.List.{list_any, flat_map};
ghost use Rattle.std.specs.Option.{option_copied, option_to_list};
ghost use Rattle.lg_containers.specs.NameTable as table;
ghost use Rattle.lg_types.specs.Known.{posting_accounts, target_accounts, transaction_accounts};
ghost use Rattle.lg_types.specs.Parts.{account_resource, is_in};
ghost use Rattle.lg_types.specs.Stripes.{stripe};
ghost use Rattle.lg_turns.specs.Stripes.{has};
ghost use Rattle.lg_weigh.specs.Reach.{needs, named_key, named_reference, write_resources, write_accounts, write_reference, has_reach, read_reach, first_of};

use lg_containers::Address;
use lg_shard::stripe_of;
use lg_turns::StripeSet;
use lg_types::{
    Call, Class, Key, LedgerName, Meta, Posting, Read, Reference, Target, Transaction, Write,
};

/// The stripes whose resources a call needs: of a write its accounts, its key and its reference; of a read of one
/// account or one transaction its accounts. `known` is the transaction of the id that a revert or a read names.
pub fn stripes_of(call: &Call, known: Option<&Transaction>) -> StripeSet
    ensures { (k : ℕ) → has result k ≡ needs call.now (option_copied known.entry) k }
{
    match call {
        Call::Unreadable(_) => StripeSet::none(),
        Call::MakeLedger { .. } => StripeSet::none(),
        Call::Write { ledger, key, write } => of_write(ledger, key, write, known),
        Call::Bulk { .. } => StripeSet::all(),
        Call::Import { .. } => StripeSet::all(),
        Call::Ledgers { .. } => StripeSet::none(),
        Call::Read { ledger, read } => of_read(ledger, read, known),
    }
}

fn of_read(ledger: &LedgerName, read: &Read, known: Option<&Transaction>) -> StripeSet
    ensures { (k : ℕ) → has result k ≡ has_reach k (read_reach ledger.now read.now (option_copied known.entry)) }
{
    match read {
        Read::Ledger => StripeSet::none(),
        Read::Export => StripeSet::none(),
        Read::Account { address, .. } => with_account(StripeSet::none(), ledger, address.bytes()),
        Read::Transaction { .. } => with_transaction(StripeSet::none(), ledger, known),
        Read::Accounts { .. } => StripeSet::all(),
        Read::Transactions { .. } => StripeSet::all(),
        Read::Logs { .. } => StripeSet::all(),
        Read::Volumes { .. } => StripeSet::all(),
        Read::Aggregate { .. } => StripeSet::all(),
        Read::Stats => StripeSet::all(),
    }
}

fn of_write(
    ledger: &LedgerName,
    key: &Option<Key>,
    write: &Write,
    known: Option<&Transaction>,
) -> StripeSet
    ensures { (k : ℕ) → has result k ≡ list_any (is_in k ledger.now) (write_resources key.now write.now (option_copied known.entry)) }
{
    let set = with_accounts(StripeSet::none(), ledger, write, known);
    with_reference(with_key(set, ledger, key), ledger, reference_of(write))
}

/// The reference that a creation gives.
pub fn reference_of(write: &Write) -> Option<&Reference>
    ensures { option_copied result ≡ write_reference write.now }
{
    match write {
        Write::Create { reference, .. } => reference.as_ref(),
        Write::Revert { .. } => None,
        Write::SetMeta { .. } => None,
        Write::DropMeta { .. } => None,
    }
}

/// The set with the stripes of the accounts that the write names.
fn with_accounts(
    set: StripeSet,
    ledger: &LedgerName,
    write: &Write,
    known: Option<&Transaction>,
) -> StripeSet
    ensures { (k : ℕ) → has result k ≡ (list_any (is_in k ledger.now) (map account_resource (write_accounts write.now (option_copied known.entry))) || has set k) }
{
    match write {
        Write::Create {
            postings,
            accounts,
            ..
        } => {
            with_given(
                with_postings(set, ledger, postings.as_slice()),
                ledger,
                accounts.entries(),
            )
        }
        Write::Revert { .. } => with_transaction(set, ledger, known),
        Write::SetMeta { target, .. } => with_target(set, ledger, target),
        Write::DropMeta { target, .. } => with_target(set, ledger, target),
    }
}

fn with_key(set: StripeSet, ledger: &LedgerName, key: &Option<Key>) -> StripeSet
    ensures { (k : ℕ) → has result k ≡ (list_any (is_in k ledger.now) (map named_key (option_to_list key.now)) || has set k) }
{
    match key {
        Some(key) => set.with(stripe_of(Class::Key, ledger, key.bytes())),
        None => set,
    }
}

fn with_reference(set: StripeSet, ledger: &LedgerName, reference: Option<&Reference>) -> StripeSet
    ensures { (k : ℕ) → has result k ≡ (list_any (is_in k ledger.now) (map named_reference (option_to_list (option_copied reference.entry))) || has set k) }
{
    match reference {
        Some(reference) => set.with(stripe_of(Class::Reference, ledger, reference.bytes())),
        None => set,
    }
}

fn with_account(set: StripeSet, ledger: &LedgerName, name: &[u8]) -> StripeSet
    ensures { (k : ℕ) → has result k ≡ (is_in k ledger.now (account_resource name.now) || has set k) }
{
    set.with(stripe_of(Class::Account, ledger, name))
}

fn with_target(set: StripeSet, ledger: &LedgerName, target: &Target) -> StripeSet
    ensures { (k : ℕ) → has result k ≡ (list_any (is_in k ledger.now) (map account_resource (target_accounts target.now)) || has set k) }
{
    match target {
        Target::Account(address) => with_account(set, ledger, address.bytes()),
        Target::Transaction(_) => set,
    }
}

fn with_transaction(set: StripeSet, ledger: &LedgerName, known: Option<&Transaction>) -> StripeSet
    ensures { (k : ℕ) → has result k ≡ (list_any (is_in k ledger.now) (map account_resource (transaction_accounts (option_copied known.entry))) || has set k) }
{
    match known {
        Some(transaction) => with_postings(set, ledger, transaction.postings.as_slice()),
        None => set,
    }
}

/// The set with the stripes of the accounts of the postings.
fn with_postings(set: StripeSet, ledger: &LedgerName, postings: &[Posting]) -> StripeSet
    ensures { (k : ℕ) → has result k ≡ (list_any (is_in k ledger.now) (map account_resource (flat_map posting_accounts postings.now)) || has set k) }
{
    let mut all = set;
    for posting in postings {
        all = with_account(all, ledger, posting.source.bytes());
        all = with_account(all, ledger, posting.destination.bytes());
    }
    all
}

/// The set with the stripes of the accounts that metadata are given for.
fn with_given(set: StripeSet, ledger: &LedgerName, given: &[(Address, Meta)]) -> StripeSet
    ensures { (k : ℕ) → has result k ≡ (list_any (is_in k ledger.now) (map account_resource (map first_of given.now)) || has set k) }
{
    let mut all = set;
    for pair in given {
        all = with_account(all, ledger, pair.0.bytes());
    }
    all
}
