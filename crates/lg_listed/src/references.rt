//! The references of a ledger's log and of earlier entries.

ghost use Rattle.std.specs.Prelude.{◌≡◌, ◌++◌, List, [], ◌∷◌};
ghost use Rattle.std.specs.Option.{option_copied, option_and_then};
ghost use Rattle.lg_types.specs.declared.records.Event.{Event};
ghost use Rattle.lg_types.specs.Known.{used};
ghost use Rattle.lg_types.specs.Log.{log};
ghost use Rattle.lg_weigh.specs.Lent.{AreLent, AreParts};
ghost use Rattle.lg_weigh.specs.Reach.{write_reference};
ghost use Rattle.lg_listed.specs.Elements.{every_stripe};
ghost use Rattle.lg_listed.specs.Trying.{id_if_named};

use crate::found::transaction_of;
use lg_shard::{Shards, stripe_of};
use lg_types::{Class, Entry, LedgerName, Reference, Transaction, Write};

/// The id of the transaction that has the reference of a creation.
pub fn find_used<S: Shards>(
    ledger: &LedgerName,
    write: &Write,
    lent: &S,
    earlier: &[Entry],
) -> Option<u64>
    requires { AreLent every_stripe (S.lent lent.now) }
    ensures { (events : List Event) → AreParts every_stripe (S.lent lent.now) events → result ≡ option_and_then (used (log events ledger.now ++ earlier.now)) (write_reference write.now) }
{
    match reference_of(write) {
        Some(reference) => find_reference(ledger, reference, lent, earlier),
        None => None,
    }
}

/// The reference that a creation gives.
fn reference_of(write: &Write) -> Option<&Reference>
    ensures { option_copied result ≡ write_reference write.now }
{
    match write {
        Write::Create { reference, .. } => reference.as_ref(),
        Write::Revert { .. } => None,
        Write::SetMeta { .. } => None,
        Write::DropMeta { .. } => None,
    }
}

/// The id of the transaction that has the reference, in the ledger's log or among the earlier entries.
fn find_reference<S: Shards>(
    ledger: &LedgerName,
    reference: &Reference,
    lent: &S,
    earlier: &[Entry],
) -> Option<u64>
    requires { AreLent every_stripe (S.lent lent.now) }
    ensures { (events : List Event) → AreParts every_stripe (S.lent lent.now) events → result ≡ used (log events ledger.now ++ earlier.now) reference.now }
{
    match used_logged(ledger, reference, lent) {
        Some(id) => Some(id),
        None => used_earlier(earlier, reference),
    }
}

/// The id of the transaction that the reference's stripe has for the reference.
fn used_logged<S: Shards>(ledger: &LedgerName, reference: &Reference, lent: &S) -> Option<u64>
    requires { AreLent every_stripe (S.lent lent.now) }
    ensures { (events : List Event) → AreParts every_stripe (S.lent lent.now) events → result ≡ used (log events ledger.now) reference.now }
{
    match lent.shard(stripe_of(Class::Reference, ledger, reference.bytes())) {
        Some(shard) => shard.reference(ledger, reference),
        None => unreachable!(),
    }
}

/// The id of the transaction of the entries that has the reference.
fn used_earlier(entries: &[Entry], reference: &Reference) -> Option<u64>
    ensures { result ≡ used entries.now reference.now }
{
    for entry in entries {
        match used_by(entry, reference) {
            Some(id) => return Some(id),
            None => {}
        }
    }
    None
}

/// The id of the entry's transaction, where it has the reference.
fn used_by(entry: &Entry, reference: &Reference) -> Option<u64>
    ensures { result ≡ used (entry.now ∷ []) reference.now }
{
    match transaction_of(&entry.body) {
        Some(made) => id_if_referred(made, reference),
        None => None,
    }
}

/// The id of the transaction, where it has the reference.
fn id_if_referred(made: &Transaction, reference: &Reference) -> Option<u64>
    ensures { result ≡ id_if_named made.now reference.now }
{
    match &made.reference {
        Some(own) => {
            if own.bytes() == reference.bytes() {
                Some(made.id)
            } else {
                None
            }
        }
        None => None,
    }
}
