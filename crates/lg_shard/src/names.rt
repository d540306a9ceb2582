//! The key and the reference of an entry in the tables of its ledger, where they are of the stripe.

ghost use Rattle.std.specs.Prelude.{◌≡◌, None, IfOk};
ghost use Rattle.std.specs.Option.{option_copied};
ghost use Rattle.lg_types.specs.Moves.{body_transaction};
ghost use Rattle.lg_shard.specs.Names.{key_in, reference_in, names_in};

use crate::stripes::stripe_of;
use lg_containers::{Duplicate, Key, NoMemory, Reference};
use lg_types::{Class, Entry, EntryBody, KeyMark, LedgerName, Transaction};
use std::alloc::Global;

/// The names of the stripe that an event brings into the tables, copied before they are needed.
#[derive(Drop)]
pub struct Names {
    pub(crate) key: Option<Key>,
    pub(crate) reference: Option<Reference>,
}

impl Names {
    pub fn none() -> Names
        ensures { (result.key ≡ None) × (result.reference ≡ None) }
    {
        Names {
            key: None,
            reference: None,
        }
    }
}

/// The transaction that an entry made.
pub fn transaction_of(body: &EntryBody) -> Option<&Transaction>
    ensures { option_copied result ≡ body_transaction body.now }
{
    match body {
        EntryBody::NewTransaction { transaction, .. } => Some(transaction),
        EntryBody::Reverted { transaction, .. } => Some(transaction),
        EntryBody::SetMetadata { .. } => None,
        EntryBody::DeleteMetadata { .. } => None,
    }
}

fn own_key(
    alloc: Global,
    stripe: u8,
    ledger: &LedgerName,
    mark: &Option<KeyMark>,
) -> Result<Option<Key>, NoMemory>
    ensures { IfOk result (λ key. key ≡ key_in stripe ledger.now mark.now) }
{
    match mark {
        Some(mark) => {
            if stripe_of(Class::Key, ledger, mark.key.bytes()) == stripe {
                Ok(Some(mark.key.copy(alloc)?))
            } else {
                Ok(None)
            }
        }
        None => Ok(None),
    }
}

fn own_reference(
    alloc: Global,
    stripe: u8,
    ledger: &LedgerName,
    transaction: Option<&Transaction>,
) -> Result<Option<Reference>, NoMemory>
    ensures { IfOk result (λ reference. reference ≡ reference_in stripe ledger.now (option_copied transaction.entry)) }
{
    match transaction {
        Some(transaction) => match &transaction.reference {
            Some(reference) => {
                if stripe_of(Class::Reference, ledger, reference.bytes()) == stripe {
                    Ok(Some(reference.copy(alloc)?))
                } else {
                    Ok(None)
                }
            }
            None => Ok(None),
        },
        None => Ok(None),
    }
}

/// Copies of the names of the entry that are of the stripe.
pub fn own_names(
    alloc: Global,
    stripe: u8,
    ledger: &LedgerName,
    entry: &Entry,
) -> Result<Names, NoMemory>
    ensures { IfOk result (λ names. names ≡ names_in stripe ledger.now entry.now) }
{
    Ok(Names {
        key: own_key(alloc, stripe, ledger, &entry.mark)?,
        reference: own_reference(alloc, stripe, ledger, transaction_of(&entry.body))?,
    })
}
