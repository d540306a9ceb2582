//! The transactions of earlier entries.

ghost use Rattle.std.specs.Prelude.{◌≡◌, ◌+◌, ◌<◌, ◌^◌, [], ◌∷◌, length};
ghost use Rattle.std.specs.Option.{option_copied};
ghost use Rattle.lg_types.specs.Known.{transactions};
ghost use Rattle.lg_types.specs.Moves.{body_transaction};
ghost use Rattle.lg_decide.specs.Looking.{transaction_at, reverted_by};

use lg_types::{Entry, EntryBody, Transaction};

/// The transaction that an entry made.
pub fn transaction_of(body: &EntryBody) -> Option<&Transaction>
    ensures { option_copied result ≡ body_transaction body.now }
{
    match body {
        EntryBody::NewTransaction { transaction, .. } => Some(transaction),
        EntryBody::SetMetadata { .. } => None,
        EntryBody::Reverted { transaction, .. } => Some(transaction),
        EntryBody::DeleteMetadata { .. } => None,
    }
}

/// So many transactions with those of the entries.
pub fn count_with(count: u64, entries: &[Entry]) -> u64
    requires { count + length entries.now < 2 ^ 64 }
    ensures { result ≡ count + length (transactions entries.now) }
{
    let mut total = count;
    for entry in entries {
        total += made_by(entry);
    }
    total
}

/// How many transactions an entry made: one at most.
fn made_by(entry: &Entry) -> u64
    ensures { result ≡ length (transactions (entry.now ∷ [])) }
{
    match transaction_of(&entry.body) {
        Some(_) => 1,
        None => 0,
    }
}

/// The transaction of the id among those of the entries.
pub fn find_made(entries: &[Entry], id: u64) -> Option<&Transaction>
    ensures { option_copied result ≡ transaction_at entries.now id }
{
    for entry in entries {
        match made_as(entry, id) {
            Some(made) => return Some(made),
            None => {}
        }
    }
    None
}

/// The entry's transaction, where it has the id.
fn made_as(entry: &Entry, id: u64) -> Option<&Transaction>
    ensures { option_copied result ≡ transaction_at (entry.now ∷ []) id }
{
    match transaction_of(&entry.body) {
        Some(made) => { if made.id == id { Some(made) } else { None } }
        None => None,
    }
}

/// The id of the transaction of the entries that reverts the transaction of the id.
pub fn find_reverting(entries: &[Entry], id: u64) -> Option<u64>
    ensures { result ≡ reverted_by entries.now id }
{
    for entry in entries {
        match reverting(entry, id) {
            Some(by) => return Some(by),
            None => {}
        }
    }
    None
}

/// The id of the entry's transaction, where it reverts the transaction of the id.
fn reverting(entry: &Entry, id: u64) -> Option<u64>
    ensures { result ≡ reverted_by (entry.now ∷ []) id }
{
    match &entry.body {
        EntryBody::NewTransaction { .. } => None,
        EntryBody::SetMetadata { .. } => None,
        EntryBody::Reverted {
            reverted,
            transaction,
        } => {
            if *reverted == id {
                Some(transaction.id)
            } else {
                None
            }
        }
        EntryBody::DeleteMetadata { .. } => None,
    }
}
