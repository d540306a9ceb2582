//! What a creation comes to.

ghost use Rattle.std.specs.Prelude.{◌≡◌, ◌+◌, ◌^◌, ◌<◌, List, IfOk, length};
ghost use Rattle.std.specs.Option.{option_and_then, unwrap_or};
ghost use Rattle.lg_types.specs.declared.records.Entry.{Entry};
ghost use Rattle.lg_types.specs.declared.records.EntryBody.TheVariants.{NewTransaction};
ghost use Rattle.lg_types.specs.Known.{used as used_in, transactions as transactions_of};
ghost use Rattle.lg_types.specs.Lists.{or_else};
ghost use Rattle.lg_views.specs.Writes.{granted_unless, new_transaction, is_used};

use lg_types::{
    AccountMeta, Duplicate, EntryBody, Meta, NoMemory, Postings, Reference, Refusal, Transaction,
};
use lg_views::Decided;
use std::alloc::Global;

/// What a creation without a key that is kept comes to, on a log of so many transactions: the refusal of its postings
/// first, then that of its reference.
pub fn decide_creation(
    alloc: Global,
    transactions: u64,
    date: &i64,
    postings: &Postings,
    reference: &Option<Reference>,
    timestamp: &Option<i64>,
    metadata: &Meta,
    accounts: &AccountMeta,
    used: Option<u64>,
    trial: Option<Refusal>,
) -> Result<Decided, NoMemory>
    requires { transactions + 1 < 2 ^ 64 }
    ensures { IfOk result (λ d. (g : List Entry) → transactions ≡ length (transactions_of g) → used ≡ option_and_then (used_in g) reference.now → d ≡ granted_unless (or_else trial (is_used g reference.now)) (NewTransaction (new_transaction g date.now postings.now metadata.now reference.now timestamp.now) accounts.now)) }
{
    match trial {
        Some(refusal) => return Ok(Decided::Denied(refusal)),
        None => {}
    }
    match refuse_used(alloc, reference, used)? {
        Some(refusal) => return Ok(Decided::Denied(refusal)),
        None => {}
    }
    let body = creation_body(
        alloc,
        transactions,
        date,
        postings,
        reference,
        timestamp,
        metadata,
        accounts,
    )?;
    Ok(Decided::Granted(body))
}

/// The refusal of a reference that a transaction has.
fn refuse_used(
    alloc: Global,
    reference: &Option<Reference>,
    used: Option<u64>,
) -> Result<Option<Refusal>, NoMemory>
    ensures { IfOk result (λ r. (g : List Entry) → used ≡ option_and_then (used_in g) reference.now → r ≡ is_used g reference.now) }
{
    let (Some(reference), Some(id)) = (reference, used) else {
        return Ok(None);
    };
    Ok(Some(Refusal::Used {
        reference: reference.copy(alloc)?,
        id,
    }))
}

/// What the entry of a creation records, on a log of so many transactions.
pub fn creation_body(
    alloc: Global,
    transactions: u64,
    date: &i64,
    postings: &Postings,
    reference: &Option<Reference>,
    timestamp: &Option<i64>,
    metadata: &Meta,
    accounts: &AccountMeta,
) -> Result<EntryBody, NoMemory>
    requires { transactions + 1 < 2 ^ 64 }
    ensures { IfOk result (λ body. (g : List Entry) → transactions ≡ length (transactions_of g) → body ≡ NewTransaction (new_transaction g date.now postings.now metadata.now reference.now timestamp.now) accounts.now) }
{
    let transaction = Transaction {
        id: transactions + 1,
        postings: postings.copy(alloc)?,
        metadata: metadata.copy(alloc)?,
        reference: reference.copy(alloc)?,
        timestamp: timestamp_of(timestamp, date),
    };
    Ok(EntryBody::NewTransaction {
        transaction,
        accounts: accounts.copy(alloc)?,
    })
}

fn timestamp_of(timestamp: &Option<i64>, date: &i64) -> i64
    ensures { result ≡ unwrap_or timestamp.now date.now }
{
    match timestamp {
        Some(given) => *given,
        None => *date,
    }
}
