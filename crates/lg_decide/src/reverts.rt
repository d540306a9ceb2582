//! What a revert comes to.

ghost use Rattle.std.specs.Prelude.{◌≡◌, ◌+◌, ◌^◌, ◌<◌, Bool, List, IfOk, length, map, unwrap_or};
ghost use Rattle.lg_types.specs.declared.calls.Write.TheVariants.{Revert};
ghost use Rattle.lg_types.specs.declared.records.Entry.{Entry};
ghost use Rattle.lg_types.specs.Known.{Dated, transactions as transactions_of};
ghost use Rattle.lg_types.specs.Trial.{exchanged as exchanged_posting, reverting as reverting_postings};
ghost use Rattle.lg_views.specs.Writes.{decided, revert_body as body_of_revert, revert_metadata as metadata_of_revert, revert_timestamp as timestamp_of_revert};
ghost use Rattle.lg_decide.specs.Looking.{Shows};

use crate::looked::Looked;
use itoa::Buffer;
use lg_types::{
    Duplicate, EntryBody, Meta, NoMemory, Posting, Postings, Refusal, Text, Transaction,
};
use lg_views::Decided;
use std::alloc::Global;

/// What a revert without a key that is kept comes to: the refusal of an id that isn't there first, then that of a
/// transaction that is reverted, then that of its postings.
pub fn decide_revert(
    alloc: Global,
    date: &i64,
    id: u64,
    at_effective_date: bool,
    looked: &Looked<'_>,
    trial: Option<Refusal>,
) -> Result<Decided, NoMemory>
    requires { looked.now.transactions + 1 < 2 ^ 64 }
    ensures { IfOk result (λ d. (g : List Entry) (force : Bool) → Shows g (Revert id force at_effective_date) looked.now trial → d ≡ decided g date.now (Revert id force at_effective_date)) }
{
    let Some(original) = looked.transaction else {
        return Ok(Decided::Denied(Refusal::NoTransaction { id }));
    };
    match looked.reverted_by {
        Some(by) => return Ok(Decided::Denied(Refusal::Already { id, by })),
        None => {}
    }
    match trial {
        Some(refusal) => return Ok(Decided::Denied(refusal)),
        None => {}
    }
    let body = revert_body(
        alloc,
        looked.transactions,
        date,
        id,
        at_effective_date,
        original,
    )?;
    Ok(Decided::Granted(body))
}

/// What the entry of a revert records, on a log of so many transactions.
fn revert_body(
    alloc: Global,
    transactions: u64,
    date: &i64,
    id: u64,
    at_effective_date: bool,
    original: &Transaction,
) -> Result<EntryBody, NoMemory>
    requires { transactions + 1 < 2 ^ 64 }
    ensures { IfOk result (λ body. (g : List Entry) (d : Dated) → transactions ≡ length (transactions_of g) → d.transaction ≡ original.now → body ≡ body_of_revert g date.now id at_effective_date d) }
{
    let transaction = Transaction {
        id: transactions + 1,
        postings: reverting(alloc, &original.postings)?,
        metadata: revert_metadata(alloc, id)?,
        reference: None,
        timestamp: revert_timestamp(date, at_effective_date, original),
    };
    Ok(EntryBody::Reverted {
        reverted: id,
        transaction,
    })
}

/// The effective date of a revert: the original's where that is asked, and else the entry's date.
fn revert_timestamp(date: &i64, at_effective_date: bool, original: &Transaction) -> i64
    ensures { (d : Dated) → d.transaction ≡ original.now → result ≡ unwrap_or (timestamp_of_revert at_effective_date d) date.now }
{
    if at_effective_date {
        original.timestamp
    } else {
        *date
    }
}

/// The postings of a revert: from the last to the first, each with its source and its destination exchanged.
fn reverting(alloc: Global, postings: &Postings) -> Result<Postings, NoMemory>
    ensures { IfOk result (λ ps. ps ≡ reverting_postings postings.now) }
{
    let mut items = exchanged_all(alloc, postings.as_slice())?;
    items.reverse();
    match Postings::from_vec(items) {
        Some(postings) => Ok(postings),
        None => unreachable!(),
    }
}

/// The postings, in their order, each with its source and its destination exchanged.
fn exchanged_all(alloc: Global, postings: &[Posting]) -> Result<Vec<Posting>, NoMemory>
    ensures { IfOk result (λ ps. ps.items ≡ map exchanged_posting postings.now) }
{
    let mut items = Vec::with_capacity(alloc, postings.len())?;
    for posting in postings {
        items.push(exchanged(alloc, posting)?)?;
    }
    Ok(items)
}

fn exchanged(alloc: Global, posting: &Posting) -> Result<Posting, NoMemory>
    ensures { IfOk result (λ p. p ≡ exchanged_posting posting.now) }
{
    Ok(Posting {
        source: posting.destination.copy(alloc)?,
        destination: posting.source.copy(alloc)?,
        asset: posting.asset.copy(alloc)?,
        amount: posting.amount,
    })
}

/// The metadata of a revert: the id that it reverts, in decimal.
fn revert_metadata(alloc: Global, id: u64) -> Result<Meta, NoMemory>
    ensures { IfOk result (λ metadata. metadata ≡ metadata_of_revert id) }
{
    let name = text_of(alloc, "com.formance.spec/state/reverts")?;
    let mut buffer = Buffer::new();
    let value = text_of(alloc, buffer.format(id))?;
    let mut metadata = Meta::new(alloc);
    metadata.put(name, value)?;
    Ok(metadata)
}

fn text_of(alloc: Global, text: &str) -> Result<Text, NoMemory>
    ensures { IfOk result (λ copied. copied ≡ text.now) }
{
    Ok(Text::from_vec(Vec::from_slice(alloc, text.as_bytes())?))
}
