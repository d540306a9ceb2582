//! First replies.

ghost use Rattle.std.specs.Prelude.{◌≡◌, ℤ, Some, IfOk, List};
ghost use Rattle.lg_types.specs.declared.records.Entry.{Entry};
ghost use Rattle.lg_types.specs.Moves.{Placed};
ghost use Rattle.lg_views.specs.Replies.{plain};
ghost use Rattle.lg_views.specs.Views.{new_view as new_view_of};
ghost use Rattle.lg_views.specs.Writes.{first_reply};
ghost use Rattle.lg_book.specs.FirstVolumes.{entry_volumes, transaction_volumes};

use crate::volumes::FirstVolumes;
use lg_containers::Duplicate;
use lg_types::{Entry, EntryBody, NoMemory, Transaction};
use lg_views::{Content, Reply, TransactionView};
use std::alloc::Global;

/// The first reply of an entry, with the volumes of its transaction right after it.
pub fn reply_of(alloc: Global, entry: &Entry, volumes: &FirstVolumes) -> Result<Reply, NoMemory>
    ensures { IfOk result (λ reply. (g : List Entry) → volumes.now ≡ entry_volumes g entry.now → reply ≡ plain (first_reply g entry.now)) }
{
    let content = content_of(alloc, entry, volumes)?;
    Ok(Reply {
        hit: false,
        content,
    })
}

fn content_of(alloc: Global, entry: &Entry, volumes: &FirstVolumes) -> Result<Content, NoMemory>
    ensures { IfOk result (λ content. (g : List Entry) → volumes.now ≡ entry_volumes g entry.now → content ≡ first_reply g entry.now) }
{
    match &entry.body {
        EntryBody::NewTransaction { transaction, .. } => Ok(Content::Created(view_of(
            alloc,
            transaction,
            entry.date,
            volumes,
        )?)),
        EntryBody::SetMetadata { .. } => Ok(Content::Empty),
        EntryBody::Reverted { transaction, .. } => Ok(Content::Reverted(view_of(
            alloc,
            transaction,
            entry.date,
            volumes,
        )?)),
        EntryBody::DeleteMetadata { .. } => Ok(Content::Empty),
    }
}

fn view_of(
    alloc: Global,
    transaction: &Transaction,
    date: i64,
    volumes: &FirstVolumes,
) -> Result<TransactionView, NoMemory>
    ensures { IfOk result (λ view. (ms : List Placed) → volumes.now ≡ transaction_volumes ms date (Some transaction.now) → view ≡ new_view_of ms (record { date = date; transaction = transaction.now })) }
{
    Ok(TransactionView {
        id: transaction.id,
        postings: transaction.postings.copy(alloc)?,
        metadata: transaction.metadata.copy(alloc)?,
        reference: transaction.reference.copy(alloc)?,
        timestamp: transaction.timestamp,
        inserted_at: date,
        reverted: false,
        reverted_at: None,
        pre_commit_volumes: Some(volumes.pre_commit_volumes.share()?),
        post_commit_volumes: Some(volumes.post_commit_volumes.share()?),
        pre_commit_effective_volumes: Some(volumes.pre_commit_effective_volumes.share()?),
        post_commit_effective_volumes: Some(volumes.post_commit_effective_volumes.share()?),
    })
}
