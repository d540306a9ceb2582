//! The first reply of an entry that has the key of an element.

ghost use Rattle.std.specs.Prelude.{◌≡◌, ◌++◌, ℕ, IfOk, IsSome, List, Option, Some, length, slice_get};
ghost use Rattle.lg_types.specs.declared.records.Entry.{Entry};
ghost use Rattle.lg_types.specs.Log.{log};
ghost use Rattle.lg_views.specs.Writes.{first_reply, up_to};
ghost use Rattle.lg_book.specs.FirstVolumes.{entry_volumes};
ghost use Rattle.lg_book.specs.Reading.{find_entry};
ghost use Rattle.lg_shard.specs.State.{StripeState};
ghost use Rattle.lg_bulk.specs.Gathering.{Ground, IsGathered};

use crate::gathered::Gathered;
use lg_book::{Book, reply_of};
use lg_types::{LedgerName, NoMemory};
use lg_views::Content;
use std::alloc::Global;

/// The first reply of the entry of the id: an entry of the book's, where the ledger has so many, or one that was gathered.
pub fn kept_content(
    alloc: Global,
    ledger: &LedgerName,
    entry: u64,
    logged: u64,
    book: &Book,
    gathered: &Gathered,
) -> Result<Content, NoMemory>
    requires ground { (lent : ℕ → Option StripeState) × Ground lent book.now.events ledger.now }
    requires logged { logged ≡ length (log book.now.events ledger.now) }
    requires gathered { IsGathered (log book.now.events ledger.now) gathered.now }
    requires found { IsSome (find_entry (log book.now.events ledger.now ++ gathered.now.entries) entry) }
    ensures { IfOk result (λ content. (e : Entry) → find_entry (log book.now.events ledger.now ++ gathered.now.entries) entry ≡ Some e → content ≡ first_reply (up_to (log book.now.events ledger.now ++ gathered.now.entries) e) e) }
{
    if logged < entry {
        return gathered_content(alloc, (entry - logged - 1) as usize, gathered);
    }
    let reply = book.first_reply(ledger, entry)?;
    Ok(reply.content)
}

/// The first reply of the entry at the place among those that were gathered.
fn gathered_content(alloc: Global, place: usize, gathered: &Gathered) -> Result<Content, NoMemory>
    requires entry { IsSome (slice_get gathered.now.entries place) }
    requires volumes { IsSome (slice_get gathered.now.volumes place) }
    ensures { IfOk result (λ content. (g : List Entry) (e : Entry) → slice_get gathered.now.entries place ≡ Some e → slice_get gathered.now.volumes place ≡ Some (entry_volumes g e) → content ≡ first_reply g e) }
{
    let entry = gathered.entries.get(place);
    let volumes = gathered.volumes.get(place);
    let (Some(entry), Some(volumes)) = (entry, volumes) else {
        unreachable!()
    };
    let reply = reply_of(alloc, entry, volumes)?;
    Ok(reply.content)
}
