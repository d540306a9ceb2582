//! One element of a list.

ghost use Rattle.std.specs.Prelude.{◌≡◌, ◌++◌, [], ◌∷◌, IfOk, OnOk, List, length};
ghost use Rattle.lg_types.specs.declared.records.Event.{Event};
ghost use Rattle.lg_types.specs.Log.{log};
ghost use Rattle.lg_views.specs.Bulk.{element_written, good_result};
ghost use Rattle.lg_book.specs.FirstVolumes.{entry_volumes};
ghost use Rattle.lg_bulk.specs.Gathering.{Ground, MayAppend, IsGathered, gathered_with, refusal_in, with_entry};

use crate::gathered::Gathered;
use crate::kept::kept_content;
use crate::results::good_item;
use crate::volumes::volumes_of;
use lg_book::{Book, reply_of};
use lg_listed::{Tried, try_element};
use lg_shard::Shards;
use lg_types::{Element, Entry, LedgerName, NoMemory, Refusal};
use std::alloc::Global;

/// Tries the element over the log of the ledger, which has so many entries, and those that were gathered, and gathers what
/// it comes to. `Some` is the refusal of an element that fails, of which nothing is gathered.
pub fn take_element<S: Shards>(
    alloc: Global,
    ledger: &LedgerName,
    element: &Element,
    now: &i64,
    logged: u64,
    lent: &S,
    book: &Book,
    gathered: &mut Gathered,
) -> Result<Option<Refusal>, NoMemory>
    requires ground { Ground (S.lent lent.now) book.now.events ledger.now }
    requires logged { logged ≡ length (log book.now.events ledger.now) }
    requires gathered { IsGathered (log book.now.events ledger.now) gathered.old }
    ensures refusal { IfOk result (λ refusal. refusal ≡ refusal_in (element_written (log book.now.events ledger.now ++ gathered.old.entries) element.now now.now)) }
    ensures gathered { OnOk result (gathered.new ≡ gathered_with (log book.now.events ledger.now ++ gathered.old.entries) element.now gathered.old (element_written (log book.now.events ledger.now ++ gathered.old.entries) element.now now.now)) }
{
    let earlier = gathered.entries.as_slice();
    let tried = try_element(alloc, ledger, element, now, lent, book, earlier)?;
    match tried {
        Tried::Refused(refusal) => Ok(Some(refusal)),
        Tried::Kept { entry } => {
            let content = kept_content(alloc, ledger, entry, logged, book, gathered)?;
            gathered.results.push(good_item(element, entry, content))?;
            Ok(None)
        }
        Tried::Appended(entry) => {
            take_entry(alloc, ledger, element, entry, lent, gathered)?;
            Ok(None)
        }
    }
}

/// Gathers an entry that the element appends, with the result of the element.
fn take_entry<S: Shards>(
    alloc: Global,
    ledger: &LedgerName,
    element: &Element,
    entry: Entry,
    lent: &S,
    gathered: &mut Gathered,
) -> Result<(), NoMemory>
    requires { (events : List Event) × MayAppend (S.lent lent.now) events ledger.now gathered.old.entries entry }
    ensures { OnOk result ((events : List Event) → MayAppend (S.lent lent.now) events ledger.now gathered.old.entries entry → gathered.new ≡ with_entry gathered.old (good_result element.now ((log events ledger.now ++ gathered.old.entries) ++ entry ∷ []) entry) entry (entry_volumes ((log events ledger.now ++ gathered.old.entries) ++ entry ∷ []) entry)) }
{
    let volumes = volumes_of(alloc, ledger, &entry, gathered.entries.as_slice(), lent)?;
    let reply = reply_of(alloc, &entry, &volumes)?;
    let good = good_item(element, entry.id, reply.content);
    gathered.results.push(good)?;
    gathered.entries.push(entry)?;
    gathered.volumes.push(volumes)
}
