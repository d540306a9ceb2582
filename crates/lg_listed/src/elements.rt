//! The elements of a list of writes.

ghost use Rattle.std.specs.Prelude.{◌≡◌, ◌++◌, true, Some, IfOk};
ghost use Rattle.lg_types.specs.Log.{log, is_there};
ghost use Rattle.lg_views.specs.Bulk.{element_written};
ghost use Rattle.lg_views.specs.Import.{FollowsFrom};
ghost use Rattle.lg_views.specs.Writes.{written};
ghost use Rattle.lg_weigh.specs.Lent.{AreParts};
ghost use Rattle.lg_listed.specs.Elements.{every_stripe, IsTried};
ghost use Rattle.lg_listed.specs.Trying.{Ground};

use crate::keys::{answer_kept, find_kept};
use crate::limits::totals_within;
use crate::new_entries::try_new;
use crate::tried::Tried;
use lg_book::Book;
use lg_shard::Shards;
use lg_types::{
    Duplicate, Element, ElementWrite, Entry, Key, LedgerName, NoMemory, Refusal, Write,
};
use std::alloc::Global;

/// What an element of a list of writes comes to at the moment `now`, in microseconds since 1970-01-01T00:00:00Z, over the
/// log of a ledger that is there and the entries that earlier elements of the list append. All sixteen shards are lent, as
/// they are after the events of the book; neither they nor the book have the earlier entries.
///
/// An element that can't be read is refused by its own refusal. Memory is wanting, too, where an id would pass 64 bits.
pub fn try_element<S: Shards>(
    alloc: Global,
    ledger: &LedgerName,
    element: &Element,
    now: &i64,
    lent: &S,
    book: &Book,
    earlier: &[Entry],
) -> Result<Tried, NoMemory>
    requires there { is_there book.now.events ledger.now ≡ true }
    requires parts { AreParts every_stripe (S.lent lent.now) book.now.events }
    requires follows { FollowsFrom (log book.now.events ledger.now) earlier.now }
    ensures { IfOk result (λ tried. IsTried (log book.now.events ledger.now ++ earlier.now) (element_written (log book.now.events ledger.now ++ earlier.now) element.now now.now) tried) }
{
    match &element.write {
        ElementWrite::Good(write) => {
            let _count = book.len();
            totals_within(lent);
            try_write(alloc, ledger, &element.key, write, now, lent, book, earlier)
        }
        ElementWrite::Bad(refusal) => refuse_unreadable(alloc, refusal),
    }
}

/// An element that can't be read, with its refusal.
fn refuse_unreadable(alloc: Global, refusal: &Refusal) -> Result<Tried, NoMemory>
    ensures { IfOk result (λ tried. tried ≡ Tried.Refused refusal.now) }
{
    let refusal = refusal.copy(alloc)?;
    Ok(Tried::Refused(refusal))
}

/// What a write comes to: the entry that has its key, or a new one, unless it is refused.
fn try_write<S: Shards>(
    alloc: Global,
    ledger: &LedgerName,
    key: &Option<Key>,
    write: &Write,
    now: &i64,
    lent: &S,
    book: &Book,
    earlier: &[Entry],
) -> Result<Tried, NoMemory>
    requires { Ground (S.lent lent.now) book.now.events ledger.now earlier.now }
    ensures { IfOk result (λ tried. IsTried (log book.now.events ledger.now ++ earlier.now) (written (log book.now.events ledger.now ++ earlier.now) key.now write.now now.now) tried) }
{
    match key {
        Some(own) => try_keyed(alloc, ledger, key, own, write, now, lent, book, earlier),
        None => try_new(alloc, ledger, key, write, now, lent, book, earlier),
    }
}

/// The same of a write with a key.
fn try_keyed<S: Shards>(
    alloc: Global,
    ledger: &LedgerName,
    key: &Option<Key>,
    own: &Key,
    write: &Write,
    now: &i64,
    lent: &S,
    book: &Book,
    earlier: &[Entry],
) -> Result<Tried, NoMemory>
    requires ground { Ground (S.lent lent.now) book.now.events ledger.now earlier.now }
    requires own { key.now ≡ Some own.now }
    ensures { IfOk result (λ tried. IsTried (log book.now.events ledger.now ++ earlier.now) (written (log book.now.events ledger.now ++ earlier.now) (Some own.now) write.now now.now) tried) }
{
    match find_kept(ledger, own, lent, earlier) {
        Some(kept) => answer_kept(alloc, own, write, kept),
        None => try_new(alloc, ledger, key, write, now, lent, book, earlier),
    }
}
