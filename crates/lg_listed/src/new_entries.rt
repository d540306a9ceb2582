//! Writes whose keys aren't kept.

ghost use Rattle.std.specs.Prelude.{◌≡◌, ◌++◌, IfOk};
ghost use Rattle.lg_types.specs.Known.{date as date_of_log};
ghost use Rattle.lg_types.specs.Log.{log};
ghost use Rattle.lg_views.specs.Writes.{appended_if, decided as decided_of, marked, new_entry as next_entry};
ghost use Rattle.lg_listed.specs.Elements.{IsTried};
ghost use Rattle.lg_listed.specs.Trying.{Ground, IsNumber};

use crate::keys::mark_of;
use crate::last::{count_entries, date_for, head};
use crate::looking::look_up;
use crate::references::find_used;
use crate::trial::try_postings;
use crate::tried::Tried;
use lg_book::Book;
use lg_decide::{Decided, decide_write, new_entry};
use lg_shard::Shards;
use lg_types::{Entry, EntryBody, Key, LedgerName, NoMemory, Write};
use std::alloc::Global;

/// What a write comes to whose key isn't kept: a new entry, unless it is refused.
pub fn try_new<S: Shards>(
    alloc: Global,
    ledger: &LedgerName,
    key: &Option<Key>,
    write: &Write,
    now: &i64,
    lent: &S,
    book: &Book,
    earlier: &[Entry],
) -> Result<Tried, NoMemory>
    requires { Ground (S.lent lent.now) book.now.events ledger.now earlier.now }
    ensures { IfOk result (λ tried. IsTried (log book.now.events ledger.now ++ earlier.now) (appended_if (log book.now.events ledger.now ++ earlier.now) (date_of_log (log book.now.events ledger.now ++ earlier.now) now.now) (marked key.now write.now) (decided_of (log book.now.events ledger.now ++ earlier.now) (date_of_log (log book.now.events ledger.now ++ earlier.now) now.now) write.now)) tried) }
{
    let entries = count_entries(ledger, book, earlier)?;
    let date = date_for(ledger, now, book, earlier);
    let decided = decide(alloc, ledger, write, &date, entries, lent, book, earlier)?;
    match decided {
        Decided::Denied(refusal) => Ok(Tried::Refused(refusal)),
        Decided::Granted(body) => append(
            alloc, ledger, key, write, &date, entries, body, book, earlier,
        ),
    }
}

/// What is decided of a write at the date of a new entry. The log has so many entries with the earlier ones.
fn decide<S: Shards>(
    alloc: Global,
    ledger: &LedgerName,
    write: &Write,
    date: &i64,
    entries: u64,
    lent: &S,
    book: &Book,
    earlier: &[Entry],
) -> Result<Decided, NoMemory>
    requires ground { Ground (S.lent lent.now) book.now.events ledger.now earlier.now }
    requires count { IsNumber (log book.now.events ledger.now ++ earlier.now) entries }
    ensures { IfOk result (λ d. d ≡ decided_of (log book.now.events ledger.now ++ earlier.now) date.now write.now) }
{
    let used = find_used(ledger, write, lent, earlier);
    let looked = look_up(ledger, write, used, book, earlier);
    let trial = try_postings(alloc, ledger, write, looked.transaction, lent, earlier)?;
    decide_write(alloc, date, write, &looked, trial)
}

/// The entry of the date and the body that follows the ledger's log and the earlier entries, which are so many together.
fn append(
    alloc: Global,
    ledger: &LedgerName,
    key: &Option<Key>,
    write: &Write,
    date: &i64,
    entries: u64,
    body: EntryBody,
    book: &Book,
    earlier: &[Entry],
) -> Result<Tried, NoMemory>
    requires { IsNumber (log book.now.events ledger.now ++ earlier.now) entries }
    ensures { IfOk result (λ tried. tried ≡ Tried.Appended (next_entry (log book.now.events ledger.now ++ earlier.now) date.now (marked key.now write.now) body)) }
{
    let mark = mark_of(alloc, key, write)?;
    let before = head(ledger, book, earlier);
    let entry = new_entry(entries, before, date, mark, body);
    Ok(Tried::Appended(entry))
}
