//! Calls that write to a ledger.

ghost use Rattle.std.specs.Prelude.{◌≡◌, ℕ, List, IfOk, IsSome, Some, true, length};
ghost use Rattle.lg_types.specs.declared.refusals.Refusal.TheVariants.{NoLedger};
ghost use Rattle.lg_types.specs.Log.{log, is_there};
ghost use Rattle.lg_views.specs.Writes.{appended_if, decided, marked, written};
ghost use Rattle.lg_weigh.specs.Lent.{AreParts};
ghost use Rattle.lg_weigh.specs.Weighing.{write_weighed};
ghost use Rattle.lg_decide.specs.Decisions.{IsOutcome, known_in, needed};
ghost use Rattle.lg_decide.specs.Deciding.{Ground, kept_decision, logged_decision, write_decision};

use crate::decisions::Decision;
use crate::limits::totals_within;
use crate::looking::look_up;
use crate::planning::append;
use crate::writes::decide_write;
use lg_book::Book;
use lg_shard::Shards;
use lg_types::{Call, Duplicate, Key, LedgerName, NoMemory, Refusal, Write};
use lg_views::Decided;
use lg_weigh::{Kept, Weighed};
use std::alloc::Global;

/// What becomes of a call that writes to a ledger: the ledger has to be there; a key that is kept is answered by its entry;
/// what is left is decided by the ledger's log.
pub fn decide_logged<S: Shards>(
    alloc: Global,
    ledger: &LedgerName,
    key: &Option<Key>,
    write: &Write,
    weighed: Weighed,
    now: i64,
    lent: &S,
    book: &Book,
) -> Result<Decision, NoMemory>
    requires parts { AreParts (needed book.now.events (Call.Write ledger.now key.now write.now)) (S.lent lent.now) book.now.events }
    requires weighed { weighed ≡ write_weighed (log book.now.events ledger.now) key.now write.now (known_in (log book.now.events ledger.now) write.now) }
    ensures { IfOk result (λ decision. IsOutcome book.now.events (Call.Write ledger.now key.now write.now) now decision) }
{
    let _count = book.len();
    totals_within(lent);
    decide_by_log(alloc, ledger, key, write, weighed, now, lent, book)
}

/// The same, where what the shards and the book know is within its limits.
fn decide_by_log<S: Shards>(
    alloc: Global,
    ledger: &LedgerName,
    key: &Option<Key>,
    write: &Write,
    weighed: Weighed,
    now: i64,
    lent: &S,
    book: &Book,
) -> Result<Decision, NoMemory>
    requires ground { Ground (S.lent lent.now) book.now.events ledger.now key.now write.now }
    requires weighed { weighed ≡ write_weighed (log book.now.events ledger.now) key.now write.now (known_in (log book.now.events ledger.now) write.now) }
    ensures { IfOk result (λ decision. decision ≡ logged_decision book.now.events ledger.now key.now write.now now) }
{
    match book.log_len(ledger) {
        None => refuse_unknown(alloc, ledger),
        Some(entries) => decide_there(alloc, ledger, key, write, weighed, now, entries, lent, book),
    }
}

/// What becomes of a write to a ledger that is there, and has so many entries.
fn decide_there<S: Shards>(
    alloc: Global,
    ledger: &LedgerName,
    key: &Option<Key>,
    write: &Write,
    weighed: Weighed,
    now: i64,
    entries: u64,
    lent: &S,
    book: &Book,
) -> Result<Decision, NoMemory>
    requires there { is_there book.now.events ledger.now ≡ true }
    requires count { entries ≡ length (log book.now.events ledger.now) }
    requires ground { Ground (S.lent lent.now) book.now.events ledger.now key.now write.now }
    requires weighed { weighed ≡ write_weighed (log book.now.events ledger.now) key.now write.now (known_in (log book.now.events ledger.now) write.now) }
    ensures { IfOk result (λ decision. decision ≡ write_decision book.now.events ledger.now (written (log book.now.events ledger.now) key.now write.now now)) }
{
    match weighed.kept {
        Some(kept) => decide_kept(alloc, key, weighed.input_hash, kept),
        None => {
            let date = book.date_for(ledger, now);
            decide_new(
                alloc, ledger, key, write, weighed, &date, entries, lent, book,
            )
        }
    }
}

/// The refusal of a ledger that isn't there.
fn refuse_unknown(alloc: Global, ledger: &LedgerName) -> Result<Decision, NoMemory>
    ensures { IfOk result (λ decision. decision ≡ Decision.Refused (NoLedger ledger.now)) }
{
    let name = ledger.copy(alloc)?;
    Ok(Decision::Refused(Refusal::NoLedger { name }))
}

/// What becomes of a write whose key is kept: its entry's first reply where the same was asked.
fn decide_kept(
    alloc: Global,
    key: &Option<Key>,
    given: Option<[u8; 32]>,
    kept: Kept,
) -> Result<Decision, NoMemory>
    requires key { IsSome key.now }
    requires given { IsSome given }
    ensures { IfOk result (λ decision. (name hash : List ℕ) → key.now ≡ Some name → given ≡ Some hash → decision ≡ kept_decision name hash kept) }
{
    let (Some(key), Some(given)) = (key, given) else {
        unreachable!()
    };
    if kept.input_hash == given {
        return Ok(Decision::Kept { entry: kept.entry });
    }
    let key = key.copy(alloc)?;
    Ok(Decision::Refused(Refusal::KeyInput {
        key,
        kept: kept.input_hash,
        given,
    }))
}

/// What becomes of a write to a ledger that is there, without a key that is kept, at the date of a new entry. The ledger has
/// so many entries.
fn decide_new<S: Shards>(
    alloc: Global,
    ledger: &LedgerName,
    key: &Option<Key>,
    write: &Write,
    weighed: Weighed,
    date: &i64,
    entries: u64,
    lent: &S,
    book: &Book,
) -> Result<Decision, NoMemory>
    requires there { is_there book.now.events ledger.now ≡ true }
    requires count { entries ≡ length (log book.now.events ledger.now) }
    requires ground { Ground (S.lent lent.now) book.now.events ledger.now key.now write.now }
    requires weighed { weighed ≡ write_weighed (log book.now.events ledger.now) key.now write.now (known_in (log book.now.events ledger.now) write.now) }
    ensures { IfOk result (λ decision. decision ≡ write_decision book.now.events ledger.now (appended_if (log book.now.events ledger.now) date.now (marked key.now write.now) (decided (log book.now.events ledger.now) date.now write.now))) }
{
    let looked = look_up(ledger, write, weighed.used, book);
    let decided = decide_write(alloc, date, write, &looked, weighed.trial)?;
    match decided {
        Decided::Denied(refusal) => Ok(Decision::Refused(refusal)),
        Decided::Granted(body) => append(
            alloc,
            ledger,
            key,
            weighed.input_hash,
            date,
            entries,
            body,
            lent,
            book,
        ),
    }
}
