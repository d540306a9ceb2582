//! What becomes of a list of writes.

ghost use Rattle.std.specs.Prelude.{◌≡◌, IfOk, length};
ghost use Rattle.lg_types.specs.declared.refusals.Refusal.TheVariants.{NoLedger};
ghost use Rattle.lg_types.specs.Log.{log};
ghost use Rattle.lg_weigh.specs.Lent.{AreParts};
ghost use Rattle.lg_decide.specs.Decisions.{IsOutcome, needed};
ghost use Rattle.lg_bulk.specs.Gathering.{Ground};

use crate::limits::totals_within;
use crate::lists::gather;
use crate::planning::decide_gathering;
use lg_book::Book;
use lg_decide::Decision;
use lg_shard::Shards;
use lg_types::{Call, Duplicate, Elements, LedgerName, NoMemory, Refusal};
use std::alloc::Global;

/// What becomes of a list of writes at the moment `now` in microseconds since 1970-01-01T00:00:00Z: its outcome after the
/// events of the book.
///
/// The shards of all sixteen stripes are lent, as they are after the events of the book. `Refused` says that the ledger
/// isn't there; `Answered` that the list appends nothing, since it is atomic and an element failed, or since no element
/// appends an entry; `Planned` has the entries of the list in their order.
pub fn decide_list<S: Shards>(
    alloc: Global,
    ledger: &LedgerName,
    elements: &Elements,
    atomic: bool,
    go_on: bool,
    now: i64,
    lent: &S,
    book: &Book,
) -> Result<Decision, NoMemory>
    requires parts { AreParts (needed book.now.events (Call.Bulk ledger.now elements.now atomic go_on)) (S.lent lent.now) book.now.events }
    ensures { IfOk result (λ decision. IsOutcome book.now.events (Call.Bulk ledger.now elements.now atomic go_on) now decision) }
{
    match book.log_len(ledger) {
        None => refuse_unknown(alloc, ledger),
        Some(logged) => {
            let _count = book.len();
            totals_within(lent);
            decide_there(
                alloc, ledger, elements, atomic, go_on, &now, logged, lent, book,
            )
        }
    }
}

/// The refusal of a ledger that isn't there.
fn refuse_unknown(alloc: Global, ledger: &LedgerName) -> Result<Decision, NoMemory>
    ensures { IfOk result (λ decision. decision ≡ Decision.Refused (NoLedger ledger.now)) }
{
    let name = ledger.copy(alloc)?;
    Ok(Decision::Refused(Refusal::NoLedger { name }))
}

/// What becomes of a list of writes to a ledger that is there, and has so many entries.
fn decide_there<S: Shards>(
    alloc: Global,
    ledger: &LedgerName,
    elements: &Elements,
    atomic: bool,
    go_on: bool,
    now: &i64,
    logged: u64,
    lent: &S,
    book: &Book,
) -> Result<Decision, NoMemory>
    requires ground { Ground (S.lent lent.now) book.now.events ledger.now }
    requires logged { logged ≡ length (log book.now.events ledger.now) }
    ensures { IfOk result (λ decision. IsOutcome book.now.events (Call.Bulk ledger.now elements.now atomic go_on) now.now decision) }
{
    let gathering = gather(
        alloc, ledger, elements, atomic, go_on, now, logged, lent, book,
    )?;
    decide_gathering(alloc, ledger, book.len(), gathering)
}
