//! Calls that make a ledger.

ghost use Rattle.std.specs.Prelude.{◌≡◌, IfOk};
ghost use Rattle.lg_views.specs.Outcome.{made_ledger};
ghost use Rattle.lg_decide.specs.Decisions.{IsOutcome};
ghost use Rattle.lg_decide.specs.Deciding.{ledger_plan};

use crate::decisions::Decision;
use crate::planning::one_event;
use lg_book::{Book, FirstVolumes};
use lg_types::{
    Bucket, Call, Duplicate, Event, LedgerInfo, LedgerName, Meta, NoMemory, Refusal, bring,
};
use lg_views::{Content, Reply};
use std::alloc::Global;

/// What becomes of a call that makes a ledger.
pub fn decide_ledger(
    alloc: Global,
    ledger: &LedgerName,
    bucket: &Bucket,
    metadata: &Meta,
    now: &i64,
    book: &Book,
) -> Result<Decision, NoMemory>
    ensures { IfOk result (λ decision. IsOutcome book.now.events (Call.MakeLedger ledger.now bucket.now metadata.now) now.now decision) }
{
    let info = new_ledger(alloc, ledger, bucket, metadata, now)?;
    match book.log_len(ledger) {
        Some(_) => Ok(Decision::Refused(Refusal::LedgerThere { name: info.name })),
        None => plan_ledger(alloc, info, book),
    }
}

/// The record of a ledger that is made now.
fn new_ledger(
    alloc: Global,
    ledger: &LedgerName,
    bucket: &Bucket,
    metadata: &Meta,
    now: &i64,
) -> Result<LedgerInfo, NoMemory>
    ensures { IfOk result (λ info. info ≡ made_ledger ledger.now bucket.now metadata.now now.now) }
{
    Ok(LedgerInfo {
        name: ledger.copy(alloc)?,
        bucket: bucket.copy(alloc)?,
        metadata: metadata.copy(alloc)?,
        added: bring(now),
    })
}

/// The plan that makes a ledger after the events of the book.
fn plan_ledger(alloc: Global, info: LedgerInfo, book: &Book) -> Result<Decision, NoMemory>
    ensures { IfOk result (λ decision. decision ≡ Decision.Planned (ledger_plan book.now.events info)) }
{
    let reply = Reply {
        hit: false,
        content: Content::Empty,
    };
    let volumes = FirstVolumes::none(alloc)?;
    let plan = one_event(alloc, book.len(), reply, Event::Made(info), volumes)?;
    Ok(Decision::Planned(plan))
}
