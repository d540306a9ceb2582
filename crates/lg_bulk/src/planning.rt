//! The decision of what a list came to.

ghost use Rattle.std.specs.Prelude.{◌≡◌, ◌∷◌, [], IfOk, OnOk, length};
ghost use Rattle.lg_types.specs.declared.records.Event.TheVariants.{Logged};
ghost use Rattle.lg_views.specs.Bulk.{bulk_reply as bulk_reply_of};
ghost use Rattle.lg_plan.specs.Plans.{with_event};
ghost use Rattle.lg_bulk.specs.Gathering.{IsPaired, gathered_decision, gathering_decision, list_plan};

use crate::gathered::{Gathered, Gathering};
use crate::results::bulk_reply;
use lg_book::FirstVolumes;
use lg_containers::List;
use lg_decide::Decision;
use lg_plan::Plan;
use lg_types::{Duplicate, Entry, Event, LedgerName, NoMemory};
use lg_views::BulkItem;
use std::alloc::Global;

/// The decision of what the elements of a list came to, after so many events.
pub fn decide_gathering(
    alloc: Global,
    ledger: &LedgerName,
    place: u64,
    gathering: Gathering,
) -> Result<Decision, NoMemory>
    requires { IsPaired gathering }
    ensures { IfOk result (λ decision. decision ≡ gathering_decision place ledger.now gathering) }
{
    match gathering {
        Gathering::Failed(failed) => answer_failure(alloc, failed),
        Gathering::Complete(gathered) => decide_gathered(alloc, ledger, place, gathered),
    }
}

fn answer_failure(alloc: Global, failed: BulkItem) -> Result<Decision, NoMemory>
    ensures { IfOk result (λ decision. decision ≡ Decision.Answered (bulk_reply_of (failed ∷ []))) }
{
    let mut results = List::new(alloc);
    results.push(failed)?;
    Ok(Decision::Answered(bulk_reply(results)))
}

fn decide_gathered(
    alloc: Global,
    ledger: &LedgerName,
    place: u64,
    gathered: Gathered,
) -> Result<Decision, NoMemory>
    requires { length gathered.volumes ≡ length gathered.entries }
    ensures { IfOk result (λ decision. decision ≡ gathered_decision place ledger.now gathered gathered.entries) }
{
    if gathered.entries.len() == 0 {
        return Ok(Decision::Answered(bulk_reply(gathered.results)));
    }
    let plan = plan_gathered(alloc, ledger, place, gathered)?;
    Ok(Decision::Planned(plan))
}

/// The plan that appends all entries that were gathered to the ledger, after so many events.
fn plan_gathered(
    alloc: Global,
    ledger: &LedgerName,
    place: u64,
    gathered: Gathered,
) -> Result<Plan, NoMemory>
    requires { length gathered.volumes ≡ length gathered.entries }
    ensures { IfOk result (λ plan. plan ≡ list_plan place ledger.now gathered) }
{
    let Gathered {
        results,
        entries,
        volumes,
    } = gathered;
    let mut plan = Plan::new(alloc, place, bulk_reply(results));
    for (entry, shown) in entries.into_vec().into_iter().zip(volumes.into_vec()) {
        push_logged(alloc, &mut plan, ledger, entry, shown)?;
    }
    Ok(plan)
}

// Puts the entry behind the events of the plan, with its volumes.
fn push_logged(
    alloc: Global,
    plan: &mut Plan,
    ledger: &LedgerName,
    entry: Entry,
    shown: FirstVolumes,
) -> Result<(), NoMemory>
    ensures ok { OnOk result (plan.new ≡ with_event plan.old (Logged ledger.now entry) shown) }
{
    plan.push(logged(alloc, ledger, entry)?, shown)
}

/// The event of the entry.
fn logged(alloc: Global, ledger: &LedgerName, entry: Entry) -> Result<Event, NoMemory>
    ensures { IfOk result (λ event. event ≡ Logged ledger.now entry) }
{
    let ledger = ledger.copy(alloc)?;
    Ok(Event::Logged { ledger, entry })
}
