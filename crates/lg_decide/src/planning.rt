//! The plan of a new entry.

ghost use Rattle.std.specs.Prelude.{◌≡◌, ◌+◌, ◌^◌, ◌<◌, List, [], ◌∷◌, ◌++◌, IfOk, length};
ghost use Rattle.lg_types.specs.declared.calls.Write.{Write};
ghost use Rattle.lg_types.specs.declared.records.Entry.{Entry};
ghost use Rattle.lg_types.specs.declared.records.Event.{Event};
ghost use Rattle.lg_types.specs.declared.records.Event.TheVariants.{Logged};
ghost use Rattle.lg_types.specs.Log.{log};
ghost use Rattle.lg_views.specs.Replies.{plain};
ghost use Rattle.lg_views.specs.Writes.{first_reply, marked, new_entry as next_entry};
ghost use Rattle.lg_book.specs.FirstVolumes.{entry_volumes};
ghost use Rattle.lg_weigh.specs.Weighing.{asked_hash};
ghost use Rattle.lg_plan.specs.Plans.{first_plan, with_event};
ghost use Rattle.lg_decide.specs.Deciding.{MayShowBody, entry_plan};

use crate::decisions::Decision;
use crate::entries::new_entry;
use lg_book::{Book, FirstVolumes, reply_of};
use lg_commit_volumes::first_volumes;
use lg_plan::Plan;
use lg_shard::Shards;
use lg_types::{Duplicate, Entry, EntryBody, Event, Key, KeyMark, LedgerName, NoMemory};
use lg_views::Reply;
use std::alloc::Global;

/// The decision to append an entry of the date and the body to the ledger, which has so many entries. `hash` is the hash of
/// what was asked, where it comes with a key.
pub fn append<S: Shards>(
    alloc: Global,
    ledger: &LedgerName,
    key: &Option<Key>,
    hash: Option<[u8; 32]>,
    date: &i64,
    entries: u64,
    body: EntryBody,
    lent: &S,
    book: &Book,
) -> Result<Decision, NoMemory>
    requires count { entries ≡ length (log book.now.events ledger.now) }
    requires room { entries + 1 < 2 ^ 64 }
    requires shown { MayShowBody (S.lent lent.now) book.now.events ledger.now body }
    ensures { IfOk result (λ decision. (write : Write) → hash ≡ asked_hash key.now write → decision ≡ Decision.Planned (entry_plan book.now.events ledger.now (next_entry (log book.now.events ledger.now) date.now (marked key.now write) body))) }
{
    let mark = mark_of(alloc, key, hash)?;
    let entry = new_entry(entries, book.head(ledger), date, mark, body);
    let plan = plan_entry(alloc, ledger, entry, lent, book)?;
    Ok(Decision::Planned(plan))
}

/// The mark of an entry: the key with the hash of what was asked.
fn mark_of(
    alloc: Global,
    key: &Option<Key>,
    hash: Option<[u8; 32]>,
) -> Result<Option<KeyMark>, NoMemory>
    ensures { IfOk result (λ mark. (write : Write) → hash ≡ asked_hash key.now write → mark ≡ marked key.now write) }
{
    match (key, hash) {
        (Some(key), Some(input_hash)) => Ok(Some(KeyMark {
            key: key.copy(alloc)?,
            input_hash,
        })),
        _ => Ok(None),
    }
}

/// The plan that appends the entry to the ledger after the events of the book.
fn plan_entry<S: Shards>(
    alloc: Global,
    ledger: &LedgerName,
    entry: Entry,
    lent: &S,
    book: &Book,
) -> Result<Plan, NoMemory>
    requires { MayShowBody (S.lent lent.now) book.now.events ledger.now entry.body }
    ensures { IfOk result (λ plan. plan ≡ entry_plan book.now.events ledger.now entry) }
{
    let volumes = volumes_of(alloc, ledger, &entry, lent)?;
    plan_shown(alloc, book.len(), ledger, entry, volumes)
}

/// The plan that appends the entry, with its volumes, at the place.
fn plan_shown(
    alloc: Global,
    place: u64,
    ledger: &LedgerName,
    entry: Entry,
    volumes: FirstVolumes,
) -> Result<Plan, NoMemory>
    ensures { IfOk result (λ plan. (g : List Entry) → volumes ≡ entry_volumes g entry → plan ≡ with_event (first_plan place (plain (first_reply g entry))) (Logged ledger.now entry) volumes) }
{
    let reply = reply_of(alloc, &entry, &volumes)?;
    let event = logged(alloc, ledger, entry)?;
    one_event(alloc, place, reply, event, volumes)
}

/// The event of the entry.
fn logged(alloc: Global, ledger: &LedgerName, entry: Entry) -> Result<Event, NoMemory>
    ensures { IfOk result (λ event. event ≡ Logged ledger.now entry) }
{
    let ledger = ledger.copy(alloc)?;
    Ok(Event::Logged { ledger, entry })
}

/// The plan of one event.
pub fn one_event(
    alloc: Global,
    place: u64,
    reply: Reply,
    event: Event,
    volumes: FirstVolumes,
) -> Result<Plan, NoMemory>
    ensures { IfOk result (λ plan. plan ≡ with_event (first_plan place reply) event volumes) }
{
    let mut plan = Plan::new(alloc, place, reply);
    plan.push(event, volumes)?;
    Ok(plan)
}

/// The volumes that the first reply of an entry shows, by the shards of its accounts.
fn volumes_of<S: Shards>(
    alloc: Global,
    ledger: &LedgerName,
    entry: &Entry,
    lent: &S,
) -> Result<FirstVolumes, NoMemory>
    requires { (events : List Event) × MayShowBody (S.lent lent.now) events ledger.now entry.now.body }
    ensures { IfOk result (λ volumes. (events : List Event) → MayShowBody (S.lent lent.now) events ledger.now entry.now.body → volumes ≡ entry_volumes (log events ledger.now ++ entry.now ∷ []) entry.now) }
{
    match &entry.body {
        EntryBody::NewTransaction { transaction, .. } => {
            first_volumes(alloc, lent, ledger, &[], transaction)
        }
        EntryBody::SetMetadata { .. } => FirstVolumes::none(alloc),
        EntryBody::Reverted { transaction, .. } => {
            first_volumes(alloc, lent, ledger, &[], transaction)
        }
        EntryBody::DeleteMetadata { .. } => FirstVolumes::none(alloc),
    }
}
