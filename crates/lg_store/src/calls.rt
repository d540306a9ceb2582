//! Carrying out a call over shards and book.

ghost use Rattle.std.specs.Prelude.{◌≡◌, [], IfOk, OnErr, IsSome, IfSome};
ghost use Rattle.std.specs.Option.{option_copied};
ghost use Rattle.lg_plan.specs.Events.{AreShards};
ghost use Rattle.lg_plan.specs.Plans.{Fits};
ghost use Rattle.lg_types.specs.Log.{log};
ghost use Rattle.lg_views.specs.Replies.{repeated, refused as refusal_reply};
ghost use Rattle.lg_views.specs.Writes.{first_reply, up_to};
ghost use Rattle.lg_book.specs.Reading.{find_entry};
ghost use Rattle.lg_decide.specs.Decisions.{IsOutcome, known_in, known_to, named_ledger};
ghost use Rattle.lg_bulk.specs.Changes.{IsChange};
ghost use Rattle.lg_query.specs.Asked.{IsReadAs, as_asked};
ghost use Rattle.lg_store.specs.Built.{as_built};
ghost use Rattle.lg_store.specs.Answering.{IsDone, IsDoneBy};

use crate::done::Done;
use crate::lent::AllShards;
use lg_book::Book;
use lg_bulk::decide;
use lg_decide::Decision;
use lg_plan::{Plan, carry_out, prepare_all};
use lg_query::answer;
use lg_shard::Shard;
use lg_turns::Change;
use lg_types::{Call, Duplicate, LedgerName, NoMemory, Read, Refusal, Transaction, Write};
use lg_views::{Content, Reply};
use lg_weigh::weigh;
use std::alloc::Global;

/// Carries out a call. Imports, the list of ledgers and some reads are refused as not built.
pub fn answer_call(
    alloc: Global,
    shards: &mut Vec<Shard>,
    book: &mut Book,
    call: &Call,
    now: i64,
) -> Result<Done, NoMemory>
    requires clean { book.old.prepared ≡ [] }
    requires shards { AreShards book.old.events [] shards.old.items }
    ensures clean { book.new.prepared ≡ [] }
    ensures shards { AreShards book.new.events [] shards.new.items }
    ensures done { IfOk result (IsDone book.old.events (as_built call.now) now book.new.events) }
    ensures same { OnErr result (book.new.events ≡ book.old.events) }
{
    match call {
        Call::Unreadable(refusal) => Ok(refused(refusal.copy(alloc)?)),
        Call::MakeLedger { .. } => change(alloc, shards, book, call, now),
        Call::Write { .. } => change(alloc, shards, book, call, now),
        Call::Bulk { .. } => change(alloc, shards, book, call, now),
        Call::Import { .. } => Ok(refused(Refusal::NotBuilt)),
        Call::Ledgers { .. } => Ok(refused(Refusal::NotBuilt)),
        Call::Read { ledger, read } => asked(alloc, shards.as_slice(), book, ledger, read),
    }
}

/// The reading of a ledger adds nothing.
fn asked(
    alloc: Global,
    shards: &[Shard],
    book: &Book,
    ledger: &LedgerName,
    read: &Read,
) -> Result<Done, NoMemory>
    requires { AreShards book.now.events [] shards.now }
    ensures { IfOk result (λ done. (done.events ≡ 0) × IsReadAs book.now.events (as_asked ledger.now read.now) done.reply) }
{
    let lent = AllShards { shards };
    let reply = answer(alloc, &lent, book, ledger, read)?;
    Ok(Done { events: 0, reply })
}

/// Nothing is added, and the reply is the refusal.
fn refused(refusal: Refusal) -> Done
    ensures events { result.events ≡ 0 }
    ensures reply { result.reply ≡ refusal_reply refusal }
{
    Done {
        events: 0,
        reply: Reply {
            hit: false,
            content: Content::Refused(refusal),
        },
    }
}

/// Carries out a call that makes a ledger or writes to one, once or by a list.
fn change(
    alloc: Global,
    shards: &mut Vec<Shard>,
    book: &mut Book,
    call: &Call,
    now: i64,
) -> Result<Done, NoMemory>
    requires kind { IsChange call.now }
    requires clean { book.old.prepared ≡ [] }
    requires shards { AreShards book.old.events [] shards.old.items }
    ensures clean { book.new.prepared ≡ [] }
    ensures shards { AreShards book.new.events [] shards.new.items }
    ensures done { IfOk result (IsDone book.old.events call.now now book.new.events) }
    ensures same { OnErr result (book.new.events ≡ book.old.events) }
{
    match decide_change(alloc, shards.as_slice(), book, call, now)? {
        Decision::Refused(refusal) => Ok(refused(refusal)),
        Decision::Kept { entry } => repeat(book, ledger_of(call), entry),
        Decision::Answered(reply) => Ok(Done { events: 0, reply }),
        Decision::Planned(plan) => add(plan, shards, book),
    }
}

/// What becomes of a call that makes a ledger or writes to one, once or by a list.
fn decide_change(
    alloc: Global,
    shards: &[Shard],
    book: &Book,
    call: &Call,
    now: i64,
) -> Result<Decision, NoMemory>
    requires kind { IsChange call.now }
    requires shards { AreShards book.now.events [] shards.now }
    ensures { IfOk result (λ decision. IsOutcome book.now.events call.now now decision) }
{
    let lent = AllShards { shards };
    let weighed = weigh(alloc, call, known_transaction(book, call), &lent)?;
    decide(alloc, call, weighed, now, &lent, book)
}

/// The transaction that a call reverts, where its ledger has it.
fn known_transaction<'a>(book: &'a Book, call: &Call) -> Option<&'a Transaction>
    ensures { option_copied result ≡ known_to book.now.events call.now }
{
    match call {
        Call::Write { ledger, write, .. } => reverted_transaction(book, ledger, write),
        Call::Unreadable(_) => None,
        Call::MakeLedger { .. } => None,
        Call::Bulk { .. } => None,
        Call::Import { .. } => None,
        Call::Ledgers { .. } => None,
        Call::Read { .. } => None,
    }
}

/// The transaction that a write to the ledger reverts, where the ledger has it.
fn reverted_transaction<'a>(
    book: &'a Book,
    ledger: &LedgerName,
    write: &Write,
) -> Option<&'a Transaction>
    ensures { option_copied result ≡ known_in (log book.now.events ledger.now) write.now }
{
    match write {
        Write::Revert { id, .. } => book.transaction(ledger, *id),
        Write::Create { .. } => None,
        Write::SetMeta { .. } => None,
        Write::DropMeta { .. } => None,
    }
}

/// The ledger that a call names.
fn ledger_of(call: &Call) -> &LedgerName
    requires { IsChange call.now }
    ensures { result.now ≡ named_ledger call.now }
{
    match call {
        Call::MakeLedger { ledger, .. } => ledger,
        Call::Write { ledger, .. } => ledger,
        Call::Bulk { ledger, .. } => ledger,
        _ => unreachable!(),
    }
}

/// The first reply of an entry of the ledger, once more.
fn repeat(book: &Book, ledger: &LedgerName, entry: u64) -> Result<Done, NoMemory>
    requires { IsSome (find_entry (log book.now.events ledger.now) entry) }
    ensures { IfOk result (λ done. (done.events ≡ 0) × IfSome (find_entry (log book.now.events ledger.now) entry) (λ e. done.reply ≡ repeated (first_reply (up_to (log book.now.events ledger.now) e) e))) }
{
    let first = book.first_reply(ledger, entry)?;
    Ok(Done {
        events: 0,
        reply: Reply {
            hit: true,
            content: first.content,
        },
    })
}

/// Adds the events of a plan.
fn add(plan: Plan, shards: &mut Vec<Shard>, book: &mut Book) -> Result<Done, NoMemory>
    requires fits { Fits plan book.old.events }
    requires clean { book.old.prepared ≡ [] }
    requires shards { AreShards book.old.events [] shards.old.items }
    ensures clean { book.new.prepared ≡ [] }
    ensures shards { AreShards book.new.events [] shards.new.items }
    ensures done { IfOk result (IsDoneBy plan book.old.events book.new.events) }
    ensures same { OnErr result (book.new.events ≡ book.old.events) }
{
    prepare_all(&plan, shards, book)?;
    let events = plan.count();
    let reply = carry_out(plan, shards, book);
    Ok(Done { events, reply })
}
