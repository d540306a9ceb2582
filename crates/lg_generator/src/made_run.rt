//! Running a made script.

ghost use Rattle.std.specs.Prelude.{◌≡◌, ◌≤◌, if◌then◌else◌, length, IsTrue, IfOk, codes};
ghost use Rattle.lg_base.specs.Volumes.{IsWithinLimit};
ghost use Rattle.lg_batch.specs.Lines.{AreLines};
ghost use Rattle.lg_generator.specs.Made.{made_script};
ghost use Rattle.lg_generator.specs.MadeRuns.{Accepts, IsSummaryOf};
ghost use Rattle.lg_generator.specs.Summaries.{is_accepted as is_accepted_answer, summary_text as text_of_summary, IsSummary, EndsSummary};
ghost use Rattle.lg_shard.specs.Shown.{account_moves};
ghost use Rattle.lg_types.specs.Log.{log, is_there, first_events};
ghost use Rattle.lg_types.specs.Moves.{moves, total};
ghost use Rattle.lg_types.specs.Tally.{total_of};

use crate::script::make_script;
use crate::summary::{Summary, feed_summary};
use lg_base::{ByteFeed, NoMemory, Sink, Stop, Volumes, write_whole};
use lg_batch::{RunEnd, Script, read_script};
use lg_replies::status_of;
use lg_routes::ListReader;
use lg_shard::{Shard, stripe_of};
use lg_store::Solo;
use lg_types::{Address, Asset, Class, LedgerName};
use lg_views::{Answer, ScriptLine};
use std::alloc::Global;
use std::mem;

/// Makes the script of so many lines from the seed, runs it on one thread over ledgers of its own, and writes a summary.
/// Nothing is written where memory is wanting for the run itself; a call for which it is wanting is answered so.
pub fn make_summary<L: ListReader, K: Sink>(
    alloc: Global,
    seed: u64,
    lines: u32,
    out: &mut K,
) -> RunEnd
    requires { lines ≤ 100000 }
    ensures { EndsSummary K.Sink seed lines out.old out.new result }
{
    let text = match summary_text::<L>(alloc, seed, lines) {
        Ok(text) => text,
        Err(NoMemory) => return RunEnd::NoMemory,
    };
    match write_whole(out, text.as_slice()) {
        Ok(()) => RunEnd::Done,
        Err(Stop) => RunEnd::WriteFault,
    }
}

/// The text of the summary.
fn summary_text<L: ListReader>(alloc: Global, seed: u64, lines: u32) -> Result<Vec<u8>, NoMemory>
    requires { lines ≤ 100000 }
    ensures { IfOk result (λ text. IsSummary seed lines text.items) }
{
    let script = made_lines::<L>(alloc, seed, lines)?;
    let mut solo = Solo::new(alloc)?;
    let accepted = answer_all(&mut solo, script.as_slice());
    let summary = summary_of(alloc, &solo, lines, accepted)?;
    mem::forget(solo);
    text_of(alloc, &summary)
}

/// The lines of the made script, as a run reads them.
fn made_lines<L: ListReader>(alloc: Global, seed: u64, lines: u32) -> Result<Script, NoMemory>
    requires { lines ≤ 100000 }
    ensures { IfOk result (λ script. AreLines (made_script seed lines) script) }
{
    let text = made_text(alloc, seed, lines)?;
    read_script::<L>(alloc, text.as_slice())
}

fn made_text(alloc: Global, seed: u64, lines: u32) -> Result<Vec<u8>, NoMemory>
    requires { lines ≤ 100000 }
    ensures { IfOk result (λ text. text.items ≡ made_script seed lines) }
{
    let mut feed = ByteFeed::new(alloc);
    match make_script(seed, lines, &mut feed) {
        Ok(()) => Ok(feed.into_bytes()),
        Err(Stop) => Err(NoMemory),
    }
}

/// Answers the calls of the lines, one after another, and counts the answers that are no refusals.
fn answer_all(solo: &mut Solo, lines: &[ScriptLine]) -> u64
    requires first { solo.old ≡ first_events }
    ensures { Accepts solo.new lines.now result }
{
    let mut accepted: u64 = 0;
    for line in lines {
        let answer = solo.call(&line.call, moment_of(line));
        accepted += one_if_accepted(&answer);
    }
    accepted
}

fn moment_of(line: &ScriptLine) -> i64
    ensures { result ≡ line.now.moment }
{
    line.moment
}

fn one_if_accepted(answer: &Answer) -> u64
    ensures value { result ≡ (if is_accepted_answer answer.now then 1 else 0) }
    ensures small { result ≤ 1 }
{
    if status_of(&answer.reply) < 400 { 1 } else { 0 }
}

/// What the run of a made script came to.
fn summary_of(alloc: Global, solo: &Solo, lines: u32, accepted: u64) -> Result<Summary, NoMemory>
    requires { IsTrue (is_there solo.now (codes "default")) }
    ensures { IfOk result (λ summary. IsSummaryOf lines accepted (log solo.now (codes "default")) summary) }
{
    let ledger = ledger_name(alloc)?;
    let fees = volumes_of(alloc, solo, &ledger, b"shop:fees")?;
    let sales = volumes_of(alloc, solo, &ledger, b"shop:sales")?;
    let world = volumes_of(alloc, solo, &ledger, b"world")?;
    Ok(Summary {
        lines,
        accepted,
        entries: entries_of(solo, &ledger),
        fees,
        sales,
        world,
        head: solo.book().head(&ledger),
    })
}

fn ledger_name(alloc: Global) -> Result<LedgerName, NoMemory>
    ensures { IfOk result (λ name. name ≡ codes "default") }
{
    match LedgerName::read(alloc, b"default") {
        Ok(name) => Ok(name),
        Err(_) => Err(NoMemory),
    }
}

fn entries_of(solo: &Solo, ledger: &LedgerName) -> u64
    requires { IsTrue (is_there solo.now ledger.now) }
    ensures { result ≡ length (log solo.now ledger.now) }
{
    match solo.book().log_len(ledger) {
        Some(entries) => entries,
        None => unreachable!(),
    }
}

/// What an account of the ledger holds of `USD/2`.
fn volumes_of(
    alloc: Global,
    solo: &Solo,
    ledger: &LedgerName,
    account: &[u8],
) -> Result<Volumes, NoMemory>
    ensures value { IfOk result (λ v. v ≡ total (moves (log solo.now ledger.now)) account.now (codes "USD/2")) }
    ensures limit { IfOk result IsWithinLimit }
{
    let account = match Address::read(alloc, account) {
        Ok(account) => account,
        Err(_) => return Err(NoMemory),
    };
    let asset = match Asset::read(alloc, b"USD/2") {
        Ok(asset) => asset,
        Err(_) => return Err(NoMemory),
    };
    Ok(held(solo, ledger, &account, &asset))
}

fn held(solo: &Solo, ledger: &LedgerName, account: &Address, asset: &Asset) -> Volumes
    ensures value { result ≡ total (moves (log solo.now ledger.now)) account.now asset.now }
    ensures limit { IsWithinLimit result }
{
    match solo.shard(stripe_of(Class::Account, ledger, account.bytes())) {
        Some(shard) => held_in(shard, ledger, account, asset),
        None => unreachable!(),
    }
}

fn held_in(shard: &Shard, ledger: &LedgerName, account: &Address, asset: &Asset) -> Volumes
    ensures value { result ≡ total_of (account_moves shard.now.shares ledger.now account.now asset.now) }
    ensures limit { IsWithinLimit result }
{
    match shard.index(ledger, account, asset) {
        Some(index) => index.total(),
        None => Volumes::zero(),
    }
}

fn text_of(alloc: Global, summary: &Summary) -> Result<Vec<u8>, NoMemory>
    requires fees { IsWithinLimit summary.now.fees }
    requires sales { IsWithinLimit summary.now.sales }
    requires world { IsWithinLimit summary.now.world }
    ensures { IfOk result (λ text. text.items ≡ text_of_summary summary.now) }
{
    let mut feed = ByteFeed::new(alloc);
    match feed_summary(summary, &mut feed) {
        Ok(()) => Ok(feed.into_bytes()),
        Err(Stop) => Err(NoMemory),
    }
}
