//! Running a script on one thread.

ghost use Rattle.std.specs.Prelude.{◌≡◌, []};
ghost use Rattle.lg_base.specs.Waiting.{waiting};
ghost use Rattle.lg_types.specs.Log.{first_events};
ghost use Rattle.lg_batch.specs.Runs.{EndsRun, FeedsAnswers, FeedsOutput, WritesOutput};

use crate::output::{feed_answer, feed_events};
use crate::run_end::RunEnd;
use crate::script::Script;
use lg_base::{BufferedFeed, Feed, NoMemory, OutputBuffer, Sink, Stop};
use lg_store::Solo;
use lg_views::ScriptLine;
use std::alloc::Global;
use std::mem;

/// Runs a script on one thread, over ledgers of its own, and writes the output: a line for each reply, as soon as there is
/// one, then a line for each event. Nothing is written where memory is wanting for the run itself; a call for which it is
/// wanting is answered so, and adds nothing.
pub fn run_script<K: Sink>(alloc: Global, script: &Script, out: &mut K) -> RunEnd
    ensures { EndsRun K.Sink script.now out.old out.new result }
{
    let mut solo = match Solo::new(alloc) {
        Ok(solo) => solo,
        Err(NoMemory) => return RunEnd::NoMemory,
    };
    let mut buffer = match OutputBuffer::new(alloc) {
        Ok(buffer) => buffer,
        Err(NoMemory) => return RunEnd::NoMemory,
    };
    match write_output(&mut buffer, &mut solo, script.as_slice(), out) {
        Ok(()) => {
            leave(solo);
            RunEnd::Done
        }
        Err(Stop) => {
            leave(solo);
            RunEnd::WriteFault
        }
    }
}

/// Leaves the memory of the ledgers to the end of the process. A run is the last thing that its process does, and to give
/// that memory back piece by piece would take as long as the answers of many lines.
fn leave(solo: Solo) {
    mem::forget(solo);
}

/// Runs the lines on ledgers without entries, and writes the output through the buffer.
fn write_output<K: Sink>(
    buffer: &mut OutputBuffer,
    solo: &mut Solo,
    lines: &[ScriptLine],
    out: &mut K,
) -> Result<(), Stop>
    requires waits { waiting buffer.old ≡ [] }
    requires first { solo.old ≡ first_events }
    ensures { WritesOutput K.Sink lines.now out.old out.new result }
{
    let mut feed = BufferedFeed::new(out, buffer);
    feed_and_flush(solo, lines, &mut feed)
}

/// Runs the lines, feeds the output to an empty buffer in front of a sink, and writes what waits.
fn feed_and_flush<K: Sink>(
    solo: &mut Solo,
    lines: &[ScriptLine],
    feed: &mut BufferedFeed<'_, K>,
) -> Result<(), Stop>
    requires waits { waiting feed.old.buffer.now ≡ [] }
    requires first { solo.old ≡ first_events }
    ensures written { WritesOutput K.Sink lines.now feed.old.sink.now feed.new.sink.now result }
    ensures same_reference { feed.new.sink.ghost_name ≡ feed.old.sink.ghost_name }
{
    feed_output(solo, lines, feed)?;
    feed.flush()
}

/// Runs the lines and feeds the output.
fn feed_output<F: Feed>(solo: &mut Solo, lines: &[ScriptLine], to: &mut F) -> Result<(), Stop>
    requires first { solo.old ≡ first_events }
    ensures { FeedsOutput F.Feed lines.now to.old to.new result }
{
    feed_answers(solo, lines, to)?;
    feed_events(solo.book(), to)
}

/// Answers the calls of the lines, one after another, and feeds the line of each answer.
fn feed_answers<F: Feed>(solo: &mut Solo, lines: &[ScriptLine], to: &mut F) -> Result<(), Stop>
    requires first { solo.old ≡ first_events }
    ensures { FeedsAnswers F.Feed solo.new lines.now to.old to.new result }
{
    for line in lines {
        let answer = solo.call(&line.call, moment_of(line));
        feed_answer(line, &answer, to)?;
    }
    Ok(())
}

fn moment_of(line: &ScriptLine) -> i64
    ensures { result ≡ line.now.moment }
{
    line.moment
}
