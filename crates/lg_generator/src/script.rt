//! Made scripts.

ghost use Rattle.std.specs.Prelude.{◌≡◌, ◌≤◌, ◌/◌, ◌^◌, []};
ghost use Rattle.lg_base.specs.Feeding.{Feeds};
ghost use Rattle.lg_base.specs.Waiting.{waiting};
ghost use Rattle.lg_batch.specs.Buffered.{WritesThrough};
ghost use Rattle.lg_generator.specs.Made.{next_number, made_script};
ghost use Rattle.lg_generator.specs.Summaries.{EndsScript};

use crate::line::feed_line;
use lg_base::{BufferedFeed, Feed, NoMemory, OutputBuffer, Sink, Stop};
use lg_batch::RunEnd;
use std::alloc::Global;

/// Feeds the script of so many lines that is drawn from the seed: at most 100,000 lines, so that the moments stay in
/// the year 2024.
pub fn make_script<F: Feed>(seed: u64, lines: u32, to: &mut F) -> Result<(), Stop>
    requires { lines ≤ 100000 }
    ensures { Feeds F.Feed to.old to.new (made_script seed lines) result }
{
    let mut number = seed;
    for place in 0..lines {
        number = next(number);
        feed_line(place, upper_half(number), to)?;
    }
    Ok(())
}

/// Writes that script to a sink. Nothing is written where memory is wanting.
pub fn write_script<K: Sink>(alloc: Global, seed: u64, lines: u32, out: &mut K) -> RunEnd
    requires { lines ≤ 100000 }
    ensures { EndsScript K.Sink seed lines out.old out.new result }
{
    let mut buffer = match OutputBuffer::new(alloc) {
        Ok(buffer) => buffer,
        Err(NoMemory) => return RunEnd::NoMemory,
    };
    match write_through(&mut buffer, seed, lines, out) {
        Ok(()) => RunEnd::Done,
        Err(Stop) => RunEnd::WriteFault,
    }
}

/// Writes the script through the buffer.
fn write_through<K: Sink>(
    buffer: &mut OutputBuffer,
    seed: u64,
    lines: u32,
    out: &mut K,
) -> Result<(), Stop>
    requires waits { waiting buffer.old ≡ [] }
    requires few { lines ≤ 100000 }
    ensures { WritesThrough K.Sink out.old out.new (made_script seed lines) result }
{
    let mut feed = BufferedFeed::new(out, buffer);
    feed_and_flush(seed, lines, &mut feed)
}

/// Feeds the script to an empty buffer in front of a sink, and writes what waits.
fn feed_and_flush<K: Sink>(
    seed: u64,
    lines: u32,
    feed: &mut BufferedFeed<'_, K>,
) -> Result<(), Stop>
    requires waits { waiting feed.old.buffer.now ≡ [] }
    requires few { lines ≤ 100000 }
    ensures written { WritesThrough K.Sink feed.old.sink.now feed.new.sink.now (made_script seed lines) result }
    ensures same_reference { feed.new.sink.ghost_name ≡ feed.old.sink.ghost_name }
{
    make_script(seed, lines, feed)?;
    feed.flush()
}

/// The next number of the sequence.
fn next(number: u64) -> u64
    ensures { result ≡ next_number number }
{
    number
        .wrapping_mul(6364136223846793005)
        .wrapping_add(1442695040888963407)
}

fn upper_half(number: u64) -> u32
    ensures { result ≡ number / 2 ^ 32 }
{
    (number >> 32) as u32
}
