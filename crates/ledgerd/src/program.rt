//! The program over any source and sinks.

ghost use Rattle.std.specs.Prelude.{◌≡◌, ◌≤◌, map, string_bytes};
ghost use Rattle.ledgerd.specs.Errors.{error_text as text_of_error};
ghost use Rattle.ledgerd.specs.Top.{RunsOn, Runs, Prints, Makes, Does, Ran, Reports};
ghost use Rattle.ledgerd.specs.Words.{IsInLimits};
ghost use Rattle.lg_generator.specs.Made.{made_script};

use crate::errors::error_text;
use crate::limits::{BYTE_LIMIT, LINE_LIMIT, line_count};
use crate::words::{Command, read_words};
use lg_base::{ReadEnd, Sink, Source, Status, Stop, read_all, write_whole};
use lg_batch::{NoMemory, RunEnd, read_script, run_script};
use lg_generator::{make_summary, write_script};
use lg_pages::Lists;
use std::alloc::Global;

/// Does what the words say. `run` reads a script of requests from the source to its end, runs it on one thread, and writes
/// the replies and the events to the output; `make SEED N` makes a script of N lines, runs it and writes a summary;
/// `script SEED N` writes that script; `usage` writes the usage line. What went wrong stands on the error sink; that it
/// can't be written there changes no status.
pub fn top<S: Source, K: Sink, E: Sink>(
    alloc: Global,
    words: &[String],
    source: &mut S,
    out: &mut K,
    error: &mut E,
) -> Status
    ensures ran { Ran S.Source K.Sink (map string_bytes words.now) source.old source.new out.old out.new result }
    ensures reports { Reports E.Sink error.old error.new result }
{
    let status = run_words(alloc, words, source, out);
    report(status, error);
    status
}

/// Does what the words ask for, if anything.
fn run_words<S: Source, K: Sink>(
    alloc: Global,
    words: &[String],
    source: &mut S,
    out: &mut K,
) -> Status
    ensures { Ran S.Source K.Sink (map string_bytes words.now) source.old source.new out.old out.new result }
{
    match read_words(words) {
        Some(command) => run_command(alloc, command, source, out),
        None => Status::Words,
    }
}

/// Does a command.
fn run_command<S: Source, K: Sink>(
    alloc: Global,
    command: Command,
    source: &mut S,
    out: &mut K,
) -> Status
    requires { IsInLimits command }
    ensures { Does S.Source K.Sink command source.old source.new out.old out.new result }
{
    match command {
        Command::Run => run(alloc, source, out),
        Command::Make { seed, lines } => make(alloc, seed, lines, out),
        Command::Script { seed, lines } => script(alloc, seed, lines, out),
        Command::Usage => usage(out),
    }
}

/// Makes a script, runs it, and writes what came of it.
fn make<K: Sink>(alloc: Global, seed: u64, lines: u32, out: &mut K) -> Status
    requires { lines ≤ 100000 }
    ensures { Makes K.Sink seed lines out.old out.new result }
{
    match make_summary::<Lists, K>(alloc, seed, lines, out) {
        RunEnd::Done => Status::Done,
        RunEnd::WriteFault => Status::WriteFault,
        RunEnd::NoMemory => Status::Memory,
    }
}

/// Makes a script and writes it.
fn script<K: Sink>(alloc: Global, seed: u64, lines: u32, out: &mut K) -> Status
    requires { lines ≤ 100000 }
    ensures { Prints K.Sink (made_script seed lines) out.old out.new result }
{
    match write_script(alloc, seed, lines, out) {
        RunEnd::Done => Status::Done,
        RunEnd::WriteFault => Status::WriteFault,
        RunEnd::NoMemory => Status::Memory,
    }
}

/// Writes the usage line.
fn usage<K: Sink>(out: &mut K) -> Status
    ensures { Prints K.Sink (text_of_error Status.Words) out.old out.new result }
{
    match write_whole(out, error_text(Status::Words)) {
        Ok(()) => Status::Done,
        Err(Stop) => Status::WriteFault,
    }
}

/// Ends with a status before anything is done: its line stands on the error sink.
pub fn refuse<E: Sink>(status: Status, error: &mut E) -> Status
    ensures status { result ≡ status }
    ensures reports { Reports E.Sink error.old error.new status }
{
    report(status, error);
    status
}

fn report<E: Sink>(status: Status, error: &mut E)
    ensures { Reports E.Sink error.old error.new status }
{
    let _ = write_whole(error, error_text(status));
}

fn run<S: Source, K: Sink>(alloc: Global, source: &mut S, out: &mut K) -> Status
    ensures { Runs S.Source K.Sink source.old source.new out.old out.new result }
{
    let bytes = match read_all(alloc, source, BYTE_LIMIT) {
        Ok(bytes) => bytes,
        Err(ReadEnd::Fault) => return Status::ReadFault,
        Err(ReadEnd::Limit) => return Status::InputLimit,
        Err(ReadEnd::NoMemory) => return Status::Memory,
    };
    if line_count(bytes.as_slice()) > LINE_LIMIT {
        return Status::InputLimit;
    }
    run_bytes(alloc, bytes.as_slice(), out)
}

/// Runs the script of these bytes.
fn run_bytes<K: Sink>(alloc: Global, bytes: &[u8], out: &mut K) -> Status
    ensures { RunsOn K.Sink bytes.now out.old out.new result }
{
    let script = match read_script::<Lists>(alloc, bytes) {
        Ok(script) => script,
        Err(NoMemory) => return Status::Memory,
    };
    match run_script(alloc, &script, out) {
        RunEnd::Done => Status::Done,
        RunEnd::WriteFault => Status::WriteFault,
        RunEnd::NoMemory => Status::Memory,
    }
}
