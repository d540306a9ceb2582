//! The program over memory: worked inputs with their outputs, each read and each write that fails, and other words.

use crate::adapters::{ReadSource, WriteSink};
use crate::codes::code;
use crate::program::top;
use crate::rows::{ROWS, Row};
use lg_base::{CalmSink, CalmSource, MemSink, MemSource, Sink, Source, Status};
use std::alloc::Global;
use std::test::Fail;

/// How a call of the program ended, and what it wrote.
#[derive(Drop)]
struct Ending {
    status: Status,
    out: MemSink,
    error: CalmSink,
}

/// Calls the program over sinks in memory.
fn call<S: Source>(alloc: Global, words: &[String], source: &mut S) -> Result<Ending, Fail> {
    call_failing(alloc, words, source, Vec::new(alloc))
}

/// Calls the program over an output that takes at most 64 bytes a write, and fails at the listed writes.
fn call_failing<S: Source>(
    alloc: Global,
    words: &[String],
    source: &mut S,
    fails: Vec<u64>,
) -> Result<Ending, Fail> {
    let mut out = MemSink::new(alloc, fails, 64, 8192)?;
    let mut error = CalmSink::new(alloc, 256)?;
    let status = top(alloc, words, source, &mut out, &mut error);
    Ok(Ending { status, out, error })
}

/// Runs the script of these bytes.
fn run(alloc: Global, input: &[u8]) -> Result<Ending, Fail> {
    let words = [String::from_str(alloc, "run")?];
    let mut source = CalmSource::new(input.to_vec(alloc)?, 1000);
    call(alloc, &words, &mut source)
}

/// The event that stands before all others.
const OPENING: &[u8] =
    br#"{"event":0,"made":{"name":"default","addedAt":"1970-01-01T00:00:00Z","bucket":"_default","metadata":{}}}
"#;

#[test]
fn no_input_has_the_opening_event_alone(rt: HostRuntime) -> Result<(), Fail> {
    let ending = run(rt.alloc(), b"")?;
    assert!(rt; ending.status == Status::Done);
    assert!(rt; ending.out.written() == OPENING);
    assert!(rt; ending.error.written().is_empty());
    Ok(())
}

/// Whether all was done, and this was written.
fn is_whole(ending: &Ending, output: &[u8]) -> bool {
    ending.status == Status::Done
        && ending.out.written() == output
        && ending.error.written().is_empty()
}

/// Whether the run of a worked script writes what it has to.
fn is_right(alloc: Global, row: &Row) -> Result<bool, Fail> {
    let ending = run(alloc, row.script)?;
    Ok(is_whole(&ending, row.output))
}

#[test]
fn worked_scripts_have_their_outputs(rt: HostRuntime) -> Result<(), Fail> {
    for row in &ROWS {
        let right = is_right(rt.alloc(), row)?;
        assert!(rt; right, "{}", row.name);
    }
    Ok(())
}

#[test]
fn some_reads_and_imports_are_not_built(rt: HostRuntime) -> Result<(), Fail> {
    let input: &[u8] =
        br#"{"now":"2024-01-01T00:00:00Z","method":"GET","path":"/v2/default/accounts"}
{"now":"2024-01-01T00:00:00Z","method":"POST","path":"/v2/default/logs/import","body":""}
{"now":"2024-01-01T00:00:00Z","method":"GET","path":"/v2/default/logs?pageSize=0"}
"#;
    let output: &[u8] =
        br#"{"line":1,"front":1,"events":0,"hit":false,"status":501,"body":{"errorCode":"NOT_BUILT","errorMessage":"not built"}}
{"line":2,"front":1,"events":0,"hit":false,"status":501,"body":{"errorCode":"NOT_BUILT","errorMessage":"not built"}}
{"line":3,"front":1,"events":0,"hit":false,"status":400,"body":{"errorCode":"VALIDATION","errorMessage":"query pageSize"}}
{"event":0,"made":{"name":"default","addedAt":"1970-01-01T00:00:00Z","bucket":"_default","metadata":{}}}
"#;
    let ending = run(rt.alloc(), input)?;
    assert!(rt; ending.status == Status::Done);
    assert!(rt; ending.out.written() == output);
    Ok(())
}

#[test]
fn a_failed_first_read_writes_nothing(rt: HostRuntime) -> Result<(), Fail> {
    let words = [String::from_str(rt.alloc(), "run")?];
    let fails = vec![in rt.alloc(); 1u64]?;
    let mut source = MemSource::new(b"[]".to_vec(rt.alloc())?, fails, 10);
    let ending = call(rt.alloc(), &words, &mut source)?;
    assert!(rt; ending.status == Status::ReadFault);
    assert!(rt; ending.out.written().is_empty());
    assert!(rt; ending.error.written() == b"ledgerd: read fault\n".as_slice());
    Ok(())
}

/// The line that says what words the program takes.
const USAGE: &[u8] =
    b"usage: ledgerd run | batch N | verify [recompute] | make SEED N | script SEED N | serve HOST:PORT N | usage\n";

/// Calls the program with these two words over a source whose first read fails.
fn call_with(alloc: Global, first: &str, second: &str) -> Result<Ending, Fail> {
    let words = [
        String::from_str(alloc, first)?,
        String::from_str(alloc, second)?,
    ];
    let fails = vec![in alloc; 1u64]?;
    let mut source = MemSource::new(b"[]".to_vec(alloc)?, fails, 10);
    call(alloc, &words, &mut source)
}

/// What a command without input writes to the output, and in how many writes of at most 64 bytes.
struct Made {
    words: &'static [&'static str],
    output: &'static [u8],
    writes: u64,
}

/// Commands that read nothing, with what they write.
const MADE: [Made; 4] = [
    Made {
        words: &["usage"],
        output: USAGE,
        writes: 2,
    },
    Made {
        words: &["script", "1", "1"],
        output: br#"{"caller":0,"phase":0,"now":"2024-01-01T00:00:00Z","method":"POST","path":"/v2/default/transactions","body":{"postings":[{"source":"world","destination":"customers:548","amount":1000,"asset":"USD/2"},{"source":"customers:548","destination":"shop:sales","amount":990,"asset":"USD/2"},{"source":"customers:548","destination":"shop:fees","amount":10,"asset":"USD/2"}]}}
"#,
        writes: 6,
    },
    Made {
        words: &["make", "1", "1"],
        output: b"lines 1
accepted 1
entries 1
shop:fees USD/2 10 0 10
shop:sales USD/2 990 0 990
world USD/2 0 1000 -1000
head 6a95bbe8161286cabed967e1c74b332f937b7411bedf23cc11b06141323d2649
",
        writes: 3,
    },
    Made {
        words: &["make", "1", "10000"],
        output: b"lines 10000
accepted 10000
entries 10000
shop:fees USD/2 126000 14000 112000
shop:sales USD/2 13284000 1476000 11808000
world USD/2 1490000 13410000 -11920000
head ae64fae74c317bd0bcd911c9449b423e0c8568643d4f95c449d1bd41482a640b
",
        writes: 4,
    },
];

fn words_of(alloc: Global, words: &[&str]) -> Result<Vec<String>, Fail> {
    let mut all = Vec::new(alloc);
    for word in words {
        all.push(String::from_str(alloc, word)?)?;
    }
    Ok(all)
}

/// Whether a command writes what it has to, over a source whose first read fails.
fn is_made(alloc: Global, row: &Made) -> Result<bool, Fail> {
    let words = words_of(alloc, row.words)?;
    let fails = vec![in alloc; 1u64]?;
    let mut source = MemSource::new(b"[]".to_vec(alloc)?, fails, 10);
    let ending = call(alloc, words.as_slice(), &mut source)?;
    Ok(is_whole(&ending, row.output))
}

#[test]
fn commands_without_input_write_what_they_have_to(rt: HostRuntime) -> Result<(), Fail> {
    for row in &MADE {
        let right = is_made(rt.alloc(), row)?;
        assert!(rt; right, "{}", row.words[0]);
    }
    Ok(())
}

/// Whether a call ended with this status and its line, and a front of the output was written.
fn is_cut(ending: &Ending, status: Status, line: &[u8], output: &[u8]) -> bool {
    ending.status == status
        && ending.error.written() == line
        && output.starts_with(ending.out.written())
}

/// Runs a worked script over a source that gives 64 bytes a read, and fails at this one.
fn run_failing_at(alloc: Global, script: &[u8], read: u64) -> Result<Ending, Fail> {
    let words = words_of(alloc, &["run"])?;
    let fails = vec![in alloc; read]?;
    let mut source = MemSource::new(script.to_vec(alloc)?, fails, 64);
    call(alloc, words.as_slice(), &mut source)
}

#[test]
fn each_read_that_fails_is_told(rt: HostRuntime) -> Result<(), Fail> {
    // the script's 225 bytes are four reads, and a fifth finds the end
    for read in 1..=5 {
        let ending = run_failing_at(rt.alloc(), ROWS[0].script, read)?;
        let told = is_cut(&ending, Status::ReadFault, b"ledgerd: read fault\n", b"");
        assert!(rt; told, "read {read}");
    }
    Ok(())
}

#[test]
fn no_read_comes_after_the_end(rt: HostRuntime) -> Result<(), Fail> {
    let ending = run_failing_at(rt.alloc(), ROWS[0].script, 6)?;
    assert!(rt; is_whole(&ending, ROWS[0].output));
    Ok(())
}

/// Calls the program with the words over a sink that fails at this write.
fn write_failing_at(
    alloc: Global,
    words: &[&str],
    input: &[u8],
    write: u64,
) -> Result<Ending, Fail> {
    let words = words_of(alloc, words)?;
    let fails = vec![in alloc; write]?;
    let mut source = CalmSource::new(input.to_vec(alloc)?, 1000);
    call_failing(alloc, words.as_slice(), &mut source, fails)
}

/// Whether that write's failing is told, with a front of the output written.
fn is_told(
    alloc: Global,
    words: &[&str],
    input: &[u8],
    write: u64,
    output: &[u8],
) -> Result<bool, Fail> {
    let ending = write_failing_at(alloc, words, input, write)?;
    Ok(is_cut(
        &ending,
        Status::WriteFault,
        b"ledgerd: write fault\n",
        output,
    ))
}

#[test]
fn each_write_of_a_run_that_fails_is_told(rt: HostRuntime) -> Result<(), Fail> {
    // the output's 1,525 bytes are 24 writes
    for write in 1..=24 {
        let told = is_told(rt.alloc(), &["run"], ROWS[0].script, write, ROWS[0].output)?;
        assert!(rt; told, "write {write}");
    }
    let ending = write_failing_at(rt.alloc(), &["run"], ROWS[0].script, 25)?;
    assert!(rt; is_whole(&ending, ROWS[0].output));
    Ok(())
}

/// Whether each write of a command without input is told where it fails, and a write after the last changes nothing.
fn are_told(alloc: Global, row: &Made) -> Result<bool, Fail> {
    for write in 1..=row.writes {
        if !is_told(alloc, row.words, b"", write, row.output)? {
            return Ok(false);
        }
    }
    let ending = write_failing_at(alloc, row.words, b"", row.writes.saturating_add(1))?;
    Ok(is_whole(&ending, row.output))
}

#[test]
fn each_write_of_other_commands_that_fails_is_told(rt: HostRuntime) -> Result<(), Fail> {
    // the run of 10,000 lines would take long
    for row in &MADE[..3] {
        let told = are_told(rt.alloc(), row)?;
        assert!(rt; told, "{}", row.words[0]);
    }
    Ok(())
}

/// Words that ask for nothing.
const REFUSED: [&[&str]; 9] = [
    &[],
    &["runs"],
    &["usage", "x"],
    &["make", "1"],
    &["script", "1", "0"],
    &["script", "1", "100001"],
    &["script", "18446744073709551616", "1"],
    &["make", "01", "1"],
    &["make", "1", "+1"],
];

fn is_refused(alloc: Global, words: &[&str]) -> Result<bool, Fail> {
    let words = words_of(alloc, words)?;
    let mut source = CalmSource::new(Vec::new(alloc), 1);
    let ending = call(alloc, words.as_slice(), &mut source)?;
    Ok(
        ending.status == Status::Words
            && ending.out.written().is_empty()
            && ending.error.written() == USAGE,
    )
}

#[test]
fn other_words_get_the_usage_line(rt: HostRuntime) -> Result<(), Fail> {
    for words in &REFUSED {
        let refused = is_refused(rt.alloc(), words)?;
        assert!(rt; refused);
    }
    Ok(())
}

#[test]
fn a_further_word_gets_the_usage_line(rt: HostRuntime) -> Result<(), Fail> {
    let ending = call_with(rt.alloc(), "run", "x")?;
    assert!(rt; ending.status == Status::Words);
    assert!(rt; ending.out.written().is_empty());
    assert!(rt; ending.error.written() == USAGE);
    Ok(())
}

#[test]
fn too_many_workers_get_the_usage_line(rt: HostRuntime) -> Result<(), Fail> {
    let ending = call_with(rt.alloc(), "batch", "65")?;
    assert!(rt; ending.status == Status::Words);
    assert!(rt; ending.out.written().is_empty());
    assert!(rt; ending.error.written() == USAGE);
    Ok(())
}

#[test]
fn a_reader_is_a_source(rt: HostRuntime) {
    let mut source = ReadSource::new(b"abc".as_slice());
    let mut room = [0; 2];
    assert_eq!(rt; source.read(&mut room), Ok(2));
    assert_eq!(rt; room, [b'a', b'b']);
    assert_eq!(rt; source.read(&mut room), Ok(1));
    assert_eq!(rt; source.read(&mut room), Ok(0));
}

#[test]
fn a_writer_is_a_sink(rt: HostRuntime) {
    let mut sink = WriteSink::new(Vec::new(rt.alloc()));
    assert_eq!(rt; sink.write(b"abc"), Ok(3));
    assert_eq!(rt; sink.write(b""), Ok(0));
}

/// Each status with its number.
const NUMBERS: [(Status, u8); 7] = [
    (Status::Done, 0),
    (Status::Words, 2),
    (Status::ReadFault, 3),
    (Status::WriteFault, 4),
    (Status::Memory, 5),
    (Status::InputLimit, 6),
    (Status::BadLines, 7),
];

#[test]
fn each_status_has_its_number(rt: HostRuntime) {
    for (status, number) in &NUMBERS {
        assert_eq!(rt; code(*status), *number);
    }
}
