//! Scripts in odd spellings, and lines that aren't read.

use crate::lines::{line_at, script_of};
use lg_types::{Call, Read, Reason, Refusal, Write};
use lg_views::ScriptLine;
use std::alloc::Global;
use std::process::Abort;
use std::test::Fail;

fn word_of(reason: Reason) -> &'static str {
    match reason {
        Reason::Missing => "missing",
        Reason::Kind => "kind",
        Reason::Form => "form",
    }
}

/// The name of a member that lines have, or of a part of their requests; `-` for the line itself.
fn member_of(name: &[u8]) -> &'static str {
    match name {
        b"" => "-",
        b"now" => "now",
        b"caller" => "caller",
        b"phase" => "phase",
        b"method" => "method",
        b"path" => "path",
        b"key" => "key",
        b"body" => "body",
        b"ledger" => "ledger",
        _ => "another",
    }
}

fn parameter_of(name: &[u8]) -> &'static str {
    match name {
        b"pageSize" => "pageSize",
        b"hashes" => "hashes",
        b"order" => "order",
        _ => "another",
    }
}

fn told_refusal(alloc: Global, refusal: &Refusal) -> Result<String, Fail> {
    match refusal {
        Refusal::LineJson { place, .. } => Ok(format!(in alloc; "json {place}")?),
        Refusal::LineMember { member, reason } => {
            let member = member_of(member.bytes());
            let reason = word_of(*reason);
            Ok(format!(in alloc; "{member} {reason}")?)
        }
        Refusal::Member { path, reason } => {
            let path = member_of(path.bytes());
            let reason = word_of(*reason);
            Ok(format!(in alloc; "in the request: {path} {reason}")?)
        }
        Refusal::NoRoute => Ok(format!(in alloc; "no route")?),
        Refusal::Method => Ok(format!(in alloc; "method")?),
        Refusal::Parameter { name } => {
            let name = parameter_of(name.bytes());
            Ok(format!(in alloc; "query {name}")?)
        }
        Refusal::NotBuilt => Ok(format!(in alloc; "not built")?),
        _ => Ok(format!(in alloc; "another refusal")?),
    }
}

fn told_call(alloc: Global, call: &Call) -> Result<String, Fail> {
    match call {
        Call::Unreadable(refusal) => told_refusal(alloc, refusal),
        Call::MakeLedger { .. } => Ok(format!(in alloc; "a ledger")?),
        Call::Write {
            key: Some(_),
            write: Write::Create { .. },
            ..
        } => { Ok(format!(in alloc; "a creation with a key")?) }
        Call::Write { .. } => Ok(format!(in alloc; "another write")?),
        Call::Read {
            read: Read::Logs { .. },
            ..
        } => { Ok(format!(in alloc; "a page of a log")?) }
        _ => Ok(format!(in alloc; "another call")?),
    }
}

/// Number, caller, phase, moment and call of a line.
fn told(alloc: Global, line: &ScriptLine) -> Result<String, Fail> {
    let call = told_call(alloc, &line.call)?;
    Ok(format!(in alloc;
        "{} {} {} {} {call}",
        line.line, line.caller, line.phase, line.moment
    )?)
}

/// What the one line of a script says.
fn told_line(alloc: Global, text: &str) -> Result<String, Fail> {
    let script = script_of(alloc, text)?;
    told(alloc, line_at(&script, 0)?)
}

/// Asserts what is read of lines.
fn check(rt: &impl Abort, alloc: Global, rows: &[(&str, &str)]) -> Result<(), Fail> {
    for row in rows {
        let line = told_line(alloc, row.0)?;
        assert_eq!(rt; line.as_str(), row.1);
    }
    Ok(())
}

#[test]
fn lines_are_refused_at_their_first_fault(rt: HostRuntime) -> Result<(), Fail> {
    check(
        &rt,
        rt.alloc(),
        &[
            ("[]", "1 0 0 0 - kind"),
            ("{\"now\":\"2024\n", "1 0 0 0 json 12"),
            ("{}", "1 0 0 0 now missing"),
            (r#"{"now":1,"caller":""}"#, "1 0 0 0 now kind"),
            (r#"{"now":"1970-01-01T00:00:61Z"}"#, "1 0 0 0 now form"),
            (
                r#"{"now":"1970-01-01T00:00:01Z","caller":"1"}"#,
                "1 0 0 0 caller kind",
            ),
            (
                r#"{"now":"1970-01-01T00:00:01Z","caller":64}"#,
                "1 0 0 0 caller form",
            ),
            (
                r#"{"now":"1970-01-01T00:00:01Z","phase":-1}"#,
                "1 0 0 0 phase form",
            ),
            (
                r#"{"now":"1970-01-01T00:00:01Z","phase":1000000}"#,
                "1 0 0 0 phase form",
            ),
            (
                r#"{"now":"1970-01-01T00:00:01Z"}"#,
                "1 0 0 0 method missing",
            ),
            (
                r#"{"now":"1970-01-01T00:00:01Z","method":"POST","path":[]}"#,
                "1 0 0 0 path kind",
            ),
            (
                r#"{"now":"1970-01-01T00:00:01Z","method":"POST","path":"/","key":1}"#,
                "1 0 0 0 key kind",
            ),
        ],
    )
}

#[test]
fn lines_are_read(rt: HostRuntime) -> Result<(), Fail> {
    check(
        &rt,
        rt.alloc(),
        &[
            (
                r#"{"now":"1970-01-01T00:00:01Z","caller":63,"phase":999999,"method":"POST","path":"/"}"#,
                "1 63 999999 1000000 no route",
            ),
            (
                r#"{"now":"1970-01-01T00:00:01Z","method":"GET","path":"/v2/default/logs"}"#,
                "1 0 0 1000000 a page of a log",
            ),
            (
                r#"{"now":"1970-01-01T00:00:01Z","method":"GET","path":"/v2/default/logs?pageSize=0"}"#,
                "1 0 0 1000000 query pageSize",
            ),
            (
                r#"{"now":"1970-01-01T00:00:01Z","method":"POST","path":"/v2/default/logs/import"}"#,
                "1 0 0 1000000 not built",
            ),
            (
                " { \"path\":\"\\/v2\\/default\\/transactions\", \"key\":\"k\",\"body\":{\"postings\":[{\"source\":\"a\",\"destination\":\"b\",\"amount\":1,\"asset\":\"X\"}]},\"\\u006eow\":\"1970-01-01t00:00:00.000001z\",\"method\":\"POS\\u0054\"}\t",
                "1 0 0 1 a creation with a key",
            ),
        ],
    )
}

#[test]
fn imports_are_refused_at_their_first_fault(rt: HostRuntime) -> Result<(), Fail> {
    check(
        &rt,
        rt.alloc(),
        &[
            (
                r#"{"now":"1970-01-01T00:00:01Z","method":"POST","path":"/v2/default/logs/import","body":null}"#,
                "1 0 0 1000000 not built",
            ),
            (
                r#"{"now":"1970-01-01T00:00:01Z","method":"POST","path":"/v2/default/logs/import?hashes=recompute","key":"","body":"{}"}"#,
                "1 0 0 1000000 not built",
            ),
            (
                r#"{"now":"1970-01-01T00:00:01Z","method":"POST","path":"/v2/default/logs/import","body":5}"#,
                "1 0 0 1000000 in the request: body kind",
            ),
            (
                r#"{"now":"1970-01-01T00:00:01Z","method":"POST","path":"/v2/default/logs/import?order=x","body":""}"#,
                "1 0 0 1000000 query order",
            ),
            (
                r#"{"now":"1970-01-01T00:00:01Z","method":"POST","path":"/v2/default/logs/import?order=x&hashes=x","body":5}"#,
                "1 0 0 1000000 query hashes",
            ),
            (
                r#"{"now":"1970-01-01T00:00:01Z","method":"POST","path":"/v2/a%20b/logs/import?hashes=x","body":5}"#,
                "1 0 0 1000000 in the request: ledger form",
            ),
            (
                r#"{"now":"1970-01-01T00:00:01Z","method":"GET","path":"/v2/a%20b/logs/import","body":""}"#,
                "1 0 0 1000000 method",
            ),
            (
                r#"{"now":"1970-01-01T00:00:01Z","method":"POST","path":"/v2/default/transactions","body":""}"#,
                "1 0 0 1000000 in the request: body kind",
            ),
        ],
    )
}

/// The number, caller, phase, moment and call of each line of a script, each ended by a semicolon.
fn told_script(alloc: Global, text: &str) -> Result<String, Fail> {
    let script = script_of(alloc, text)?;
    let mut lines = String::new(alloc);
    for line in script.as_slice() {
        let line = told(alloc, line)?;
        lines.push_str(line.as_str())?;
        lines.push_str("; ")?;
    }
    Ok(lines)
}

#[test]
fn lines_are_cut_and_counted(rt: HostRuntime) -> Result<(), Fail> {
    let lines = told_script(rt.alloc(), "[]\r\n\r\n\n \n{}")?;
    assert_eq!(rt;
        lines.as_str(),
        "1 0 0 0 - kind; 4 0 0 0 json 1; 5 0 0 0 now missing; "
    );
    Ok(())
}

#[test]
fn phases_do_not_fall(rt: HostRuntime) -> Result<(), Fail> {
    let lines = told_script(
        rt.alloc(),
        r#"{"now":"1970-01-01T00:00:01Z","phase":2,"method":"POST","path":"/v2/l"}
[]
{"now":"1970-01-01T00:00:01Z","phase":1,"method":"POST","path":"/v2/l"}
"#,
    )?;
    assert_eq!(rt;
        lines.as_str(),
        "1 0 2 1000000 a ledger; 2 0 2 0 - kind; 3 0 2 0 phase form; "
    );
    Ok(())
}
