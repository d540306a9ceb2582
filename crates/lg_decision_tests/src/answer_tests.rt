//! What the lines of scripts are answered on all ledgers, one after the other.

use crate::lines::script_of;
use lg_store::Solo;
use lg_types::Refusal;
use lg_views::{Answer, Content, ScriptLine, TransactionView};
use std::alloc::Global;
use std::process::Abort;
use std::test::Fail;

fn told_view(alloc: Global, view: &TransactionView) -> Result<String, Fail> {
    let volumes = view.post_commit_volumes.is_some();
    Ok(format!(in alloc; "transaction {} with volumes {volumes}", view.id)?)
}

fn told_refusal(alloc: Global, refusal: &Refusal) -> Result<String, Fail> {
    match refusal {
        Refusal::LedgerThere { .. } => Ok(format!(in alloc; "the ledger is there")?),
        Refusal::NoLedger { .. } => Ok(format!(in alloc; "no ledger")?),
        Refusal::Lack {
            posting,
            balance,
            amount,
            ..
        } => Ok(format!(in alloc; "posting {posting} has {balance} and needs {amount}")?),
        _ => Ok(format!(in alloc; "another refusal")?),
    }
}

fn told_content(alloc: Global, content: &Content) -> Result<String, Fail> {
    match content {
        Content::Empty => Ok(format!(in alloc; "empty")?),
        Content::Created(view) => told_view(alloc, view),
        Content::Refused(refusal) => told_refusal(alloc, refusal),
        _ => Ok(format!(in alloc; "another reply")?),
    }
}

/// The number of events before the call, the number of events that it added, whether it is a repeated reply, and what
/// it holds.
fn told(alloc: Global, answer: &Answer) -> Result<String, Fail> {
    let content = told_content(alloc, &answer.reply.content)?;
    let hit = answer.reply.hit;
    Ok(format!(in alloc; "{} {} {hit}: {content}", answer.front, answer.events)?)
}

fn asked(alloc: Global, solo: &mut Solo, line: &ScriptLine) -> Result<String, Fail> {
    told(alloc, &solo.call(&line.call, line.moment))
}

/// What the lines of a script are answered, each ended by a semicolon, and the number of all events at the end.
fn told_answers(alloc: Global, text: &str) -> Result<String, Fail> {
    let script = script_of(alloc, text)?;
    let mut solo = Solo::new(alloc)?;
    let mut answers = String::new(alloc);
    for line in script.as_slice() {
        let answer = asked(alloc, &mut solo, line)?;
        answers.push_str(answer.as_str())?;
        answers.push_str("; ")?;
    }
    Ok(format!(in alloc; "{answers}{} events", solo.book().len())?)
}

fn check(rt: &impl Abort, alloc: Global, rows: &[(&str, &str)]) -> Result<(), Fail> {
    for row in rows {
        let answers = told_answers(alloc, row.0)?;
        assert_eq!(rt; answers.as_str(), row.1);
    }
    Ok(())
}

#[test]
fn a_repeated_key_is_answered_by_its_entry(rt: HostRuntime) -> Result<(), Fail> {
    check(
        &rt,
        rt.alloc(),
        &[(
            r#"{"now":"2024-01-01T00:00:00Z","method":"POST","path":"/v2/default/transactions","key":"k1","body":{"postings":[{"source":"world","destination":"users:1","amount":100,"asset":"USD/2"}]}}
{"now":"2024-01-01T00:00:00Z","method":"POST","path":"/v2/default/transactions","key":"k1","body":{"postings":[{"source":"world","destination":"users:1","amount":100,"asset":"USD/2"}]}}
"#,
            "1 1 false: transaction 1 with volumes true; 2 0 true: transaction 1 with volumes true; 2 events",
        )],
    )
}

#[test]
fn a_ledger_is_made_once(rt: HostRuntime) -> Result<(), Fail> {
    check(
        &rt,
        rt.alloc(),
        &[
            (
                r#"{"now":"2024-01-01T00:00:00Z","method":"POST","path":"/v2/default"}"#,
                "1 0 false: the ledger is there; 1 events",
            ),
            (
                r#"{"now":"2024-01-01T00:00:00Z","method":"POST","path":"/v2/other"}
{"now":"2024-01-01T00:00:00Z","method":"POST","path":"/v2/other"}
"#,
                "1 1 false: empty; 2 0 false: the ledger is there; 2 events",
            ),
        ],
    )
}

#[test]
fn a_creation_needs_its_ledger_and_its_funds(rt: HostRuntime) -> Result<(), Fail> {
    check(
        &rt,
        rt.alloc(),
        &[
            (
                r#"{"now":"2024-01-01T00:00:00Z","method":"POST","path":"/v2/default/transactions","key":"k1","body":{"postings":[{"source":"world","destination":"b","amount":10,"asset":"EUR"}]}}"#,
                "1 1 false: transaction 1 with volumes true; 2 events",
            ),
            (
                r#"{"now":"2024-01-01T00:00:00Z","method":"POST","path":"/v2/default/transactions","key":"k1","body":{"postings":[{"source":"a","destination":"b","amount":1,"asset":"EUR"}]}}"#,
                "1 0 false: posting 0 has 0 and needs 1; 1 events",
            ),
            (
                r#"{"now":"2024-01-01T00:00:00Z","method":"POST","path":"/v2/nope/transactions","key":"k1","body":{"postings":[{"source":"a","destination":"b","amount":1,"asset":"EUR"}]}}"#,
                "1 0 false: no ledger; 1 events",
            ),
        ],
    )
}
