//! Scenarios: lines of what is asked and what is answered, over new ledgers.

use crate::asked_book::told_by_book;
use crate::asked_shards::{is_of_shards, told_by_shards};
use crate::words::number_of;
use lg_replies::status_of;
use lg_request_tests::{Request, body_text, call_of, midnight};
use lg_store::Solo;
use lg_types::{Call, LedgerName};
use lg_views::Answer;
use std::alloc::Global;
use std::process::Abort;
use std::test::Fail;

/// Asserts what is answered to the lines of a scenario, one after the other. A line is what is asked, ` = `, and the
/// answer. What is asked is
/// - a request: its method, the day of January 2024 at whose midnight it comes, its target, its key or `-`, and its
///   body, where it has one; the answer is the number of events before it, the number of events that it added, `hit`
///   for a repeated reply, the status and the body;
/// - or a ledger, and what the shards or the book are asked about it.
pub fn check(rt: &impl Abort, alloc: Global, text: &str) -> Result<(), Fail> {
    let mut solo = Solo::new(alloc)?;
    for line in text.lines() {
        check_line(rt, alloc, &mut solo, line)?;
    }
    Ok(())
}

fn check_line(rt: &impl Abort, alloc: Global, solo: &mut Solo, line: &str) -> Result<(), Fail> {
    let (asked, answer) = line.split_once(" = ").ok_or("no answer")?;
    let told = told_line(alloc, solo, asked)?;
    assert_eq!(rt; told.as_str(), answer, "{asked}");
    Ok(())
}

fn is_method(word: &str) -> bool {
    match word.as_bytes() {
        b"POST" => true,
        b"DELETE" => true,
        _ => false,
    }
}

fn told_line(alloc: Global, solo: &mut Solo, asked: &str) -> Result<String, Fail> {
    let words: Vec<&str> = asked.split_whitespace().collect(alloc)?;
    match words.as_slice() {
        [first, second, rest @ ..] => {
            if is_method(first) {
                told_request(alloc, solo, first, second, rest)
            } else {
                told_about(alloc, solo, first, second, rest)
            }
        }
        _ => Err("too few words".into()),
    }
}

fn day_of(word: &str) -> Result<u8, Fail> {
    match word.parse::<u8>() {
        Ok(day) => Ok(day),
        Err(_) => Err("no day".into()),
    }
}

fn told_request(
    alloc: Global,
    solo: &mut Solo,
    method: &str,
    day: &str,
    words: &[&str],
) -> Result<String, Fail> {
    let day = day_of(day)?;
    match *words {
        [target, key] => answered(alloc, solo, &request_of(day, method, target, key, "")),
        [target, key, body] => answered(alloc, solo, &request_of(day, method, target, key, body)),
        _ => Err("no request".into()),
    }
}

fn request_of<'a>(
    day: u8,
    method: &'a str,
    target: &'a str,
    key: &'a str,
    body: &'a str,
) -> Request<'a> {
    let key = if key == "-" { "" } else { key };
    Request {
        day,
        method,
        target,
        key,
        body,
    }
}

fn answered(alloc: Global, solo: &mut Solo, request: &Request<'_>) -> Result<String, Fail> {
    let call = call_of(alloc, request)?;
    answer_of(alloc, solo, &call, request.day)
}

fn answer_of(alloc: Global, solo: &mut Solo, call: &Call, day: u8) -> Result<String, Fail> {
    let answer = solo.call(call, midnight(day));
    told_answer(alloc, &answer)
}

/// An answer in short.
fn told_answer(alloc: Global, answer: &Answer) -> Result<String, Fail> {
    let body = body_text(alloc, &answer.reply)?;
    let status = status_of(&answer.reply);
    let kind = if answer.reply.hit { "hit" } else { "new" };
    Ok(format!(in alloc; "{} {} {kind} {status} {body}", answer.front, answer.events)?)
}

fn told_about(
    alloc: Global,
    solo: &Solo,
    ledger: &str,
    kind: &str,
    words: &[&str],
) -> Result<String, Fail> {
    let ledger = LedgerName::read(alloc, ledger.as_bytes())?;
    if is_of_shards(kind) {
        told_by_shards(alloc, solo, &ledger, kind, words)
    } else {
        told_by_book(alloc, solo.book(), &ledger, kind, words)
    }
}
