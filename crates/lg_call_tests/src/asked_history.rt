//! What is asked of the history of metadata.

use crate::words::{end_of, told_moment_or_none};
use lg_book::MetaHistory;
use lg_request_tests::{canonical_text, text_of};
use std::alloc::Global;
use std::test::Fail;

fn told_value(
    alloc: Global,
    history: &MetaHistory,
    name: &str,
    date: &str,
) -> Result<String, Fail> {
    match history.value(name.as_bytes(), end_of(date)?) {
        Some(value) => text_of(alloc, value.bytes()),
        None => text_of(alloc, b"none"),
    }
}

fn told_metadata(alloc: Global, history: &MetaHistory, date: &str) -> Result<String, Fail> {
    let metadata = history.copy_at(end_of(date)?)?;
    canonical_text(alloc, &metadata)
}

/// What is answered of a history, and `none` where there is none: `first` asks for the date of the first change, `at` for
/// all metadata at a moment, and `value` for the value of a name at a moment; `-` stands for no date.
pub fn told_history(
    alloc: Global,
    history: Option<&MetaHistory>,
    words: &[&str],
) -> Result<String, Fail> {
    let Some(history) = history else {
        return text_of(alloc, b"none");
    };
    match *words {
        ["first"] => told_moment_or_none(alloc, history.first()),
        ["at", date] => told_metadata(alloc, history, date),
        ["value", name, date] => told_value(alloc, history, name, date),
        _ => Err("no question of a history".into()),
    }
}
