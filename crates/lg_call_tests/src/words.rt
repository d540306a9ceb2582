//! Words of scenarios, and what is told in words.

use lg_request_tests::text_of;
use lg_time::{is_moment, print_moment, read_moment};
use std::alloc::Global;
use std::test::Fail;

/// The number that the word is.
pub fn number_of(word: &str) -> Result<u64, Fail> {
    match word.parse::<u64>() {
        Ok(number) => Ok(number),
        Err(_) => Err("no number".into()),
    }
}

/// The moment that the word is, in microseconds since 1970-01-01T00:00:00Z.
pub fn moment_of(word: &str) -> Result<i64, Fail> {
    match read_moment(word.as_bytes()) {
        Ok(moment) => Ok(moment),
        Err(_) => Err("no moment".into()),
    }
}

/// The end of a span that the word is; `-` is no end.
pub fn end_of(word: &str) -> Result<Option<i64>, Fail> {
    if word == "-" {
        Ok(None)
    } else {
        Ok(Some(moment_of(word)?))
    }
}

/// The text of a moment, in microseconds since 1970-01-01T00:00:00Z.
pub fn told_moment(alloc: Global, moment: i64) -> Result<String, Fail> {
    if !is_moment(moment) {
        return Err("no moment".into());
    }
    let mut text = [0; 27];
    let length = print_moment(moment, &mut text);
    text_of(alloc, &text[..length])
}

/// The text of a moment, or `none`.
pub fn told_moment_or_none(alloc: Global, moment: Option<i64>) -> Result<String, Fail> {
    match moment {
        Some(moment) => told_moment(alloc, moment),
        None => text_of(alloc, b"none"),
    }
}

/// A number, or `none`.
pub fn told_number(alloc: Global, number: Option<u64>) -> Result<String, Fail> {
    match number {
        Some(number) => Ok(format!(in alloc; "{number}")?),
        None => text_of(alloc, b"none"),
    }
}

/// A hash in hexadecimal.
pub fn told_hash(alloc: Global, hash: &[u8; 32]) -> Result<String, Fail> {
    let mut text = String::new(alloc);
    for byte in hash {
        let digits = format!(in alloc; "{byte:02x}")?;
        text.push_str(digits.as_str())?;
    }
    Ok(text)
}
