//! The members of a line.

ghost use Rattle.std.specs.Prelude.{◌≡◌, ◌<◌, false, bytes_eq, codes, length, IfSome};
ghost use Rattle.std.specs.Option.{option_map};
ghost use Rattle.lg_codec.specs.Seen.{value_seen, members_seen};
ghost use Rattle.lg_json.specs.Tree.{tree};
ghost use Rattle.lg_routes.specs.Seen.{bytes_seen};
ghost use Rattle.lg_readings.specs.Answers.{known};
ghost use Rattle.lg_readings.specs.Script as script;
ghost use Rattle.lg_readings.specs.Values as values;
ghost use Rattle.lg_batch.specs.Reads.{ReadsAs, lent_bytes};

use crate::stops::bad_member;
use lg_codec::CodecStop;
use lg_json::{Json, Member};
use lg_routes::same_bytes;
use lg_time::read_moment;
use lg_types::Reason;
use std::alloc::Global;

/// The value of the first member of the name.
fn value_of<'a>(members: &'a [Member], name: &[u8]) -> Option<&'a Json>
    ensures { value_seen result ≡ values.value_of name.now (members_seen members.now) }
{
    for member in members {
        if same_bytes(member.name.bytes(), name) {
            return Some(&member.value);
        }
    }
    None
}

/// The value, where it isn't null.
fn present(value: &Json) -> Option<&Json>
    ensures { value_seen result ≡ values.present (tree value.now) }
{
    match value {
        Json::Null => None,
        _ => Some(value),
    }
}

/// The value under the name; null counts as absent.
fn under<'a>(members: &'a [Member], name: &[u8]) -> Option<&'a Json>
    ensures { value_seen result ≡ values.under name.now (members_seen members.now) }
{
    match value_of(members, name) {
        Some(value) => present(value),
        None => None,
    }
}

/// A text.
pub fn text_member<'a>(
    alloc: Global,
    name: &str,
    members: &'a [Member],
) -> Result<&'a [u8], CodecStop>
    ensures { ReadsAs lent_bytes (known (script.text_member name.now (values.under name.now (members_seen members.now)))) result }
{
    match under(members, name.as_bytes()) {
        None => Err(bad_member(alloc, name, Reason::Missing)),
        Some(Json::Text(text)) => Ok(text.bytes()),
        Some(_) => Err(bad_member(alloc, name, Reason::Kind)),
    }
}

fn between(alloc: Global, name: &str, least: u32, most: u32, number: i128) -> Result<u32, CodecStop>
    ensures { ReadsAs (λ n. n) (known (script.between name.now least most number)) result }
{
    if number < least as i128 || number > most as i128 {
        return Err(bad_member(alloc, name, Reason::Form));
    }
    Ok(number as u32)
}

/// A whole number between two ends; 0 where it is absent.
pub fn number_member(
    alloc: Global,
    name: &str,
    least: u32,
    most: u32,
    members: &[Member],
) -> Result<u32, CodecStop>
    ensures { ReadsAs (λ n. n) (known (script.number_member name.now least most (values.under name.now (members_seen members.now)))) result }
{
    match under(members, name.as_bytes()) {
        None => between(alloc, name, least, most, 0),
        Some(Json::Whole(number)) => between(alloc, name, least, most, *number),
        Some(_) => Err(bad_member(alloc, name, Reason::Kind)),
    }
}

/// The key, where there is one.
pub fn key_member(alloc: Global, members: &[Member]) -> Result<Option<&[u8]>, CodecStop>
    ensures { ReadsAs bytes_seen (known (script.key_member (values.under (codes "key") (members_seen members.now)))) result }
{
    match under(members, b"key") {
        None => Ok(None),
        Some(Json::Text(text)) => Ok(Some(text.bytes())),
        Some(_) => Err(bad_member(alloc, "key", Reason::Kind)),
    }
}

/// The moment of a line, in microseconds since 1970-01-01T00:00:00Z.
pub fn moment_in(alloc: Global, text: &[u8]) -> Result<i64, CodecStop>
    ensures { ReadsAs (λ n. n) (script.NowIn text.now) result }
{
    match read_moment(text) {
        Ok(moment) => Ok(moment),
        Err(_) => Err(bad_member(alloc, "now", Reason::Form)),
    }
}
