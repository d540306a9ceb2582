//! Reading one JSON value.

ghost use Rattle.std.specs.Prelude.{◌≡◌, ◌^◌, bytes_eq};
ghost use Rattle.lg_json.specs.Tree.{tree};
ghost use Rattle.lg_readings.specs.Answers.{known, IfForm};
ghost use Rattle.lg_codec.specs.Results.{Reads};
ghost use Rattle.lg_codec.specs.PathParts.{path_of};
ghost use Rattle.lg_codec.specs.Seen.{value_seen, members_seen};
ghost use Rattle.lg_readings.specs.Values as values;

use crate::path_parts::Path;
use crate::paths::wrong;
use crate::stop::CodecStop;
use lg_base::Amount;
use lg_containers::{Duplicate, Grammar, Name, NameFault};
use lg_json::{Json, Member};
use lg_time::read_moment;
use lg_types::{Reason, Text};
use std::alloc::Global;

pub fn same_bytes(a: &[u8], b: &[u8]) -> bool
    ensures { result ≡ bytes_eq a.now b.now }
{
    a == b
}

/// The value of the first member of the name.
fn value_of<'a>(members: &'a [Member], name: &[u8]) -> Option<&'a Json>
    ensures { value_seen result ≡ values.value_of name.now (members_seen members.now) }
{
    for member in members {
        if same_bytes(member.name.bytes(), name) {
            return Some(&member.value);
        }
    }
    None
}

/// The value, where it isn't null.
pub fn present(value: &Json) -> Option<&Json>
    ensures { value_seen result ≡ values.present (tree value.now) }
{
    match value {
        Json::Null => None,
        _ => Some(value),
    }
}

/// The value under the name; null counts as absent.
pub fn under<'a>(members: &'a [Member], name: &[u8]) -> Option<&'a Json>
    ensures { value_seen result ≡ values.under name.now (members_seen members.now) }
{
    match value_of(members, name) {
        Some(value) => present(value),
        None => None,
    }
}

/// The name of the grammar that the bytes are.
pub fn read_name<G: Grammar>(
    alloc: Global,
    path: &Path<'_>,
    bytes: &[u8],
) -> Result<Name<G>, CodecStop>
    ensures { Reads (IfForm (G.Names bytes.now) (path_of path.entry.now) bytes.now) result }
{
    match Name::<G>::read(alloc, bytes) {
        Ok(name) => Ok(name),
        Err(NameFault::Bad { .. }) => Err(wrong(alloc, path, Reason::Form)),
        Err(NameFault::NoMemory) => Err(CodecStop::NoMemory),
    }
}

/// The name of the grammar that a text is.
pub fn name_of<G: Grammar>(
    alloc: Global,
    path: &Path<'_>,
    value: Option<&Json>,
) -> Result<Name<G>, CodecStop>
    ensures { Reads (values.Name G.Names (path_of path.entry.now) (value_seen value.entry)) result }
{
    match value {
        None => Err(wrong(alloc, path, Reason::Missing)),
        Some(Json::Text(text)) => read_name(alloc, path, text.bytes()),
        Some(_) => Err(wrong(alloc, path, Reason::Kind)),
    }
}

fn some_name<G: Grammar>(
    alloc: Global,
    path: &Path<'_>,
    bytes: &[u8],
) -> Result<Option<Name<G>>, CodecStop>
    ensures { Reads (values.SomeName G.Names (path_of path.entry.now) bytes.now) result }
{
    if bytes.is_empty() {
        return Ok(None);
    }
    Ok(Some(read_name(alloc, path, bytes)?))
}

/// The name of the grammar that a text is; none where it is absent or empty.
pub fn optional_name_of<G: Grammar>(
    alloc: Global,
    path: &Path<'_>,
    value: Option<&Json>,
) -> Result<Option<Name<G>>, CodecStop>
    ensures { Reads (values.OptionalName G.Names (path_of path.entry.now) (value_seen value.entry)) result }
{
    match value {
        None => Ok(None),
        Some(Json::Text(text)) => some_name(alloc, path, text.bytes()),
        Some(_) => Err(wrong(alloc, path, Reason::Kind)),
    }
}

/// A text.
pub fn text_of(alloc: Global, path: &Path<'_>, value: Option<&Json>) -> Result<Text, CodecStop>
    ensures { Reads (known (values.text_of (path_of path.entry.now) (value_seen value.entry))) result }
{
    match value {
        None => Err(wrong(alloc, path, Reason::Missing)),
        Some(Json::Text(text)) => Ok(text.copy(alloc)?),
        Some(_) => Err(wrong(alloc, path, Reason::Kind)),
    }
}

/// A truth; false where it is absent.
pub fn truth_of(alloc: Global, path: &Path<'_>, value: Option<&Json>) -> Result<bool, CodecStop>
    ensures { Reads (known (values.truth_of (path_of path.entry.now) (value_seen value.entry))) result }
{
    match value {
        None => Ok(false),
        Some(Json::Truth(truth)) => Ok(*truth),
        Some(_) => Err(wrong(alloc, path, Reason::Kind)),
    }
}

fn amount_within(alloc: Global, path: &Path<'_>, number: i128) -> Result<Amount, CodecStop>
    ensures { Reads (known (values.within (path_of path.entry.now) (2 ^ 127) number)) result }
{
    if number < 0 {
        return Err(wrong(alloc, path, Reason::Form));
    }
    match Amount::of(number as u128) {
        Some(amount) => Ok(amount),
        None => Err(wrong(alloc, path, Reason::Form)),
    }
}

/// An amount.
pub fn amount_of(alloc: Global, path: &Path<'_>, value: Option<&Json>) -> Result<Amount, CodecStop>
    ensures { Reads (known (values.amount_of (path_of path.entry.now) (value_seen value.entry))) result }
{
    match value {
        None => Err(wrong(alloc, path, Reason::Missing)),
        Some(Json::Whole(number)) => amount_within(alloc, path, *number),
        Some(_) => Err(wrong(alloc, path, Reason::Kind)),
    }
}

fn id_within(alloc: Global, path: &Path<'_>, number: i128) -> Result<u64, CodecStop>
    ensures { Reads (known (values.within (path_of path.entry.now) (2 ^ 64) number)) result }
{
    if number < 0 || number > u64::MAX as i128 {
        return Err(wrong(alloc, path, Reason::Form));
    }
    Ok(number as u64)
}

/// An id.
pub fn id_of(alloc: Global, path: &Path<'_>, value: Option<&Json>) -> Result<u64, CodecStop>
    ensures { Reads (known (values.id_of (path_of path.entry.now) (value_seen value.entry))) result }
{
    match value {
        None => Err(wrong(alloc, path, Reason::Missing)),
        Some(Json::Whole(number)) => id_within(alloc, path, *number),
        Some(_) => Err(wrong(alloc, path, Reason::Kind)),
    }
}

fn read_moment_at(alloc: Global, path: &Path<'_>, bytes: &[u8]) -> Result<i64, CodecStop>
    ensures { Reads (values.MomentText (path_of path.entry.now) bytes.now) result }
{
    match read_moment(bytes) {
        Ok(moment) => Ok(moment),
        Err(_) => Err(wrong(alloc, path, Reason::Form)),
    }
}

/// A moment, in microseconds since 1970-01-01T00:00:00Z.
pub fn moment_of(alloc: Global, path: &Path<'_>, value: Option<&Json>) -> Result<i64, CodecStop>
    ensures { Reads (values.Moment (path_of path.entry.now) (value_seen value.entry)) result }
{
    match value {
        None => Err(wrong(alloc, path, Reason::Missing)),
        Some(Json::Text(text)) => read_moment_at(alloc, path, text.bytes()),
        Some(_) => Err(wrong(alloc, path, Reason::Kind)),
    }
}

/// A moment, where there is one, in microseconds since 1970-01-01T00:00:00Z.
pub fn optional_moment_of(
    alloc: Global,
    path: &Path<'_>,
    value: Option<&Json>,
) -> Result<Option<i64>, CodecStop>
    ensures { Reads (values.OptionalMoment (path_of path.entry.now) (value_seen value.entry)) result }
{
    match value {
        None => Ok(None),
        Some(value) => some_moment_of(alloc, path, value),
    }
}

fn some_moment_of(alloc: Global, path: &Path<'_>, value: &Json) -> Result<Option<i64>, CodecStop>
    ensures { Reads (values.SomeMoment (path_of path.entry.now) (tree value.now)) result }
{
    Ok(Some(moment_of(alloc, path, Some(value))?))
}
