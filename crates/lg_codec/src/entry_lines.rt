//! Reading the line of an entry.

ghost use Rattle.std.specs.Prelude.{◌≡◌, Some, true, length};
ghost use Rattle.lg_json.specs.Tree.{tree};
ghost use Rattle.lg_readings.specs.Answers.{known, IfForm};
ghost use Rattle.lg_codec.specs.Results.{Reads};
ghost use Rattle.lg_readings.specs.EntryLines as lines;
ghost use Rattle.lg_codec.specs.PathParts.{path_of};
ghost use Rattle.lg_codec.specs.Seen.{value_seen, members_seen};

use crate::entry_bodies::body_in;
use crate::path_parts::{Base, Holder, Path};
use crate::paths::wrong;
use crate::stop::CodecStop;
use crate::values::{id_of, moment_of, optional_name_of, under};
use base64::DecodeAllocError;
use base64::engine::general_purpose::STANDARD;
use lg_json::{Json, Member};
use lg_readings::ReadEntry;
use lg_types::{Entry, Key, KeyMark, Reason};
use std::alloc::Global;

fn hash_from(bytes: &[u8]) -> [u8; 32]
    requires { length bytes.now ≡ 32 }
    ensures { result ≡ bytes.now }
{
    let mut hash = [0; 32];
    hash.copy_from_slice(bytes);
    hash
}

/// The bytes, where they are 32.
fn hash_in(alloc: Global, path: &Path<'_>, bytes: &[u8]) -> Result<[u8; 32], CodecStop>
    ensures { Reads (IfForm (length bytes.now ≡ 32) (path_of path.entry.now) bytes.now) result }
{
    if bytes.len() == 32 {
        Ok(hash_from(bytes))
    } else {
        Err(wrong(alloc, path, Reason::Form))
    }
}

/// The 32 bytes that a text in base64 stands for.
fn read_hash(alloc: Global, path: &Path<'_>, bytes: &[u8]) -> Result<[u8; 32], CodecStop>
    ensures { Reads (lines.HashText (path_of path.entry.now) bytes.now) result }
{
    match STANDARD.decode(alloc, bytes) {
        Ok(decoded) => hash_in(alloc, path, decoded.as_slice()),
        Err(DecodeAllocError::OutOfMemory) => Err(CodecStop::NoMemory),
        Err(DecodeAllocError::DecodeError(_)) => Err(wrong(alloc, path, Reason::Form)),
    }
}

fn some_hash_of(alloc: Global, path: &Path<'_>, value: &Json) -> Result<[u8; 32], CodecStop>
    ensures { Reads (lines.Hash (path_of path.entry.now) (Some (tree value.now))) result }
{
    match value {
        Json::Text(text) => read_hash(alloc, path, text.bytes()),
        _ => Err(wrong(alloc, path, Reason::Kind)),
    }
}

/// A hash, of 32 bytes in base64.
fn hash_of(alloc: Global, path: &Path<'_>, value: Option<&Json>) -> Result<[u8; 32], CodecStop>
    ensures { Reads (lines.Hash (path_of path.entry.now) (value_seen value.entry)) result }
{
    match value {
        None => Err(wrong(alloc, path, Reason::Missing)),
        Some(value) => some_hash_of(alloc, path, value),
    }
}

/// The mark of a key.
fn mark_with(alloc: Global, key: Key, value: Option<&Json>) -> Result<Option<KeyMark>, CodecStop>
    ensures { Reads (lines.MarkOf (value_seen value.entry) (Some key)) result }
{
    let input_hash = hash_of(
        alloc,
        &Path::Holder(Holder::Member(Base::Body, "idempotencyHash")),
        value,
    )?;
    Ok(Some(KeyMark { key, input_hash }))
}

/// The mark of a key; none without a key.
fn mark_of(
    alloc: Global,
    key: Option<Key>,
    value: Option<&Json>,
) -> Result<Option<KeyMark>, CodecStop>
    ensures { Reads (lines.MarkOf (value_seen value.entry) key) result }
{
    match key {
        None => Ok(None),
        Some(key) => mark_with(alloc, key, value),
    }
}

fn mark_in(alloc: Global, members: &[Member]) -> Result<Option<KeyMark>, CodecStop>
    ensures { Reads (lines.MarkIn (members_seen members.now)) result }
{
    let key = optional_name_of(
        alloc,
        &Path::Holder(Holder::Member(Base::Body, "idempotencyKey")),
        under(members, b"idempotencyKey"),
    )?;
    mark_of(alloc, key, under(members, b"idempotencyHash"))
}

fn form_named(alloc: Global, path: &Path<'_>, number: i128) -> Result<u8, CodecStop>
    ensures { Reads (known (lines.form_named (path_of path.entry.now) number)) result }
{
    if number == 1 {
        return Ok(1);
    }
    if number == 2 {
        return Ok(2);
    }
    Err(wrong(alloc, path, Reason::Form))
}

/// The log form: 1 where it is absent.
fn form_of(alloc: Global, path: &Path<'_>, value: Option<&Json>) -> Result<u8, CodecStop>
    ensures { Reads (known (lines.form_of (path_of path.entry.now) (value_seen value.entry))) result }
{
    match value {
        None => Ok(1),
        Some(Json::Whole(number)) => form_named(alloc, path, *number),
        Some(_) => Err(wrong(alloc, path, Reason::Kind)),
    }
}

/// The hash of a line where it is computed anew: 32 bytes 0 where it is absent.
fn replaced_hash(
    alloc: Global,
    path: &Path<'_>,
    value: Option<&Json>,
) -> Result<[u8; 32], CodecStop>
    ensures { Reads (lines.LineHash true (path_of path.entry.now) (value_seen value.entry)) result }
{
    match value {
        None => Ok([0; 32]),
        Some(value) => some_hash_of(alloc, path, value),
    }
}

/// The hash of a line, which may be absent where it is computed anew.
fn line_hash(
    alloc: Global,
    recompute: bool,
    path: &Path<'_>,
    value: Option<&Json>,
) -> Result<[u8; 32], CodecStop>
    ensures { Reads (lines.LineHash recompute (path_of path.entry.now) (value_seen value.entry)) result }
{
    match recompute {
        true => replaced_hash(alloc, path, value),
        false => hash_of(alloc, path, value),
    }
}

fn entry_in(alloc: Global, recompute: bool, members: &[Member]) -> Result<ReadEntry, CodecStop>
    ensures { Reads (lines.LineIn recompute (members_seen members.now)) result }
{
    let body = body_in(alloc, members)?;
    let date = moment_of(
        alloc,
        &Path::Holder(Holder::Member(Base::Body, "date")),
        under(members, b"date"),
    )?;
    let mark = mark_in(alloc, members)?;
    let form = form_of(
        alloc,
        &Path::Holder(Holder::Member(Base::Body, "form")),
        under(members, b"form"),
    )?;
    let id = id_of(
        alloc,
        &Path::Holder(Holder::Member(Base::Body, "id")),
        under(members, b"id"),
    )?;
    let hash = line_hash(
        alloc,
        recompute,
        &Path::Holder(Holder::Member(Base::Body, "hash")),
        under(members, b"hash"),
    )?;
    Ok(ReadEntry {
        entry: Entry {
            id,
            date,
            mark,
            body,
            hash,
        },
        form,
    })
}

/// The entry of a line of a log of either form. Where hashes are computed anew, the hash may be absent, and is 32 bytes 0.
pub fn entry_of_json(alloc: Global, line: &Json, recompute: bool) -> Result<ReadEntry, CodecStop>
    ensures { Reads (lines.LineOf recompute (tree line.now)) result }
{
    match line {
        Json::Members(members) => entry_in(alloc, recompute, members.as_slice()),
        _ => Err(wrong(
            alloc,
            &Path::Holder(Holder::Whole(Base::Body)),
            Reason::Kind,
        )),
    }
}
