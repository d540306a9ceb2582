//! What the body of a request asks for.

ghost use Rattle.std.specs.Prelude.{◌≡◌, IfOk, codes};
ghost use Rattle.lg_json.specs.Tree.{tree};
ghost use Rattle.lg_readings.specs.Answers.{known};
ghost use Rattle.lg_codec.specs.Results.{Reads};
ghost use Rattle.lg_codec.specs.PathParts.{path_of};
ghost use Rattle.lg_readings.specs.Paths.{top, below};
ghost use Rattle.lg_codec.specs.Seen.{value_seen, members_seen};
ghost use Rattle.lg_codec.specs.Writes as asked;
ghost use Rattle.lg_readings.specs.Bodies as bodies;

use crate::kind::WriteKind;
use crate::metadata::{optional_texts_of, texts_of};
use crate::path_parts::{Base, Holder, Path};
use crate::paths::wrong;
use crate::stop::CodecStop;
use crate::transactions::creation_of;
use crate::values::{name_of, present, under};
use lg_base::NoMemory;
use lg_json::{Json, Member};
use lg_types::{Bucket, Meta, Reason, Target, Write};
use std::alloc::Global;

/// An object without members, where there is one.
fn check_nothing(alloc: Global, path: &Path<'_>, value: Option<&Json>) -> Result<(), CodecStop>
    ensures { Reads (known (bodies.nothing_in (path_of path.entry.now) (value_seen value.entry))) result }
{
    match value {
        None => Ok(()),
        Some(Json::Members(members)) => check_empty(alloc, path, members.as_slice()),
        Some(_) => Err(wrong(alloc, path, Reason::Kind)),
    }
}

fn check_empty(alloc: Global, path: &Path<'_>, members: &[Member]) -> Result<(), CodecStop>
    ensures { Reads (known (bodies.no_members (path_of path.entry.now) (members_seen members.now))) result }
{
    if members.is_empty() {
        Ok(())
    } else {
        Err(wrong(alloc, path, Reason::Form))
    }
}

/// The body of a revert: none, or an object whose metadata have no name.
fn check_revert(alloc: Global, value: Option<&Json>) -> Result<(), CodecStop>
    ensures { Reads (known (bodies.revert_of (value_seen value.entry))) result }
{
    match value {
        None => Ok(()),
        Some(Json::Members(members)) => check_nothing(
            alloc,
            &Path::Holder(Holder::Member(Base::Body, "metadata")),
            under(members.as_slice(), b"metadata"),
        ),
        Some(_) => Err(wrong(
            alloc,
            &Path::Holder(Holder::Whole(Base::Body)),
            Reason::Kind,
        )),
    }
}

fn revert_of(
    alloc: Global,
    id: u64,
    force: bool,
    at_effective_date: bool,
    body: &Json,
) -> Result<Write, CodecStop>
    ensures { Reads (asked.RevertWith id force at_effective_date (tree body.now)) result }
{
    check_revert(alloc, present(body))?;
    Ok(Write::Revert {
        id,
        force,
        at_effective_date,
    })
}

fn metadata_of(alloc: Global, target: Target, body: &Json) -> Result<Write, CodecStop>
    ensures { Reads (asked.MetadataFor target (tree body.now)) result }
{
    let metadata = texts_of(alloc, &Holder::Whole(Base::Body), present(body))?;
    Ok(Write::SetMeta { target, metadata })
}

/// The write that a body asks for; null is no body.
pub fn write_of_json(alloc: Global, kind: WriteKind, body: &Json) -> Result<Write, CodecStop>
    ensures { Reads (asked.WriteOf kind (tree body.now)) result }
{
    match kind {
        WriteKind::Create => creation_of(alloc, Base::Body, present(body)),
        WriteKind::Revert {
            id,
            force,
            at_effective_date,
        } => revert_of(alloc, id, force, at_effective_date, body),
        WriteKind::SetMeta { target } => metadata_of(alloc, target, body),
    }
}

fn default_bucket(alloc: Global) -> Result<Bucket, NoMemory>
    ensures { IfOk result (λ bucket. bucket ≡ codes "_default") }
{
    Ok(Bucket::from_vec(Vec::from_slice(alloc, b"_default")?))
}

fn bucket_of(alloc: Global, value: Option<&Json>) -> Result<Bucket, CodecStop>
    ensures { Reads (bodies.OptionalBucket (below top (codes "bucket")) (value_seen value.entry)) result }
{
    match value {
        None => Ok(default_bucket(alloc)?),
        Some(value) => name_of(
            alloc,
            &Path::Holder(Holder::Member(Base::Body, "bucket")),
            Some(value),
        ),
    }
}

fn ledger_in(alloc: Global, members: &[Member]) -> Result<(Bucket, Meta), CodecStop>
    ensures { Reads (bodies.LedgerIn (members_seen members.now)) result }
{
    let bucket = bucket_of(alloc, under(members, b"bucket"))?;
    let metadata = optional_texts_of(
        alloc,
        &Holder::Member(Base::Body, "metadata"),
        under(members, b"metadata"),
    )?;
    check_nothing(
        alloc,
        &Path::Holder(Holder::Member(Base::Body, "features")),
        under(members, b"features"),
    )?;
    Ok((bucket, metadata))
}

/// The bucket and the metadata of a new ledger; null is no body, which gives the bucket `_default` and no metadata.
pub fn ledger_of_json(alloc: Global, body: &Json) -> Result<(Bucket, Meta), CodecStop>
    ensures { Reads (bodies.LedgerOf (tree body.now)) result }
{
    match body {
        Json::Null => Ok((default_bucket(alloc)?, Meta::new(alloc))),
        Json::Members(members) => ledger_in(alloc, members.as_slice()),
        _ => Err(wrong(
            alloc,
            &Path::Holder(Holder::Whole(Base::Body)),
            Reason::Kind,
        )),
    }
}
