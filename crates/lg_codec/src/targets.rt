//! Reading what metadata are about.

ghost use Rattle.std.specs.Prelude.{◌≡◌, codes};
ghost use Rattle.lg_readings.specs.Answers.{known};
ghost use Rattle.lg_codec.specs.Results.{Reads};
ghost use Rattle.lg_readings.specs.Elements as elements;
ghost use Rattle.lg_codec.specs.PathParts.{base_path, path_of};
ghost use Rattle.lg_readings.specs.Paths.{below};
ghost use Rattle.lg_codec.specs.Seen.{value_seen, members_seen};

use crate::path_parts::{Base, Holder, Path};
use crate::paths::wrong;
use crate::stop::CodecStop;
use crate::values::{id_of, name_of, same_bytes, under};
use lg_json::{Json, Member};
use lg_types::{Reason, Target};
use std::alloc::Global;

/// Whether the type is that of accounts; else it is that of transactions.
fn is_account_named(alloc: Global, path: &Path<'_>, bytes: &[u8]) -> Result<bool, CodecStop>
    ensures { Reads (known (elements.is_account_named (path_of path.entry.now) bytes.now)) result }
{
    if same_bytes(bytes, b"ACCOUNT") {
        return Ok(true);
    }
    if same_bytes(bytes, b"TRANSACTION") {
        return Ok(false);
    }
    Err(wrong(alloc, path, Reason::Form))
}

fn is_account(alloc: Global, path: &Path<'_>, value: Option<&Json>) -> Result<bool, CodecStop>
    ensures { Reads (known (elements.is_account (path_of path.entry.now) (value_seen value.entry))) result }
{
    match value {
        None => Err(wrong(alloc, path, Reason::Missing)),
        Some(Json::Text(text)) => is_account_named(alloc, path, text.bytes()),
        Some(_) => Err(wrong(alloc, path, Reason::Kind)),
    }
}

fn account_of(alloc: Global, path: &Path<'_>, value: Option<&Json>) -> Result<Target, CodecStop>
    ensures { Reads (elements.AccountOf (path_of path.entry.now) (value_seen value.entry)) result }
{
    let address = name_of(alloc, path, value)?;
    Ok(Target::Account(address))
}

fn transaction_of(alloc: Global, path: &Path<'_>, value: Option<&Json>) -> Result<Target, CodecStop>
    ensures { Reads (elements.TransactionOf (path_of path.entry.now) (value_seen value.entry)) result }
{
    let id = id_of(alloc, path, value)?;
    Ok(Target::Transaction(id))
}

fn target_of(
    alloc: Global,
    path: &Path<'_>,
    value: Option<&Json>,
    is_account: bool,
) -> Result<Target, CodecStop>
    ensures { Reads (elements.TargetOf (path_of path.entry.now) (value_seen value.entry) is_account) result }
{
    match is_account {
        true => account_of(alloc, path, value),
        false => transaction_of(alloc, path, value),
    }
}

/// What metadata are about, of the members that say so.
pub fn target_in(alloc: Global, base: Base, members: &[Member]) -> Result<Target, CodecStop>
    ensures { Reads (elements.TargetIn (base_path base) (members_seen members.now)) result }
{
    let is_account = is_account(
        alloc,
        &Path::Holder(Holder::Member(base, "targetType")),
        under(members, b"targetType"),
    )?;
    target_of(
        alloc,
        &Path::Holder(Holder::Member(base, "targetId")),
        under(members, b"targetId"),
        is_account,
    )
}
