//! Reading metadata.

ghost use Rattle.lg_json.specs.Tree.{tree};
ghost use Rattle.lg_containers.specs.NameTable as table;
ghost use Rattle.lg_readings.specs.Answers.{known};
ghost use Rattle.lg_codec.specs.Results.{Reads};
ghost use Rattle.lg_codec.specs.PathParts.{base_path, holder_path};
ghost use Rattle.lg_readings.specs.Paths.{below, path_text};
ghost use Rattle.lg_codec.specs.Stops.{StopsWith};
ghost use Rattle.lg_types.specs.declared.refusals.Refusal.TheVariants.{Member as MemberRefusal};
ghost use Rattle.lg_codec.specs.Seen.{value_seen, members_seen};
ghost use Rattle.lg_readings.specs.Bodies as bodies;
ghost use Rattle.std.specs.Prelude.{codes};

use crate::path_parts::{Base, Holder, Path};
use crate::paths::wrong;
use crate::stop::CodecStop;
use crate::values::read_name;
use lg_containers::{AddressGrammar, Duplicate};
use lg_json::{Json, Member};
use lg_types::{AccountMeta, Address, Meta, Reason, Text};
use std::alloc::Global;

/// The text of a member of metadata.
fn text_in(alloc: Global, holder: &Holder<'_>, member: &Member) -> Result<Text, CodecStop>
    ensures { Reads (known (bodies.text_in (holder_path holder.entry.now) member.now.name (tree member.now.value))) result }
{
    match &member.value {
        Json::Text(text) => Ok(text.copy(alloc)?),
        _ => Err(wrong(alloc, &Path::Named(*holder, &member.name), Reason::Kind)),
    }
}

/// The metadata of the members.
fn texts_in(alloc: Global, holder: &Holder<'_>, members: &[Member]) -> Result<Meta, CodecStop>
    ensures { Reads (known (bodies.with_texts (holder_path holder.entry.now) table.empty (members_seen members.now))) result }
{
    let mut meta = Meta::new(alloc);
    for member in members {
        let text = text_in(alloc, holder, member)?;
        meta.put(member.name.copy(alloc)?, text)?;
    }
    Ok(meta)
}

/// Metadata.
pub fn texts_of(alloc: Global, holder: &Holder<'_>, value: Option<&Json>) -> Result<Meta, CodecStop>
    ensures { Reads (known (bodies.texts_of (holder_path holder.entry.now) (value_seen value.entry))) result }
{
    match value {
        None => Err(wrong(alloc, &Path::Holder(*holder), Reason::Missing)),
        Some(Json::Members(members)) => texts_in(alloc, holder, members.as_slice()),
        Some(_) => Err(wrong(alloc, &Path::Holder(*holder), Reason::Kind)),
    }
}

/// Metadata; none where they are absent.
pub fn optional_texts_of(
    alloc: Global,
    holder: &Holder<'_>,
    value: Option<&Json>,
) -> Result<Meta, CodecStop>
    ensures { Reads (known (bodies.optional_texts_of (holder_path holder.entry.now) (value_seen value.entry))) result }
{
    match value {
        None => Ok(Meta::new(alloc)),
        Some(value) => texts_of(alloc, holder, Some(value)),
    }
}

/// The account of a member, and its metadata.
fn account_in(alloc: Global, base: Base, member: &Member) -> Result<(Address, Meta), CodecStop>
    ensures { Reads (bodies.AccountIn (below (base_path base) (codes "accountMetadata")) member.now.name (tree member.now.value)) result }
{
    let holder = Holder::Account(base, &member.name);
    let address = read_name::<AddressGrammar>(alloc, &Path::Holder(holder), member.name.bytes())?;
    let meta = texts_of(alloc, &holder, Some(&member.value))?;
    Ok((address, meta))
}

/// The metadata of the accounts that the members name.
fn accounts_in(alloc: Global, base: Base, members: &[Member]) -> Result<AccountMeta, CodecStop>
    ensures { Reads (bodies.WithAccounts (below (base_path base) (codes "accountMetadata")) table.empty (members_seen members.now)) result }
{
    let mut accounts = AccountMeta::new(alloc);
    for member in members {
        let (address, meta) = account_in(alloc, base, member)?;
        accounts.put(address, meta)?;
    }
    Ok(accounts)
}

/// Metadata of accounts.
pub fn accounts_of(
    alloc: Global,
    base: Base,
    value: Option<&Json>,
) -> Result<AccountMeta, CodecStop>
    ensures { Reads (bodies.Accounts (below (base_path base) (codes "accountMetadata")) (value_seen value.entry)) result }
{
    match value {
        None => Err(wrong_accounts(alloc, base, Reason::Missing)),
        Some(Json::Members(members)) => accounts_in(alloc, base, members.as_slice()),
        Some(_) => Err(wrong_accounts(alloc, base, Reason::Kind)),
    }
}

fn wrong_accounts(alloc: Global, base: Base, reason: Reason) -> CodecStop
    ensures { StopsWith (MemberRefusal (path_text (below (base_path base) (codes "accountMetadata"))) reason) result }
{
    let holder = Holder::Member(base, "accountMetadata");
    wrong(alloc, &Path::Holder(holder), reason)
}

/// Metadata of accounts; none where they are absent.
pub fn optional_accounts_of(
    alloc: Global,
    base: Base,
    value: Option<&Json>,
) -> Result<AccountMeta, CodecStop>
    ensures { Reads (bodies.OptionalAccounts (below (base_path base) (codes "accountMetadata")) (value_seen value.entry)) result }
{
    match value {
        None => Ok(AccountMeta::new(alloc)),
        Some(value) => accounts_of(alloc, base, Some(value)),
    }
}
