//! Reading the type and the data of an entry.

ghost use Rattle.std.specs.Prelude.{Some, codes};
ghost use Rattle.lg_json.specs.Tree.{tree};
ghost use Rattle.lg_readings.specs.Answers.{known};
ghost use Rattle.lg_codec.specs.Results.{Reads};
ghost use Rattle.lg_readings.specs.EntryLines as lines;
ghost use Rattle.lg_codec.specs.PathParts.{base_path, path_of};
ghost use Rattle.lg_readings.specs.Paths.{below};
ghost use Rattle.lg_codec.specs.Seen.{value_seen, members_seen, items_seen};

use crate::metadata::{accounts_of, texts_of};
use crate::path_parts::{Base, Holder, Path};
use crate::paths::wrong;
use crate::stop::CodecStop;
use crate::targets::target_in;
use crate::transactions::postings_in;
use crate::values::{id_of, moment_of, name_of, same_bytes, text_of, under};
use lg_containers::List;
use lg_json::{Json, Member};
use lg_readings::EntryType;
use lg_types::{EntryBody, Posting, Postings, Reason, Reference, Transaction};
use std::alloc::Global;

/// The postings, at least one.
fn one_or_more(alloc: Global, base: Base, postings: List<Posting>) -> Result<Postings, CodecStop>
    ensures { Reads (known (lines.one_or_more (below (base_path base) (codes "postings")) postings)) result }
{
    match Postings::from_vec(postings.into_vec()) {
        Some(postings) => Ok(postings),
        None => Err(wrong(
            alloc,
            &Path::Holder(Holder::Member(base, "postings")),
            Reason::Form,
        )),
    }
}

fn some_postings_in(alloc: Global, base: Base, items: &[Json]) -> Result<Postings, CodecStop>
    ensures { Reads (lines.PostingsIn (base_path base) (items_seen items.now)) result }
{
    let postings = postings_in(alloc, base, items)?;
    one_or_more(alloc, base, postings)
}

fn postings_of(alloc: Global, base: Base, value: Option<&Json>) -> Result<Postings, CodecStop>
    ensures { Reads (lines.PostingsOf (base_path base) (value_seen value.entry)) result }
{
    match value {
        None => Err(wrong(
            alloc,
            &Path::Holder(Holder::Member(base, "postings")),
            Reason::Missing,
        )),
        Some(Json::List(items)) => some_postings_in(alloc, base, items.as_slice()),
        Some(_) => Err(wrong(
            alloc,
            &Path::Holder(Holder::Member(base, "postings")),
            Reason::Kind,
        )),
    }
}

fn reference_of(
    alloc: Global,
    path: &Path<'_>,
    value: Option<&Json>,
) -> Result<Option<Reference>, CodecStop>
    ensures { Reads (lines.ReferenceOf (path_of path.entry.now) (value_seen value.entry)) result }
{
    match value {
        None => Ok(None),
        Some(value) => some_reference_of(alloc, path, value),
    }
}

fn some_reference_of(
    alloc: Global,
    path: &Path<'_>,
    value: &Json,
) -> Result<Option<Reference>, CodecStop>
    ensures { Reads (lines.ReferenceOf (path_of path.entry.now) (Some (tree value.now))) result }
{
    let reference = name_of(alloc, path, Some(value))?;
    Ok(Some(reference))
}

fn transaction_in(alloc: Global, members: &[Member]) -> Result<Transaction, CodecStop>
    ensures { Reads (lines.TransactionIn lines.transaction_path (members_seen members.now)) result }
{
    let base = Base::Transaction;
    let id = id_of(
        alloc,
        &Path::Holder(Holder::Member(base, "id")),
        under(members, b"id"),
    )?;
    let postings = postings_of(alloc, base, under(members, b"postings"))?;
    let metadata = texts_of(
        alloc,
        &Holder::Member(base, "metadata"),
        under(members, b"metadata"),
    )?;
    let reference = reference_of(
        alloc,
        &Path::Holder(Holder::Member(base, "reference")),
        under(members, b"reference"),
    )?;
    let timestamp = moment_of(
        alloc,
        &Path::Holder(Holder::Member(base, "timestamp")),
        under(members, b"timestamp"),
    )?;
    Ok(Transaction {
        id,
        postings,
        metadata,
        reference,
        timestamp,
    })
}

fn transaction_of(alloc: Global, value: Option<&Json>) -> Result<Transaction, CodecStop>
    ensures { Reads (lines.TransactionOf (value_seen value.entry)) result }
{
    match value {
        None => Err(wrong(
            alloc,
            &Path::Holder(Holder::Whole(Base::Transaction)),
            Reason::Missing,
        )),
        Some(Json::Members(members)) => transaction_in(alloc, members.as_slice()),
        Some(_) => Err(wrong(
            alloc,
            &Path::Holder(Holder::Whole(Base::Transaction)),
            Reason::Kind,
        )),
    }
}

fn type_named(alloc: Global, path: &Path<'_>, bytes: &[u8]) -> Result<EntryType, CodecStop>
    ensures { Reads (known (lines.type_named (path_of path.entry.now) bytes.now)) result }
{
    if same_bytes(bytes, b"NEW_TRANSACTION") {
        return Ok(EntryType::NewTransaction);
    }
    if same_bytes(bytes, b"SET_METADATA") {
        return Ok(EntryType::SetMetadata);
    }
    if same_bytes(bytes, b"REVERTED_TRANSACTION") {
        return Ok(EntryType::Reverted);
    }
    if same_bytes(bytes, b"DELETE_METADATA") {
        return Ok(EntryType::DeleteMetadata);
    }
    Err(wrong(alloc, path, Reason::Form))
}

fn type_of(alloc: Global, path: &Path<'_>, value: Option<&Json>) -> Result<EntryType, CodecStop>
    ensures { Reads (known (lines.type_of (path_of path.entry.now) (value_seen value.entry))) result }
{
    match value {
        None => Err(wrong(alloc, path, Reason::Missing)),
        Some(Json::Text(text)) => type_named(alloc, path, text.bytes()),
        Some(_) => Err(wrong(alloc, path, Reason::Kind)),
    }
}

fn new_in(alloc: Global, members: &[Member]) -> Result<EntryBody, CodecStop>
    ensures { Reads (lines.NewIn (members_seen members.now)) result }
{
    let transaction = transaction_of(alloc, under(members, b"transaction"))?;
    let accounts = accounts_of(alloc, Base::Data, under(members, b"accountMetadata"))?;
    Ok(EntryBody::NewTransaction {
        transaction,
        accounts,
    })
}

fn set_in(alloc: Global, members: &[Member]) -> Result<EntryBody, CodecStop>
    ensures { Reads (lines.SetIn (members_seen members.now)) result }
{
    let target = target_in(alloc, Base::Data, members)?;
    let metadata = texts_of(
        alloc,
        &Holder::Member(Base::Data, "metadata"),
        under(members, b"metadata"),
    )?;
    Ok(EntryBody::SetMetadata { target, metadata })
}

fn reverted_in(alloc: Global, members: &[Member]) -> Result<EntryBody, CodecStop>
    ensures { Reads (lines.RevertedIn (members_seen members.now)) result }
{
    let reverted = id_of(
        alloc,
        &Path::Holder(Holder::Member(Base::Data, "revertedTransactionID")),
        under(members, b"revertedTransactionID"),
    )?;
    let transaction = transaction_of(alloc, under(members, b"transaction"))?;
    Ok(EntryBody::Reverted {
        reverted,
        transaction,
    })
}

fn deleted_in(alloc: Global, members: &[Member]) -> Result<EntryBody, CodecStop>
    ensures { Reads (lines.DeletedIn (members_seen members.now)) result }
{
    let target = target_in(alloc, Base::Data, members)?;
    let name = text_of(
        alloc,
        &Path::Holder(Holder::Member(Base::Data, "key")),
        under(members, b"key"),
    )?;
    Ok(EntryBody::DeleteMetadata { target, name })
}

fn data_in(alloc: Global, kind: EntryType, members: &[Member]) -> Result<EntryBody, CodecStop>
    ensures { Reads (lines.DataIn kind (members_seen members.now)) result }
{
    match kind {
        EntryType::NewTransaction => new_in(alloc, members),
        EntryType::SetMetadata => set_in(alloc, members),
        EntryType::Reverted => reverted_in(alloc, members),
        EntryType::DeleteMetadata => deleted_in(alloc, members),
    }
}

fn data_of(alloc: Global, kind: EntryType, value: Option<&Json>) -> Result<EntryBody, CodecStop>
    ensures { Reads (lines.DataOf kind (value_seen value.entry)) result }
{
    match value {
        None => Err(wrong(
            alloc,
            &Path::Holder(Holder::Whole(Base::Data)),
            Reason::Missing,
        )),
        Some(Json::Members(members)) => data_in(alloc, kind, members.as_slice()),
        Some(_) => Err(wrong(
            alloc,
            &Path::Holder(Holder::Whole(Base::Data)),
            Reason::Kind,
        )),
    }
}

/// The body of an entry, of the members of its line.
pub fn body_in(alloc: Global, members: &[Member]) -> Result<EntryBody, CodecStop>
    ensures { Reads (lines.BodyIn (members_seen members.now)) result }
{
    let kind = type_of(
        alloc,
        &Path::Holder(Holder::Member(Base::Body, "type")),
        under(members, b"type"),
    )?;
    data_of(alloc, kind, under(members, b"data"))
}
