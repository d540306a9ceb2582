//! Reading postings and transactions.

ghost use Rattle.std.specs.Prelude.{◌≡◌, [], codes};
ghost use Rattle.lg_json.specs.Tree.{tree};
ghost use Rattle.lg_readings.specs.Answers.{known, wrong as wrong_answer};
ghost use Rattle.lg_codec.specs.Results.{Reads};
ghost use Rattle.lg_codec.specs.PathParts.{base_path};
ghost use Rattle.lg_readings.specs.Paths.{below, item_below};
ghost use Rattle.lg_codec.specs.Seen.{value_seen, members_seen, items_seen};
ghost use Rattle.lg_readings.specs.Bodies as bodies;

use crate::metadata::{optional_accounts_of, optional_texts_of};
use crate::path_parts::{Base, Holder, Path};
use crate::paths::wrong;
use crate::stop::CodecStop;
use crate::values::{amount_of, name_of, optional_moment_of, optional_name_of, truth_of, under};
use lg_containers::List;
use lg_json::{Json, Member};
use lg_types::{Posting, Postings, Reason, Refusal, Write};
use std::alloc::Global;

fn posting_in(
    alloc: Global,
    base: Base,
    place: u64,
    members: &[Member],
) -> Result<Posting, CodecStop>
    ensures { Reads (bodies.PostingIn (item_below (base_path base) (codes "postings") place) (members_seen members.now)) result }
{
    let source = name_of(
        alloc,
        &Path::PostingMember(base, place, "source"),
        under(members, b"source"),
    )?;
    let destination = name_of(
        alloc,
        &Path::PostingMember(base, place, "destination"),
        under(members, b"destination"),
    )?;
    let amount = amount_of(
        alloc,
        &Path::PostingMember(base, place, "amount"),
        under(members, b"amount"),
    )?;
    let asset = name_of(
        alloc,
        &Path::PostingMember(base, place, "asset"),
        under(members, b"asset"),
    )?;
    Ok(Posting {
        source,
        destination,
        asset,
        amount,
    })
}

/// The posting of an item, which stands at the place, counted from 0.
fn posting_of(alloc: Global, base: Base, place: u64, value: &Json) -> Result<Posting, CodecStop>
    ensures { Reads (bodies.PostingOf (item_below (base_path base) (codes "postings") place) (tree value.now)) result }
{
    match value {
        Json::Members(members) => posting_in(alloc, base, place, members.as_slice()),
        _ => Err(wrong(alloc, &Path::Posting(base, place), Reason::Kind)),
    }
}

/// The postings of the items.
pub fn postings_in(alloc: Global, base: Base, items: &[Json]) -> Result<List<Posting>, CodecStop>
    ensures { Reads (bodies.WithPostings (base_path base) [] (items_seen items.now)) result }
{
    let mut postings = List::new(alloc);
    for (place, item) in items.iter().enumerate() {
        postings.push(posting_of(alloc, base, place as u64, item)?)?;
    }
    Ok(postings)
}

fn some_postings(postings: List<Posting>) -> Result<Postings, CodecStop>
    ensures { Reads (known (bodies.some_postings postings)) result }
{
    match Postings::from_vec(postings.into_vec()) {
        Some(postings) => Ok(postings),
        None => Err(CodecStop::Refused(Refusal::NoPostings)),
    }
}

/// The items of the postings.
fn postings_of_list(alloc: Global, base: Base, items: &[Json]) -> Result<Postings, CodecStop>
    ensures { Reads (bodies.PostingsOfList (base_path base) (items_seen items.now)) result }
{
    let postings = postings_in(alloc, base, items)?;
    some_postings(postings)
}

/// The postings of a transaction, at least one.
fn postings_of(alloc: Global, base: Base, value: Option<&Json>) -> Result<Postings, CodecStop>
    ensures { Reads (bodies.SomePostings (base_path base) (value_seen value.entry)) result }
{
    match value {
        None => Err(CodecStop::Refused(Refusal::NoPostings)),
        Some(Json::List(items)) => postings_of_list(alloc, base, items.as_slice()),
        Some(_) => Err(wrong(
            alloc,
            &Path::Holder(Holder::Member(base, "postings")),
            Reason::Kind,
        )),
    }
}

/// Whether a script's text is absent or empty.
fn is_plain_empty(value: Option<&Json>) -> bool
    ensures { bodies.plain_of (value_seen value.entry) ≡ bodies.script_answer result }
{
    match value {
        None => true,
        Some(Json::Text(text)) => text.bytes().is_empty(),
        Some(_) => false,
    }
}

/// Whether a script says nothing.
fn is_script_empty(value: Option<&Json>) -> bool
    ensures { bodies.script_of (value_seen value.entry) ≡ bodies.script_answer result }
{
    match value {
        None => true,
        Some(Json::Members(members)) => is_plain_empty(under(members.as_slice(), b"plain")),
        Some(_) => false,
    }
}

fn check_script(value: Option<&Json>) -> Result<(), CodecStop>
    ensures { Reads (known (bodies.script_of (value_seen value.entry))) result }
{
    if is_script_empty(value) {
        Ok(())
    } else {
        Err(CodecStop::Refused(Refusal::Script))
    }
}

/// The creation that the members ask for.
pub fn creation_in(alloc: Global, base: Base, members: &[Member]) -> Result<Write, CodecStop>
    ensures { Reads (bodies.CreationIn (base_path base) (members_seen members.now)) result }
{
    check_script(under(members, b"script"))?;
    let postings = postings_of(alloc, base, under(members, b"postings"))?;
    let timestamp = optional_moment_of(
        alloc,
        &Path::Holder(Holder::Member(base, "timestamp")),
        under(members, b"timestamp"),
    )?;
    let reference = optional_name_of(
        alloc,
        &Path::Holder(Holder::Member(base, "reference")),
        under(members, b"reference"),
    )?;
    let metadata = optional_texts_of(
        alloc,
        &Holder::Member(base, "metadata"),
        under(members, b"metadata"),
    )?;
    let accounts = optional_accounts_of(alloc, base, under(members, b"accountMetadata"))?;
    let force = truth_of(
        alloc,
        &Path::Holder(Holder::Member(base, "force")),
        under(members, b"force"),
    )?;
    Ok(Write::Create {
        postings,
        reference,
        timestamp,
        metadata,
        accounts,
        force,
    })
}

/// The creation of a transaction.
pub fn creation_of(alloc: Global, base: Base, value: Option<&Json>) -> Result<Write, CodecStop>
    ensures { Reads (bodies.Creation (base_path base) (value_seen value.entry)) result }
{
    match value {
        None => Err(wrong(alloc, &Path::Holder(Holder::Whole(base)), Reason::Missing)),
        Some(Json::Members(members)) => creation_in(alloc, base, members.as_slice()),
        Some(_) => Err(wrong(alloc, &Path::Holder(Holder::Whole(base)), Reason::Kind)),
    }
}
