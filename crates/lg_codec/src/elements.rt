//! Reading the elements of a list of writes.

ghost use Rattle.std.specs.Prelude.{◌≡◌, ◌≤◌, length, codes, IfOk};
ghost use Rattle.lg_json.specs.Tree.{tree};
ghost use Rattle.lg_readings.specs.Answers.{known};
ghost use Rattle.lg_codec.specs.Results.{Reads};
ghost use Rattle.lg_readings.specs.Elements as spec;
ghost use Rattle.lg_codec.specs.PathParts.{path_of};
ghost use Rattle.lg_codec.specs.Seen.{value_seen, members_seen, items_seen};

use crate::metadata::texts_of;
use crate::path_parts::{Base, Holder, Path};
use crate::paths::wrong;
use crate::stop::CodecStop;
use crate::targets::target_in;
use crate::transactions::creation_in;
use crate::values::{id_of, optional_name_of, same_bytes, text_of, truth_of, under};
use lg_base::NoMemory;
use lg_json::{Json, Member};
use lg_types::{Element, ElementWrite, Elements, MOST_ELEMENTS, Reason, Refusal, Write};
use lg_views::Action;
use std::alloc::Global;

fn action_named(alloc: Global, path: &Path<'_>, bytes: &[u8]) -> Result<Action, CodecStop>
    ensures { Reads (known (spec.action_named (path_of path.entry.now) bytes.now)) result }
{
    if same_bytes(bytes, b"CREATE_TRANSACTION") {
        return Ok(Action::CreateTransaction);
    }
    if same_bytes(bytes, b"ADD_METADATA") {
        return Ok(Action::AddMetadata);
    }
    if same_bytes(bytes, b"REVERT_TRANSACTION") {
        return Ok(Action::RevertTransaction);
    }
    if same_bytes(bytes, b"DELETE_METADATA") {
        return Ok(Action::DeleteMetadata);
    }
    Err(wrong(alloc, path, Reason::Form))
}

fn action_of(alloc: Global, path: &Path<'_>, value: Option<&Json>) -> Result<Action, CodecStop>
    ensures { Reads (known (spec.action_of (path_of path.entry.now) (value_seen value.entry))) result }
{
    match value {
        None => Err(wrong(alloc, path, Reason::Missing)),
        Some(Json::Text(text)) => action_named(alloc, path, text.bytes()),
        Some(_) => Err(wrong(alloc, path, Reason::Kind)),
    }
}

fn addition_in(alloc: Global, members: &[Member]) -> Result<Write, CodecStop>
    ensures { Reads (spec.AdditionIn (members_seen members.now)) result }
{
    let target = target_in(alloc, Base::Data, members)?;
    let metadata = texts_of(
        alloc,
        &Holder::Member(Base::Data, "metadata"),
        under(members, b"metadata"),
    )?;
    Ok(Write::SetMeta { target, metadata })
}

fn revert_in(alloc: Global, members: &[Member]) -> Result<Write, CodecStop>
    ensures { Reads (spec.RevertIn (members_seen members.now)) result }
{
    let id = id_of(
        alloc,
        &Path::Holder(Holder::Member(Base::Data, "id")),
        under(members, b"id"),
    )?;
    let force = truth_of(
        alloc,
        &Path::Holder(Holder::Member(Base::Data, "force")),
        under(members, b"force"),
    )?;
    let at_effective_date = truth_of(
        alloc,
        &Path::Holder(Holder::Member(Base::Data, "atEffectiveDate")),
        under(members, b"atEffectiveDate"),
    )?;
    Ok(Write::Revert {
        id,
        force,
        at_effective_date,
    })
}

fn deletion_in(alloc: Global, members: &[Member]) -> Result<Write, CodecStop>
    ensures { Reads (spec.DeletionIn (members_seen members.now)) result }
{
    let target = target_in(alloc, Base::Data, members)?;
    let name = text_of(
        alloc,
        &Path::Holder(Holder::Member(Base::Data, "key")),
        under(members, b"key"),
    )?;
    Ok(Write::DropMeta { target, name })
}

fn write_in(alloc: Global, action: Action, members: &[Member]) -> Result<Write, CodecStop>
    ensures { Reads (spec.DataIn action (members_seen members.now)) result }
{
    match action {
        Action::CreateTransaction => creation_in(alloc, Base::Data, members),
        Action::AddMetadata => addition_in(alloc, members),
        Action::RevertTransaction => revert_in(alloc, members),
        Action::DeleteMetadata => deletion_in(alloc, members),
    }
}

fn write_of(alloc: Global, action: Action, value: Option<&Json>) -> Result<Write, CodecStop>
    ensures { Reads (spec.DataOf action (value_seen value.entry)) result }
{
    match value {
        None => Err(wrong(
            alloc,
            &Path::Holder(Holder::Whole(Base::Data)),
            Reason::Missing,
        )),
        Some(Json::Members(members)) => write_in(alloc, action, members.as_slice()),
        Some(_) => Err(wrong(
            alloc,
            &Path::Holder(Holder::Whole(Base::Data)),
            Reason::Kind,
        )),
    }
}

fn element_in(alloc: Global, members: &[Member]) -> Result<Element, CodecStop>
    ensures { Reads (spec.ElementIn (members_seen members.now)) result }
{
    let action = action_of(
        alloc,
        &Path::Holder(Holder::Member(Base::Body, "action")),
        under(members, b"action"),
    )?;
    let key = optional_name_of(
        alloc,
        &Path::Holder(Holder::Member(Base::Body, "ik")),
        under(members, b"ik"),
    )?;
    let write = write_of(alloc, action, under(members, b"data"))?;
    Ok(Element {
        key,
        write: ElementWrite::Good(write),
    })
}

fn element_of(alloc: Global, value: &Json) -> Result<Element, CodecStop>
    ensures { Reads (spec.ElementOf (tree value.now)) result }
{
    match value {
        Json::Members(members) => element_in(alloc, members.as_slice()),
        _ => Err(wrong(
            alloc,
            &Path::Holder(Holder::Whole(Base::Body)),
            Reason::Kind,
        )),
    }
}

/// The element, or its refusal in its place.
fn read_element(alloc: Global, value: &Json) -> Result<Element, NoMemory>
    ensures { IfOk result (spec.IsElement (tree value.now)) }
{
    match element_of(alloc, value) {
        Ok(element) => Ok(element),
        Err(CodecStop::Refused(refusal)) => Ok(Element {
            key: None,
            write: ElementWrite::Bad(refusal),
        }),
        Err(CodecStop::NoMemory) => Err(NoMemory),
    }
}

fn elements_in(alloc: Global, values: &[Json]) -> Result<Elements, NoMemory>
    requires { length values.now ≤ 1000 }
    ensures { IfOk result (spec.AreElements (items_seen values.now)) }
{
    let mut elements = Elements::new(alloc);
    for value in values {
        elements.push(read_element(alloc, value)?)?;
    }
    Ok(elements)
}

fn elements_of_list(alloc: Global, values: &[Json]) -> Result<Elements, CodecStop>
    ensures { Reads (spec.ElementsIn (items_seen values.now)) result }
{
    if values.len() > MOST_ELEMENTS {
        return Err(CodecStop::Refused(Refusal::BulkSize {
            elements: values.len() as u64,
        }));
    }
    Ok(elements_in(alloc, values)?)
}

/// The elements of a list of writes. An element that can't be read stands there with its refusal.
pub fn elements_of_json(alloc: Global, body: &Json) -> Result<Elements, CodecStop>
    ensures { Reads (spec.ElementsOf (tree body.now)) result }
{
    match body {
        Json::List(values) => elements_of_list(alloc, values.as_slice()),
        _ => Err(wrong(
            alloc,
            &Path::Holder(Holder::Whole(Base::Body)),
            Reason::Kind,
        )),
    }
}
