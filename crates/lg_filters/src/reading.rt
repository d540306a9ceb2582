//! Reading a filter, from its top down and from left to right.

ghost use Rattle.lg_json.specs.Tree.{tree, Tree};
ghost use Rattle.lg_codec.specs.Results.{Reads};
ghost use Rattle.lg_codec.specs.Seen.{members_seen, items_seen};
ghost use Rattle.lg_readings.specs.FilterReadings.{FilterIn, FilterOf};
ghost use Rattle.lg_filters.specs.AtPaths.{FilterAt, OperatorAt, LeafAt, ListAt, ItemsAt};

use crate::fields::same_bytes;
use crate::leaves::read_leaf;
use crate::paths::{at_item, bad, below};
use lg_codec::CodecStop;
use lg_json::{Json, JsonList, Member, MemberList};
use lg_types::{Filter, FilterList, ListKind, Text};
use sqlite_items::{Boxed, Items};
use std::alloc::Global;

/// An operator over one field, or over a name of metadata.
fn leaf_at(
    alloc: Global,
    kind: ListKind,
    path: &Option<Text>,
    member: &Member,
) -> Result<Filter, CodecStop>
    ensures { Reads (LeafAt kind path.now member.now.name (tree member.now.value)) result }
{
    match read_leaf(alloc, kind, &member.name, &member.value)? {
        Some(filter) => Ok(filter),
        None => Err(bad(alloc, path)),
    }
}

/// The filters of the items of a list.
#[cycle(reading)]
fn read_items(
    alloc: Global,
    kind: ListKind,
    path: &Option<Text>,
    items: &JsonList,
) -> Result<FilterList, CodecStop>
    ensures { Reads (ItemsAt kind path.now (items_seen items.now)) result }
{
    let mut filters = Items::new(alloc);
    for item in items.as_slice() {
        let place = at_item(alloc, path, filters.len() as u64)?;
        filters.push(read_at(alloc, kind, &place, item)?)?;
    }
    Ok(filters)
}

#[cycle(reading)]
fn read_list(
    alloc: Global,
    kind: ListKind,
    path: &Option<Text>,
    value: &Json,
) -> Result<FilterList, CodecStop>
    ensures { Reads (ListAt kind path.now (tree value.now)) result }
{
    match value {
        Json::List(items) => read_items(alloc, kind, path, items),
        Json::Null | Json::Truth(_) | Json::Whole(_) | Json::Text(_) | Json::Members(_) => {
            Err(bad(alloc, path))
        }
    }
}

/// An operator, whose own path is given.
#[cycle(reading)]
fn read_operator(
    alloc: Global,
    kind: ListKind,
    path: &Option<Text>,
    member: &Member,
) -> Result<Filter, CodecStop>
    ensures { Reads (OperatorAt kind path.now member.now.name (tree member.now.value)) result }
{
    if same_bytes(member.name.bytes(), b"$and") {
        let filters = read_list(alloc, kind, path, &member.value)?;
        return Ok(Filter::Both(filters));
    }
    if same_bytes(member.name.bytes(), b"$or") {
        let filters = read_list(alloc, kind, path, &member.value)?;
        return Ok(Filter::Either(filters));
    }
    if same_bytes(member.name.bytes(), b"$not") {
        let filter = read_at(alloc, kind, path, &member.value)?;
        return Ok(Filter::Not(Boxed::new(alloc, filter)?));
    }
    leaf_at(alloc, kind, path, member)
}

#[cycle(reading)]
fn read_object(
    alloc: Global,
    kind: ListKind,
    path: &Option<Text>,
    object: &MemberList,
) -> Result<Filter, CodecStop>
    ensures { Reads (FilterAt kind path.now (Tree.members (members_seen object.now))) result }
{
    match object.as_slice() {
        [] => Ok(Filter::All),
        [member] => {
            let operator = below(alloc, path, &member.name)?;
            read_operator(alloc, kind, &operator, member)
        }
        [_, _, ..] => Err(bad(alloc, path)),
    }
}

/// The filter that the value at the path shows.
#[cycle(reading)]
fn read_at(
    alloc: Global,
    kind: ListKind,
    path: &Option<Text>,
    value: &Json,
) -> Result<Filter, CodecStop>
    ensures { Reads (FilterAt kind path.now (tree value.now)) result }
{
    match value {
        Json::Members(object) => read_object(alloc, kind, path, object),
        Json::Null | Json::Truth(_) | Json::Whole(_) | Json::Text(_) | Json::List(_) => {
            Err(bad(alloc, path))
        }
    }
}

/// The filter of a list that a JSON value shows, or the refusal of its first fault, with the fault's path. The first
/// fault is the first from the top down and from left to right; its path is the names of the operators from the top,
/// joined by points, with the place of an item of a list, counted from 0, in brackets, and `body` at the top.
pub fn read_filter(alloc: Global, kind: ListKind, value: &Json) -> Result<Filter, CodecStop>
    ensures { Reads (FilterIn kind (tree value.now)) result }
{
    read_at(alloc, kind, &None, value)
}

/// The filter of a body; all items where the body is null. Refusals are those of `read_filter`.
pub fn filter_of_json(alloc: Global, kind: ListKind, value: &Json) -> Result<Filter, CodecStop>
    ensures { Reads (FilterOf kind (tree value.now)) result }
{
    match value {
        Json::Null => Ok(Filter::All),
        Json::Truth(_) | Json::Whole(_) | Json::Text(_) | Json::List(_) | Json::Members(_) =>
            read_filter(alloc, kind, value),
    }
}
