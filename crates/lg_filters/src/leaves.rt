//! Operators over one field, or over a name of metadata.

ghost use Rattle.std.specs.Prelude.{IfOk, codes};
ghost use Rattle.lg_json.specs.Tree.{tree, Tree};
ghost use Rattle.lg_codec.specs.Seen.{members_seen};
ghost use Rattle.lg_views.specs.Tokens.{op_name, field_name};
ghost use Rattle.lg_readings.specs.FilterReadings.{one, IsFieldInGrammar};
ghost use Rattle.lg_filters.specs.Parts.{ShowsLeaf, ShowsPresence};

use crate::fields::{op_named, read_field, same_bytes};
use crate::kinds::{compares_field, has_metadata};
use crate::values::{copied, read_value};
use lg_base::NoMemory;
use lg_json::{Json, Member};
use lg_types::{Field, Filter, ListKind, Op, Text};
use std::alloc::Global;

/// The comparison with a field, where the list has it and the value is of the field's kind.
fn compared(
    alloc: Global,
    kind: ListKind,
    op: Op,
    field: Field,
    value: &Json,
) -> Result<Option<Filter>, NoMemory>
    requires { IsFieldInGrammar field }
    ensures { IfOk result (ShowsLeaf kind (one (op_name op) (one (field_name field) (tree value.now)))) }
{
    if !compares_field(kind, op, &field) {
        return Ok(None);
    }
    match read_value(alloc, &field, value)? {
        Some(value) => Ok(Some(Filter::Compare { op, field, value })),
        None => Ok(None),
    }
}

fn comparison(
    alloc: Global,
    kind: ListKind,
    op: Op,
    member: &Member,
) -> Result<Option<Filter>, NoMemory>
    ensures { IfOk result (ShowsLeaf kind (one (op_name op) (one member.now.name (tree member.now.value)))) }
{
    match read_field(alloc, member.name.bytes())? {
        Some(field) => compared(alloc, kind, op, field, &member.value),
        None => Ok(None),
    }
}

fn presence_of(alloc: Global, name: &Json) -> Result<Option<Filter>, NoMemory>
    ensures { IfOk result (ShowsPresence (tree name.now)) }
{
    match name {
        Json::Text(name) => Ok(Some(Filter::Has(copied(alloc, name)?))),
        Json::Null | Json::Truth(_) | Json::Whole(_) | Json::List(_) | Json::Members(_) => {
            Ok(None)
        }
    }
}

/// The test for a name of metadata, where the items of the list have metadata.
fn presence(alloc: Global, kind: ListKind, member: &Member) -> Result<Option<Filter>, NoMemory>
    ensures { IfOk result (ShowsLeaf kind (one (codes "$exists") (one member.now.name (tree member.now.value)))) }
{
    if !has_metadata(kind) {
        return Ok(None);
    }
    if !same_bytes(member.name.bytes(), b"metadata") {
        return Ok(None);
    }
    presence_of(alloc, &member.value)
}

fn leaf_of_member(
    alloc: Global,
    kind: ListKind,
    name: &Text,
    member: &Member,
) -> Result<Option<Filter>, NoMemory>
    ensures { IfOk result (ShowsLeaf kind (one name.now (one member.now.name (tree member.now.value)))) }
{
    if same_bytes(name.bytes(), b"$exists") {
        return presence(alloc, kind, member);
    }
    match op_named(name.bytes()) {
        Some(op) => comparison(alloc, kind, op, member),
        None => Ok(None),
    }
}

fn leaf_of_members(
    alloc: Global,
    kind: ListKind,
    name: &Text,
    members: &[Member],
) -> Result<Option<Filter>, NoMemory>
    ensures { IfOk result (ShowsLeaf kind (one name.now (Tree.members (members_seen members.now)))) }
{
    match members {
        [] => Ok(None),
        [member] => leaf_of_member(alloc, kind, name, member),
        [_, _, ..] => Ok(None),
    }
}

/// The filter that an operator over one field, or over a name of metadata, shows.
pub fn read_leaf(
    alloc: Global,
    kind: ListKind,
    name: &Text,
    over: &Json,
) -> Result<Option<Filter>, NoMemory>
    ensures { IfOk result (ShowsLeaf kind (one name.now (tree over.now))) }
{
    match over {
        Json::Members(members) => leaf_of_members(alloc, kind, name, members.as_slice()),
        Json::Null | Json::Truth(_) | Json::Whole(_) | Json::Text(_) | Json::List(_) => Ok(None),
    }
}
