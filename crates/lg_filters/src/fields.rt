//! The names of operators and of fields.

ghost use Rattle.std.specs.Prelude.{◌≡◌, ◌≢◌, ◌++◌, ℕ, List, ◌↔◌, IsTrue, IfOk, MatchOption, codes};
ghost use Rattle.lg_filters.specs.Parts.{IsRead, NamesOp, NamesField, NamesTextField, NamesStateField, NamesBracketField, IsMetadataOf, IsBalanceOf};

use lg_base::NoMemory;
use lg_types::{Asset, Field, NameFault, Op, Text};
use std::alloc::Global;

pub fn same_bytes(a: &[u8], b: &[u8]) -> bool
    ensures { IsTrue result ↔ (a.now ≡ b.now) }
{
    a == b
}

/// The operator of the name that compares.
pub fn op_named(name: &[u8]) -> Option<Op>
    ensures { IsRead (NamesOp name.now) result }
{
    if same_bytes(name, b"$match") {
        return Some(Op::Equal);
    }
    if same_bytes(name, b"$lt") {
        return Some(Op::Less);
    }
    if same_bytes(name, b"$lte") {
        return Some(Op::LessEqual);
    }
    if same_bytes(name, b"$gt") {
        return Some(Op::Greater);
    }
    if same_bytes(name, b"$gte") {
        return Some(Op::GreaterEqual);
    }
    None
}

/// The field of a date or of a state.
fn state_field(name: &[u8]) -> Option<Field>
    ensures { IsRead (NamesStateField name.now) result }
{
    if same_bytes(name, b"id") {
        return Some(Field::Id);
    }
    if same_bytes(name, b"timestamp") {
        return Some(Field::Timestamp);
    }
    if same_bytes(name, b"date") {
        return Some(Field::Date);
    }
    if same_bytes(name, b"reverted") {
        return Some(Field::Reverted);
    }
    None
}

/// The field of an address or of a reference.
fn text_field(name: &[u8]) -> Option<Field>
    ensures { IsRead (NamesTextField name.now) result }
{
    if same_bytes(name, b"address") {
        return Some(Field::Address);
    }
    if same_bytes(name, b"account") {
        return Some(Field::Account);
    }
    if same_bytes(name, b"source") {
        return Some(Field::Source);
    }
    if same_bytes(name, b"destination") {
        return Some(Field::Destination);
    }
    if same_bytes(name, b"reference") {
        return Some(Field::Reference);
    }
    None
}

/// What stands after the front.
fn after<'a>(name: &'a [u8], front: &[u8]) -> Option<&'a [u8]>
    ensures { MatchOption result ((rest : List ℕ) → name.entry.now ≢ front.now ++ rest) (λ rest. name.entry.now ≡ front.now ++ rest.now) }
{
    name.strip_prefix(front)
}

/// What stands before a closing bracket at the end.
fn before_bracket<'a>(name: &'a [u8]) -> Option<&'a [u8]>
    ensures { MatchOption result ((inner : List ℕ) → name.entry.now ≢ inner ++ codes "]") (λ inner. name.entry.now ≡ inner.now ++ codes "]") }
{
    name.strip_suffix(b"]")
}

/// What stands between the front and a closing bracket at the end.
fn between<'a>(name: &'a [u8], front: &[u8]) -> Option<&'a [u8]>
    ensures { MatchOption result ((inner : List ℕ) → name.entry.now ≢ front.now ++ (inner ++ codes "]")) (λ inner. name.entry.now ≡ front.now ++ (inner.now ++ codes "]")) }
{
    match after(name, front) {
        Some(rest) => before_bracket(rest),
        None => None,
    }
}

/// The field of the metadata with the name.
fn metadata_field(alloc: Global, name: &[u8]) -> Result<Option<Field>, NoMemory>
    ensures { IfOk result (IsRead (IsMetadataOf name.now)) }
{
    match Text::read(alloc, name) {
        Ok(name) => Ok(Some(Field::Metadata(name))),
        Err(NameFault::Bad { .. }) => Ok(None),
        Err(NameFault::NoMemory) => Err(NoMemory),
    }
}

/// The field of the balance of the asset.
fn balance_field(alloc: Global, asset: &[u8]) -> Result<Option<Field>, NoMemory>
    ensures { IfOk result (IsRead (IsBalanceOf asset.now)) }
{
    match Asset::read(alloc, asset) {
        Ok(asset) => Ok(Some(Field::Balance(asset))),
        Err(NameFault::Bad { .. }) => Ok(None),
        Err(NameFault::NoMemory) => Err(NoMemory),
    }
}

fn bracket_field(alloc: Global, name: &[u8]) -> Result<Option<Field>, NoMemory>
    ensures { IfOk result (IsRead (NamesBracketField name.now)) }
{
    if let Some(inner) = between(name, b"metadata[") {
        return metadata_field(alloc, inner);
    }
    if let Some(inner) = between(name, b"balance[") {
        return balance_field(alloc, inner);
    }
    Ok(None)
}

/// The field of the name, where there is one.
pub fn read_field(alloc: Global, name: &[u8]) -> Result<Option<Field>, NoMemory>
    ensures { IfOk result (IsRead (NamesField name.now)) }
{
    if let Some(field) = text_field(name) {
        return Ok(Some(field));
    }
    if let Some(field) = state_field(name) {
        return Ok(Some(field));
    }
    bracket_field(alloc, name)
}
