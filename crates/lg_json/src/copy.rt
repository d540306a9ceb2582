//! Copies of values.
ghost use Rattle.std.specs.Prelude.{◌≡◌, IfOk};

use crate::json::{Json, JsonList, Member, MemberList};
use lg_containers::{Duplicate, NoMemory};
use sqlite_items::Items;
use std::alloc::Global;

#[cycle(copy)]
fn copy_value(alloc: Global, value: &Json) -> Result<Json, NoMemory>
    ensures { IfOk result (λ copied. copied ≡ value.now) }
{
    match value {
        Json::Null => Ok(Json::Null),
        Json::Truth(truth) => Ok(Json::Truth(*truth)),
        Json::Whole(number) => Ok(Json::Whole(*number)),
        Json::Text(text) => Ok(Json::Text(text.copy(alloc)?)),
        Json::List(items) => Ok(Json::List(copy_list(alloc, items)?)),
        Json::Members(members) => Ok(Json::Members(copy_members(alloc, members)?)),
    }
}

#[cycle(copy)]
fn copy_list(alloc: Global, items: &JsonList) -> Result<JsonList, NoMemory>
    ensures { IfOk result (λ copied. copied ≡ items.now) }
{
    let mut copied = Items::new(alloc);
    for item in items.as_slice() {
        copied.push(copy_value(alloc, item)?)?;
    }
    Ok(copied)
}

#[cycle(copy)]
fn copy_member(alloc: Global, member: &Member) -> Result<Member, NoMemory>
    ensures { IfOk result (λ copied. copied ≡ member.now) }
{
    Ok(Member {
        name: member.name.copy(alloc)?,
        value: copy_value(alloc, &member.value)?,
    })
}

#[cycle(copy)]
fn copy_members(alloc: Global, members: &MemberList) -> Result<MemberList, NoMemory>
    ensures { IfOk result (λ copied. copied ≡ members.now) }
{
    let mut copied = Items::new(alloc);
    for member in members.as_slice() {
        copied.push(copy_member(alloc, member)?)?;
    }
    Ok(copied)
}

impl Duplicate for Json {
    fn copy(&self, alloc: Global) -> Result<Json, NoMemory> {
        copy_value(alloc, self)
    }
}
