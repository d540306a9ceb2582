//! Values of JSON: whole numbers at their limits, and copies.

use lg_containers::Duplicate;
use lg_json::{Json, Member, read};
use std::alloc::Global;
use std::test::Fail;

/// The number that the bytes are read to, none for other values and for faults.
fn number_of(alloc: Global, bytes: &[u8]) -> Option<i128> {
    match read(alloc, bytes) {
        Ok(Json::Whole(number)) => Some(number),
        _ => None,
    }
}

#[test]
fn numbers_end_at_the_limits(rt: HostRuntime) {
    let alloc = rt.alloc();
    assert_eq!(rt; number_of(alloc, b"-0"), Some(0));
    assert_eq!(rt;
        number_of(alloc, b" 170141183460469231731687303715884105727 "),
        Some(i128::MAX)
    );
    assert_eq!(rt;
        number_of(alloc, b"-170141183460469231731687303715884105728"),
        Some(i128::MIN)
    );
}

/// Whether the member is named `a` and is a list of three values.
fn is_list_of_three(member: &Member) -> bool {
    if member.name.bytes() != b"a".as_slice() {
        return false;
    }
    match &member.value {
        Json::List(items) => items.len() == 3,
        _ => false,
    }
}

/// Whether the value is an object whose one member is named `a` and is a list of three values.
fn is_sample(value: &Json) -> bool {
    match value {
        Json::Members(members) => match members.get(0) {
            Some(member) => members.len() == 1 && is_list_of_three(member),
            None => false,
        },
        _ => false,
    }
}

#[test]
fn copies_are_whole(rt: HostRuntime) -> Result<(), Fail> {
    let value = read(rt.alloc(), b" { \"a\" : [ true , null , [ ] ] } ")?;
    assert!(rt; is_sample(&value));
    assert!(rt; is_sample(&value.copy(rt.alloc())?));
    Ok(())
}
