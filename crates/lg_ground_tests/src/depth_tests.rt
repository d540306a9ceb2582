//! Lists and objects that are open at once, and objects with many names.

use crate::json_rows::{fault_of, repeated, too_deep};
use lg_json::{JsonFault, read};
use std::alloc::Global;
use std::test::Fail;

/// Bytes that open so many lists, and close as many as that.
fn lists(alloc: Global, opened: usize, closed: usize) -> Result<Vec<u8>, Fail> {
    let mut bytes = vec![in alloc; b'['; opened]?;
    for _ in 0..closed {
        bytes.push(b']')?;
    }
    Ok(bytes)
}

#[test]
fn lists_open_to_64(rt: HostRuntime) -> Result<(), Fail> {
    let most = lists(rt.alloc(), 64, 64)?;
    assert!(rt; read(rt.alloc(), most.as_slice()).is_ok());
    let more = lists(rt.alloc(), 65, 0)?;
    assert_eq!(rt; fault_of(rt.alloc(), more.as_slice()), too_deep(64));
    Ok(())
}

#[test]
fn lists_too_deep_inside(rt: HostRuntime) -> Result<(), Fail> {
    let mut bytes = b"[1,".to_vec(rt.alloc())?;
    bytes.extend_from_slice(&[b'['; 64])?;
    bytes.extend_from_slice(&[b']'; 65])?;
    assert_eq!(rt; fault_of(rt.alloc(), bytes.as_slice()), too_deep(66));
    Ok(())
}

#[test]
fn objects_too_deep_at_the_end(rt: HostRuntime) -> Result<(), Fail> {
    let mut bytes = Vec::new(rt.alloc());
    for _ in 0..64u8 {
        bytes.extend_from_slice(b"{\"a\":")?;
    }
    bytes.push(b'{')?;
    assert_eq!(rt; fault_of(rt.alloc(), bytes.as_slice()), too_deep(320));
    Ok(())
}

#[test]
fn names_are_new_in_their_object_alone(rt: HostRuntime) {
    let nested = b"{\"a\":{\"a\":1,\"b\":{\"a\":2}},\"b\":1}";
    assert_eq!(rt; fault_of(rt.alloc(), nested), JsonFault::NoMemory);
}

/// An object of a hundred members, named by the numbers from 00 to 99, that isn't closed.
fn hundred_members(alloc: Global) -> Result<Vec<u8>, Fail> {
    let mut bytes = Vec::new(alloc);
    for n in 0..100u32 {
        bytes.extend_from_slice(if n == 0 { b"{" } else { b"," })?;
        bytes.extend_from_slice(&[b'"', b'0' + (n / 10) as u8, b'0' + (n % 10) as u8])?;
        bytes.extend_from_slice(b"\":0")?;
    }
    Ok(bytes)
}

#[test]
fn a_name_again_behind_a_hundred(rt: HostRuntime) -> Result<(), Fail> {
    let mut bytes = hundred_members(rt.alloc())?;
    bytes.extend_from_slice(b",\"37\":0}")?;
    assert_eq!(rt; fault_of(rt.alloc(), bytes.as_slice()), repeated(701));
    Ok(())
}
