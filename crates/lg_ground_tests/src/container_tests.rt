//! Lists and maps, their copies and texts, and which of them threads may share.

use lg_base::ByteFeed;
use lg_containers::{
    AccountMeta, Address, Canonical, Duplicate, List, Meta, NameFault, Reference, Text, copy_items,
    feed_all,
};
use std::alloc::Global;
use std::test::Fail;

#[test]
fn lists_grow(rt: HostRuntime) -> Result<(), Fail> {
    let mut list = List::new(rt.alloc());
    list.push(7u64)?;
    list.push(8)?;
    assert_eq!(rt; list.len(), 2);
    assert_eq!(rt; list.get(1), Some(&8));
    assert_eq!(rt; list.get(2), None);
    Ok(())
}

#[test]
fn lists_are_copied(rt: HostRuntime) -> Result<(), Fail> {
    let list = List::from_vec(vec![in rt.alloc(); 7u64, 8]?);
    assert_eq!(rt;
        list.copy(rt.alloc())?.into_vec().as_slice(),
        [7, 8].as_slice()
    );
    let other = List::from_vec(copy_items(rt.alloc(), list.as_slice())?);
    assert_eq!(rt; other.as_slice(), list.as_slice());
    Ok(())
}

fn text_map(alloc: Global, rows: &[(&[u8], &[u8])]) -> Result<Meta, NameFault> {
    let mut map = Meta::new(alloc);
    for (name, value) in rows {
        map.put(Text::read(alloc, name)?, Text::read(alloc, value)?)?;
    }
    Ok(map)
}

/// Metadata of two accounts: none of `users:2`, and `a` and `b`, which is put twice, of `users:1`.
fn two_accounts(alloc: Global) -> Result<AccountMeta, NameFault> {
    let mut map = AccountMeta::new(alloc);
    map.put(Address::read(alloc, b"users:2")?, text_map(alloc, &[])?)?;
    map.put(
        Address::read(alloc, b"users:1")?,
        text_map(alloc, &[(b"b", b"2"), (b"a", b"1"), (b"b", b"3")])?,
    )?;
    Ok(map)
}

#[test]
fn maps_of_maps_are_copied(rt: HostRuntime) -> Result<(), Fail> {
    let map = two_accounts(rt.alloc())?;
    assert_eq!(rt; map.len(), 2);
    let copied = map.copy(rt.alloc())?;
    let found = copied.find(b"users:1").expect(&rt, "users:1 is there");
    assert_eq!(rt; found.len(), 2);
    let (name, value) = found.get(1).expect(&rt, "two names");
    assert_eq!(rt; name.bytes(), b"b".as_slice());
    assert_eq!(rt; value.bytes(), b"3".as_slice());
    assert!(rt; found.get(2).is_none());
    Ok(())
}

#[test]
fn pairs_are_taken_out_of_maps(rt: HostRuntime) -> Result<(), Fail> {
    let mut map = two_accounts(rt.alloc())?;
    assert!(rt; map.take(b"users:3").is_none());
    assert!(rt; map.take(b"users:1").is_some());
    assert!(rt; map.find(b"users:1").is_none());
    assert_eq!(rt; map.entries().len(), 1);
    Ok(())
}

#[test]
fn texts_of_maps(rt: HostRuntime) -> Result<(), Fail> {
    let mut to = ByteFeed::new(rt.alloc());
    let map = text_map(rt.alloc(), &[(b"b", b"2"), (b"a\"", b"1")])?;
    map.feed_to(&mut to).expect(&rt, "memory");
    assert!(rt; to.bytes() == b"{\"a\\\"\":\"1\",\"b\":\"2\"}".as_slice());
    Ok(())
}

#[test]
fn texts_of_lists(rt: HostRuntime) -> Result<(), Fail> {
    let mut to = ByteFeed::new(rt.alloc());
    let mut list = List::new(rt.alloc());
    list.feed_to(&mut to).expect(&rt, "memory");
    list.push(Address::read(rt.alloc(), b"world")?)?;
    list.push(Address::read(rt.alloc(), b"a")?)?;
    list.feed_to(&mut to).expect(&rt, "memory");
    feed_all(list.as_slice(), &mut to).expect(&rt, "memory");
    assert!(rt; to.bytes() == b"[][\"world\",\"a\"]\"world\"\"a\"".as_slice());
    Ok(())
}

fn is_shared<T: Send + Sync + Drop>() {}

#[test]
fn threads_may_share_them() {
    is_shared::<Address>();
    is_shared::<Reference>();
    is_shared::<List<Address>>();
    is_shared::<AccountMeta>();
}
