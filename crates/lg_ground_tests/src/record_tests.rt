//! Texts of writes and of metadata, and lists and copies of records.

use crate::records::{creation, deposit};
use lg_base::{ByteFeed, Feed};
use lg_types::{
    Duplicate, Element, ElementWrite, Elements, Entry, EntryBody, EntryForm, Key, Meta, NameFault,
    Postings, Refusal, Target, Text, Write, call_text, entry_text,
};
use std::alloc::Global;
use std::test::Fail;

#[test]
fn text_of_a_creation(rt: HostRuntime) -> Result<(), Fail> {
    let copied = creation(rt.alloc())?.copy(rt.alloc())?;
    let mut to = ByteFeed::new(rt.alloc());
    call_text(&copied, &mut to).expect(&rt, "memory");
    let wanted =
        r#"{"action":"CREATE_TRANSACTION","data":{"postings":[{"source":"world","destination":"users:1","amount":100,"asset":"USD/2"}],"metadata":{},"accountMetadata":{},"force":false}}"#;
    assert!(rt; to.bytes() == wanted.as_bytes());
    Ok(())
}

#[test]
fn text_of_a_revert(rt: HostRuntime) {
    let mut to = ByteFeed::new(rt.alloc());
    let write = Write::Revert {
        id: 1,
        force: true,
        at_effective_date: false,
    };
    call_text(&write, &mut to).expect(&rt, "memory");
    let wanted =
        r#"{"action":"REVERT_TRANSACTION","data":{"id":1,"force":true,"atEffectiveDate":false}}"#;
    assert!(rt; to.bytes() == wanted.as_bytes());
}

/// The second entry of a log, which sets metadata of the transaction 7: one name and its value.
fn metadata_entry(alloc: Global, name: &[u8], value: &[u8]) -> Result<Entry, NameFault> {
    let mut metadata = Meta::new(alloc);
    metadata.put(Text::read(alloc, name)?, Text::read(alloc, value)?)?;
    let target = Target::Transaction(7);
    Ok(Entry {
        id: 2,
        date: 0,
        mark: None,
        body: EntryBody::SetMetadata { target, metadata },
        hash: [0; 32],
    })
}

#[test]
fn text_of_metadata(rt: HostRuntime) -> Result<(), Fail> {
    let value = b"\x0a\x0d\x09\x01\x1f\x7f\xc3\xa9";
    let entry = metadata_entry(rt.alloc(), b"\"\\/\x08\x0c", value)?;
    let mut to = ByteFeed::new(rt.alloc());
    entry_text(&entry, EntryForm::Chained, &mut to).expect(&rt, "memory");
    assert!(rt;
        to.bytes()
            == b"{\"type\":\"SET_METADATA\",\"data\":{\"targetType\":\"TRANSACTION\",\"targetId\":7,\"metadata\":{\"\\\"\\\\/\\b\\f\":\"\\n\\r\\t\\u0001\\u001f\x7f\xc3\xa9\"}},\"date\":\"1970-01-01T00:00:00Z\",\"form\":2,\"id\":2}".as_slice()
    );
    Ok(())
}

/// A creation under the key `k1`, and an element that can't be read.
fn two_elements(alloc: Global) -> Result<Elements, NameFault> {
    let mut elements = Elements::new(alloc);
    elements.push(Element {
        key: Some(Key::read(alloc, b"k1")?),
        write: ElementWrite::Good(creation(alloc)?),
    })?;
    elements.push(Element {
        key: None,
        write: ElementWrite::Bad(Refusal::NoPostings),
    })?;
    Ok(elements)
}

/// Whether the element has this key.
fn has_key(element: &Element, key: &[u8]) -> bool {
    match &element.key {
        Some(found) => found.bytes() == key,
        None => false,
    }
}

/// Whether the element can't be read for want of postings.
fn wants_postings(element: &Element) -> bool {
    matches!(&element.write, ElementWrite::Bad(Refusal::NoPostings))
}

#[test]
fn elements_are_copied(rt: HostRuntime) -> Result<(), Fail> {
    let copied = two_elements(rt.alloc())?.copy(rt.alloc())?;
    assert_eq!(rt; copied.len(), 2);
    assert!(rt; has_key(copied.get(0).ok_or("the first")?, b"k1"));
    assert!(rt; wants_postings(copied.get(1).ok_or("the second")?));
    assert!(rt; copied.get(2).is_none());
    Ok(())
}

#[test]
fn postings_grow(rt: HostRuntime) -> Result<(), Fail> {
    let mut postings = Postings::of(rt.alloc(), deposit(rt.alloc())?)?;
    postings.push(deposit(rt.alloc())?)?;
    assert_eq!(rt; postings.copy(rt.alloc())?.len(), 2);
    assert!(rt; postings.get(1).is_some());
    assert!(rt; postings.get(2).is_none());
    Ok(())
}
