//! Rows of each grammar of names, with the longest names.

use lg_containers::{
    Address, AddressGrammar, AssetGrammar, BucketGrammar, Duplicate, Grammar, KeyGrammar,
    LedgerNameGrammar, Name, NameFault,
};
use std::alloc::Global;
use std::process::Abort;
use std::test::Fail;

/// The place of the fault that the bytes are refused for, none for a name.
fn fault_place<G: Grammar>(alloc: Global, bytes: &[u8]) -> Option<usize> {
    match Name::<G>::read(alloc, bytes) {
        Ok(_) => None,
        Err(NameFault::Bad { place }) => Some(place),
        Err(NameFault::NoMemory) => Some(usize::MAX),
    }
}

/// Asserts that each text is a name, or is refused at its place.
fn check<G: Grammar>(rt: &impl Abort, alloc: Global, rows: &[(&str, Option<usize>)]) {
    for (text, place) in rows {
        assert_eq!(rt;
            fault_place::<G>(alloc, text.as_bytes()),
            *place,
            "at {text}"
        );
    }
}

#[test]
fn addresses(rt: HostRuntime) {
    check::<AddressGrammar>(
        &rt,
        rt.alloc(),
        &[
            ("", Some(0)),
            ("users:1:wallet", None),
            (":a", Some(0)),
            ("a b", Some(1)),
            ("A-_9:z", None),
        ],
    );
}

#[test]
fn addresses_of_255_bytes(rt: HostRuntime) {
    let bytes = [b'a'; 256];
    assert_eq!(rt;
        fault_place::<AddressGrammar>(rt.alloc(), &bytes),
        Some(255)
    );
    assert_eq!(rt;
        fault_place::<AddressGrammar>(rt.alloc(), &bytes[..255]),
        None
    );
}

#[test]
fn addresses_with_a_colon_at_the_limit(rt: HostRuntime) {
    let mut bytes = [b'a'; 256];
    bytes[254] = b':';
    assert_eq!(rt;
        fault_place::<AddressGrammar>(rt.alloc(), &bytes),
        Some(254)
    );
    bytes[254] = b'a';
    bytes[253] = b':';
    assert_eq!(rt;
        fault_place::<AddressGrammar>(rt.alloc(), &bytes[..255]),
        None
    );
    assert_eq!(rt;
        fault_place::<AddressGrammar>(rt.alloc(), &bytes[..254]),
        Some(254)
    );
}

#[test]
fn assets(rt: HostRuntime) {
    check::<AssetGrammar>(
        &rt,
        rt.alloc(),
        &[
            ("USD/2", None),
            ("USD", None),
            ("USD/1234567", Some(10)),
            ("U_", Some(2)),
            ("U_AB/1", None),
            ("USD_X/12x", Some(8)),
            ("A2345678901234567", None),
            ("A23456789012345678", Some(17)),
            ("A_ABCDEFGHIJKLMNOP", None),
            ("A_ABCDEFGHIJKLMNOPQ", Some(18)),
            ("USD_/2", Some(4)),
        ],
    );
}

#[test]
fn ledgers_and_buckets_of_63_bytes(rt: HostRuntime) {
    let letters = [b'b'; 64];
    let letters = letters.as_slice();
    assert_eq!(rt;
        fault_place::<LedgerNameGrammar>(rt.alloc(), &letters[..63]),
        None
    );
    assert_eq!(rt;
        fault_place::<LedgerNameGrammar>(rt.alloc(), letters),
        Some(63)
    );
    assert_eq!(rt; fault_place::<BucketGrammar>(rt.alloc(), letters), Some(63));
}

#[test]
fn ledgers_and_buckets(rt: HostRuntime) {
    check::<LedgerNameGrammar>(&rt, rt.alloc(), &[("default", None)]);
    check::<BucketGrammar>(&rt, rt.alloc(), &[("_default", None), ("a:b", Some(1))]);
}

#[test]
fn keys(rt: HostRuntime) {
    check::<KeyGrammar>(
        &rt,
        rt.alloc(),
        &[("~!", None), ("a b", Some(1)), ("", Some(0))],
    );
}

#[test]
fn names_compare_by_bytes(rt: HostRuntime) -> Result<(), Fail> {
    let first = Address::read(rt.alloc(), b"a")?;
    let second = Address::read(rt.alloc(), b"a:b")?;
    assert!(rt; first < second);
    assert!(rt; first != second);
    assert!(rt; first == first.copy(rt.alloc())?);
    assert_eq!(rt; second.bytes(), b"a:b".as_slice());
    Ok(())
}
