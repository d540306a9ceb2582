//! The hash of a write, and the chain of three entries. The hashes were computed outside, by SHA-256 over the texts as
//! they are spelled out.

use crate::records::{creation, posting};
use lg_chain::{input_hash, seal, seal_first};
use lg_types::{AccountMeta, Entry, EntryBody, Meta, NameFault, Posting, Postings, Transaction};
use std::alloc::Global;
use std::test::Fail;

const START: i64 = 1_704_067_200_000_000;

const DAY: i64 = 86_400_000_000;

/// The entry of a new transaction of one posting.
fn entry(
    alloc: Global,
    id: u64,
    date: i64,
    timestamp: i64,
    posting: Posting,
) -> Result<Entry, NameFault> {
    let transaction = Transaction {
        id,
        postings: Postings::of(alloc, posting)?,
        metadata: Meta::new(alloc),
        reference: None,
        timestamp,
    };
    let accounts = AccountMeta::new(alloc);
    let body = EntryBody::NewTransaction {
        transaction,
        accounts,
    };
    Ok(Entry {
        id,
        date,
        mark: None,
        body,
        hash: [0; 32],
    })
}

fn first_entry(alloc: Global) -> Result<Entry, NameFault> {
    let posting = posting(alloc, b"world", b"users:1", 100)?;
    entry(alloc, 1, START, START, posting)
}

fn second_entry(alloc: Global) -> Result<Entry, NameFault> {
    let posting = posting(alloc, b"users:1", b"users:2", 30)?;
    entry(alloc, 2, START + DAY, START - DAY, posting)
}

fn third_entry(alloc: Global) -> Result<Entry, NameFault> {
    let posting = posting(alloc, b"users:2", b"shop", 7)?;
    entry(alloc, 3, START + 2 * DAY, START + 2 * DAY, posting)
}

#[test]
fn a_creation_is_hashed_by_its_text(rt: HostRuntime) -> Result<(), Fail> {
    let write = creation(rt.alloc())?;
    assert_eq!(rt;
        input_hash(&write),
        [
            6, 105, 90, 33, 248, 169, 214, 249, 229, 251, 251, 177, 193, 104, 16, 77, 74, 143, 21,
            149, 65, 156, 152, 75, 88, 93, 168, 172, 68, 185, 181, 242
        ]
    );
    Ok(())
}

/// The hash of the first entry.
const FIRST: [u8; 32] = [
    41, 131, 225, 165, 117, 22, 79, 105, 52, 84, 12, 185, 161, 113, 177, 222, 81, 136, 201, 197,
    156, 4, 228, 14, 248, 242, 65, 159, 186, 139, 178, 175,
];

/// The hash of the second entry, behind the first.
const SECOND: [u8; 32] = [
    221, 173, 212, 60, 226, 138, 59, 153, 236, 62, 206, 95, 227, 40, 29, 86, 45, 237, 153, 254,
    136, 195, 128, 38, 24, 182, 254, 225, 158, 196, 217, 76,
];

#[test]
fn the_first_entry_is_hashed_alone(rt: HostRuntime) -> Result<(), Fail> {
    let entry = first_entry(rt.alloc())?;
    assert_eq!(rt; seal(None, &entry), FIRST);
    Ok(())
}

#[test]
fn the_second_entry_is_hashed_behind_the_first(rt: HostRuntime) -> Result<(), Fail> {
    let entry = second_entry(rt.alloc())?;
    assert_eq!(rt; seal(Some(FIRST), &entry), SECOND);
    Ok(())
}

#[test]
fn the_third_entry_is_hashed_behind_the_second(rt: HostRuntime) -> Result<(), Fail> {
    let entry = third_entry(rt.alloc())?;
    assert_eq!(rt;
        seal(Some(SECOND), &entry),
        [
            115, 164, 208, 212, 167, 33, 16, 86, 222, 1, 163, 251, 186, 195, 60, 204, 14, 246, 37,
            209, 228, 108, 119, 79, 144, 75, 22, 103, 168, 111, 125, 204
        ]
    );
    Ok(())
}

#[test]
fn the_first_entry_is_hashed_by_form_1(rt: HostRuntime) -> Result<(), Fail> {
    let entry = first_entry(rt.alloc())?;
    assert_eq!(rt;
        seal_first(None, &entry),
        [
            144, 198, 115, 39, 33, 254, 189, 19, 26, 70, 5, 85, 248, 31, 192, 97, 182, 23, 222,
            147, 138, 248, 196, 209, 226, 155, 148, 73, 12, 233, 5, 112
        ]
    );
    Ok(())
}
