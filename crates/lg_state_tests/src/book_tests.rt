//! A new book, and dates that are brought into the range of moments.

use lg_book::Book;
use lg_containers::{LedgerName, Name};
use std::alloc::Global;
use std::test::Fail;

// Midnight of 2024-01-01, and the first and the last moment, in microseconds since 1970-01-01T00:00:00Z.
const FIRST: i64 = 1_704_067_200_000_000;

const BEGINNING: i64 = -62_135_596_800_000_000;

const END: i64 = 253_402_300_799_999_999;

fn name(alloc: Global, text: &str) -> Result<LedgerName, Fail> {
    Ok(Name::read(alloc, text.as_bytes())?)
}

#[test]
fn opens_with_one_ledger(rt: HostRuntime) -> Result<(), Fail> {
    let alloc = rt.alloc();
    let book = Book::opened(alloc)?;
    let default = name(alloc, "default")?;
    assert_eq!(rt; book.len(), 1);
    assert!(rt; book.event(0).is_some());
    assert!(rt; book.event(1).is_none());
    assert_eq!(rt; book.log_len(&default), Some(0));
    assert_eq!(rt; book.transactions(&default), Some(0));
    let info = book.ledger(&default).ok_or("default")?;
    assert_eq!(rt; info.bucket.bytes(), b"_default".as_slice());
    assert_eq!(rt; info.added, 0);
    Ok(())
}

#[test]
fn dates_are_brought_into_the_range(rt: HostRuntime) -> Result<(), Fail> {
    let book = Book::opened(rt.alloc())?;
    for text in ["default", "other"] {
        let ledger = name(rt.alloc(), text)?;
        assert_eq!(rt; book.date_for(&ledger, FIRST), FIRST);
        assert_eq!(rt; book.date_for(&ledger, i64::MIN), BEGINNING);
        assert_eq!(rt; book.date_for(&ledger, i64::MAX), END);
    }
    Ok(())
}
