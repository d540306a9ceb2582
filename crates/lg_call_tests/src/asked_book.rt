//! What the book is asked.

use crate::asked_history::told_history;
use crate::words::{
    moment_of, number_of, told_hash, told_moment, told_moment_or_none, told_number,
};
use lg_base::ByteFeed;
use lg_book::Book;
use lg_request_tests::{body_text, canonical_text, text_of};
use lg_types::{
    Entry, EntryForm, Event, LedgerInfo, LedgerName, Transaction, entry_text, event_text,
};
use std::alloc::Global;
use std::test::Fail;

fn told_event(alloc: Global, place: u64, event: Option<&Event>) -> Result<String, Fail> {
    let Some(event) = event else {
        return text_of(alloc, b"none");
    };
    let mut feed = ByteFeed::new(alloc);
    event_text(place, event, &mut feed)?;
    text_of(alloc, feed.bytes())
}

fn told_entry(alloc: Global, entry: Option<&Entry>) -> Result<String, Fail> {
    let Some(entry) = entry else {
        return text_of(alloc, b"none");
    };
    let mut feed = ByteFeed::new(alloc);
    entry_text(entry, EntryForm::Line, &mut feed)?;
    text_of(alloc, feed.bytes())
}

fn told_ledger(alloc: Global, ledger: Option<&LedgerInfo>) -> Result<String, Fail> {
    match ledger {
        Some(info) => canonical_text(alloc, info),
        None => text_of(alloc, b"none"),
    }
}

fn told_transaction(alloc: Global, transaction: Option<&Transaction>) -> Result<String, Fail> {
    match transaction {
        Some(transaction) => canonical_text(alloc, transaction),
        None => text_of(alloc, b"none"),
    }
}

fn told_head(alloc: Global, head: Option<[u8; 32]>) -> Result<String, Fail> {
    match head {
        Some(hash) => told_hash(alloc, &hash),
        None => text_of(alloc, b"none"),
    }
}

fn told_first_reply(
    alloc: Global,
    book: &Book,
    ledger: &LedgerName,
    id: u64,
) -> Result<String, Fail> {
    if book.entry(ledger, id).is_none() {
        return text_of(alloc, b"none");
    }
    let reply = book.first_reply(ledger, id)?;
    body_text(alloc, &reply)
}

/// What is asked of a ledger as a whole: its record as `ledger`, how many `entries` and `transactions` there are, and as
/// `head` the hash of the last entry; and how many `events` there are of all ledgers.
fn told_whole(alloc: Global, book: &Book, ledger: &LedgerName, kind: &str) -> Result<String, Fail> {
    match kind.as_bytes() {
        b"events" => told_number(alloc, Some(book.len())),
        b"ledger" => told_ledger(alloc, book.ledger(ledger)),
        b"entries" => told_number(alloc, book.log_len(ledger)),
        b"transactions" => told_number(alloc, book.transactions(ledger)),
        b"head" => told_head(alloc, book.head(ledger)),
        _ => Err("no question of a ledger".into()),
    }
}

/// What is asked by a number: the `event` of a place, of all ledgers; the `entry` and the `first-reply` of an entry; the
/// `transaction` of an id, the date of its entry as `inserted`, and the transaction that it is `reverted-by`.
fn told_one(
    alloc: Global,
    book: &Book,
    ledger: &LedgerName,
    kind: &str,
    number: u64,
) -> Result<String, Fail> {
    match kind.as_bytes() {
        b"event" => told_event(alloc, number, book.event(number)),
        b"entry" => told_entry(alloc, book.entry(ledger, number)),
        b"first-reply" => told_first_reply(alloc, book, ledger, number),
        b"transaction" => told_transaction(alloc, book.transaction(ledger, number)),
        b"inserted" => told_moment_or_none(alloc, book.inserted(ledger, number)),
        b"reverted-by" => told_number(alloc, book.reverted_by(ledger, number)),
        _ => Err("no question of a number".into()),
    }
}

/// What the book answers to a question about a ledger, and `none` where it knows nothing. `date-for` asks for the date of
/// a new entry at a moment, and `transaction-metadata` for the metadata of the transaction of an id.
pub fn told_by_book(
    alloc: Global,
    book: &Book,
    ledger: &LedgerName,
    kind: &str,
    words: &[&str],
) -> Result<String, Fail> {
    match words {
        [] => told_whole(alloc, book, ledger, kind),
        [moment] if kind == "date-for" => {
            told_moment(alloc, book.date_for(ledger, moment_of(moment)?))
        }
        [number] => told_one(alloc, book, ledger, kind, number_of(number)?),
        [id, rest @ ..] => {
            told_history(
                alloc,
                book.transaction_history(ledger, number_of(id)?),
                rest,
            )
        }
    }
}
