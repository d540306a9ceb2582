//! The pieces of a record's text.

use crate::parts::Part;
use crate::postings::Postings;
use crate::records::{Entry, EntryBody, KeyMark, LedgerInfo, Target, Transaction};
use lg_containers::{AccountMeta, Meta, Reference};

/// A piece of a transaction's or a ledger's text.
#[derive(Clone, Copy)]
pub enum RecordPart<'a> {
    Base(Part<'a>),
    Postings(&'a Postings),
    Meta(&'a Meta),
    Accounts(&'a AccountMeta),
    /// The member with the reference, or nothing.
    Reference(&'a Option<Reference>),
}

/// A piece of the text of an entry's body.
#[derive(Clone, Copy)]
pub enum BodyPart<'a> {
    Record(RecordPart<'a>),
    Transaction(&'a Transaction),
    Target(&'a Target),
}

/// A piece of an entry's text.
#[derive(Clone, Copy)]
pub enum EntryPart<'a> {
    Base(Part<'a>),
    Body(&'a EntryBody),
    /// The members with the key and the hash of its input, or nothing.
    Mark(&'a Option<KeyMark>),
    /// The member with the key alone, or nothing.
    Key(&'a Option<KeyMark>),
}

/// A piece of an event's text.
#[derive(Clone, Copy)]
pub enum EventPart<'a> {
    Base(Part<'a>),
    Ledger(&'a LedgerInfo),
    Entry(&'a Entry),
}
