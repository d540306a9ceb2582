//! The records that a ledger keeps: plain data.

use crate::postings::Postings;
use lg_base::Amount;
use lg_containers::{AccountMeta, Address, Asset, Bucket, Key, LedgerName, Meta, Reference, Text};

/// An amount of an asset that moves from a source account to a destination account.
#[derive(Drop)]
pub struct Posting {
    pub source: Address,
    pub destination: Address,
    pub asset: Asset,
    pub amount: Amount,
}

/// A transaction: postings that were accepted together.
#[derive(Drop)]
pub struct Transaction {
    /// Ids count from 1 in each ledger, without gaps.
    pub id: u64,
    pub postings: Postings,
    pub metadata: Meta,
    pub reference: Option<Reference>,
    /// The effective date, in microseconds since 1970-01-01T00:00:00Z.
    pub timestamp: i64,
}

/// What metadata is about.
#[derive(Drop)]
pub enum Target {
    Account(Address),
    /// The transaction of this id.
    Transaction(u64),
}

/// What an entry of a log records.
#[derive(Drop)]
pub enum EntryBody {
    /// A transaction, with metadata of accounts that its request gave.
    NewTransaction {
        transaction: Transaction,
        accounts: AccountMeta,
    },
    /// Metadata were set.
    SetMetadata {
        target: Target,
        metadata: Meta,
    },
    /// A transaction was reverted by another.
    Reverted {
        reverted: u64,
        transaction: Transaction,
    },
    /// One name was taken out of the metadata.
    DeleteMetadata {
        target: Target,
        name: Text,
    },
}

/// The idempotency key of an accepted request, with the SHA-256 of what it asked.
#[derive(Drop)]
pub struct KeyMark {
    pub key: Key,
    pub input_hash: [u8; 32],
}

/// An entry of a ledger's log.
#[derive(Drop)]
pub struct Entry {
    /// Ids count from 1 in each ledger, without gaps.
    pub id: u64,
    /// The insertion date, in microseconds since 1970-01-01T00:00:00Z.
    pub date: i64,
    pub mark: Option<KeyMark>,
    pub body: EntryBody,
    /// The SHA-256 that chains the entry to those before it.
    pub hash: [u8; 32],
}

/// A ledger, as it was made.
#[derive(Drop)]
pub struct LedgerInfo {
    pub name: LedgerName,
    pub bucket: Bucket,
    pub metadata: Meta,
    /// When it was made, in microseconds since 1970-01-01T00:00:00Z.
    pub added: i64,
}

/// What happens in the product, in one order for all ledgers.
#[derive(Drop)]
pub enum Event {
    /// A ledger was made.
    Made(LedgerInfo),
    /// A ledger's log took an entry.
    Logged { ledger: LedgerName, entry: Entry },
}
