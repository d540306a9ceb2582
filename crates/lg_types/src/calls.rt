//! Calls: what is asked of the product.

use crate::elements::Elements;
use crate::postings::Postings;
use crate::queries::{Query, Read};
use crate::records::{Entry, Target};
use crate::refusals::{ImportCause, Refusal};
use lg_base::NoMemory;
use lg_containers::{AccountMeta, Bucket, Duplicate, Key, LedgerName, List, Meta, Reference, Text};
use std::alloc::Global;

/// A call that appends one entry to a ledger's log, unless it is refused.
#[derive(Drop)]
pub enum Write {
    Create {
        postings: Postings,
        reference: Option<Reference>,
        /// The effective date, in microseconds since 1970-01-01T00:00:00Z; none for the entry's date.
        timestamp: Option<i64>,
        metadata: Meta,
        accounts: AccountMeta,
        /// Whether accounts may go below zero.
        force: bool,
    },
    Revert {
        id: u64,
        /// Whether accounts may go below zero.
        force: bool,
        /// Whether the reverting transaction has the effective date of the reverted one.
        at_effective_date: bool,
    },
    SetMeta {
        target: Target,
        metadata: Meta,
    },
    /// Takes one name out.
    DropMeta {
        target: Target,
        name: Text,
    },
}

/// What an element of a list asks: a write, or what can't be read, with its refusal.
#[derive(Drop)]
pub enum ElementWrite {
    Good(Write),
    Bad(Refusal),
}

/// An element of a list of writes.
#[derive(Drop)]
pub struct Element {
    pub key: Option<Key>,
    pub write: ElementWrite,
}

/// The lines of an import.
#[derive(Drop)]
pub enum Batch {
    /// The entries, with their hashes.
    Ready(List<Entry>),
    /// The first bad line, counted from 1, and its first cause.
    Bad { line: u64, cause: ImportCause },
}

/// A call.
#[derive(Drop)]
pub enum Call {
    /// A request that can't be read.
    Unreadable(Refusal),
    MakeLedger {
        ledger: LedgerName,
        bucket: Bucket,
        metadata: Meta,
    },
    Write {
        ledger: LedgerName,
        key: Option<Key>,
        write: Write,
    },
    Bulk {
        ledger: LedgerName,
        elements: Elements,
        /// All elements or none.
        atomic: bool,
        /// Whether the list goes on after an element that fails.
        go_on: bool,
    },
    Import {
        ledger: LedgerName,
        batch: Batch,
    },
    Ledgers {
        query: Query,
    },
    Read {
        ledger: LedgerName,
        read: Read,
    },
}

impl Duplicate for Write {
    fn copy(&self, alloc: Global) -> Result<Write, NoMemory> {
        match self {
            Write::Create {
                postings,
                reference,
                timestamp,
                metadata,
                accounts,
                force,
            } => Ok(Write::Create {
                postings: postings.copy(alloc)?,
                reference: reference.copy(alloc)?,
                timestamp: timestamp.copy(alloc)?,
                metadata: metadata.copy(alloc)?,
                accounts: accounts.copy(alloc)?,
                force: *force,
            }),
            Write::Revert {
                id,
                force,
                at_effective_date,
            } => Ok(Write::Revert {
                id: *id,
                force: *force,
                at_effective_date: *at_effective_date,
            }),
            Write::SetMeta { target, metadata } => Ok(Write::SetMeta {
                target: target.copy(alloc)?,
                metadata: metadata.copy(alloc)?,
            }),
            Write::DropMeta { target, name } => Ok(Write::DropMeta {
                target: target.copy(alloc)?,
                name: name.copy(alloc)?,
            }),
        }
    }
}

impl Duplicate for ElementWrite {
    fn copy(&self, alloc: Global) -> Result<ElementWrite, NoMemory> {
        match self {
            ElementWrite::Good(write) => Ok(ElementWrite::Good(write.copy(alloc)?)),
            ElementWrite::Bad(refusal) => Ok(ElementWrite::Bad(refusal.copy(alloc)?)),
        }
    }
}

impl Duplicate for Element {
    fn copy(&self, alloc: Global) -> Result<Element, NoMemory> {
        Ok(Element {
            key: self.key.copy(alloc)?,
            write: self.write.copy(alloc)?,
        })
    }
}

impl Duplicate for Batch {
    fn copy(&self, alloc: Global) -> Result<Batch, NoMemory> {
        match self {
            Batch::Ready(entries) => Ok(Batch::Ready(entries.copy(alloc)?)),
            Batch::Bad { line, cause } => Ok(Batch::Bad {
                line: *line,
                cause: cause.copy(alloc)?,
            }),
        }
    }
}

impl Duplicate for Call {
    fn copy(&self, alloc: Global) -> Result<Call, NoMemory> {
        match self {
            Call::Unreadable(refusal) => Ok(Call::Unreadable(refusal.copy(alloc)?)),
            Call::MakeLedger {
                ledger,
                bucket,
                metadata,
            } => Ok(Call::MakeLedger {
                ledger: ledger.copy(alloc)?,
                bucket: bucket.copy(alloc)?,
                metadata: metadata.copy(alloc)?,
            }),
            Call::Write { ledger, key, write } => Ok(Call::Write {
                ledger: ledger.copy(alloc)?,
                key: key.copy(alloc)?,
                write: write.copy(alloc)?,
            }),
            Call::Bulk {
                ledger,
                elements,
                atomic,
                go_on,
            } => Ok(Call::Bulk {
                ledger: ledger.copy(alloc)?,
                elements: elements.copy(alloc)?,
                atomic: *atomic,
                go_on: *go_on,
            }),
            Call::Import { ledger, batch } => Ok(Call::Import {
                ledger: ledger.copy(alloc)?,
                batch: batch.copy(alloc)?,
            }),
            Call::Ledgers { query } => Ok(Call::Ledgers {
                query: query.copy(alloc)?,
            }),
            Call::Read { ledger, read } => Ok(Call::Read {
                ledger: ledger.copy(alloc)?,
                read: read.copy(alloc)?,
            }),
        }
    }
}
