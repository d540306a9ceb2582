//! Copies of the records.

use crate::records::{Entry, EntryBody, Event, KeyMark, LedgerInfo, Posting, Target, Transaction};
use lg_base::NoMemory;
use lg_containers::Duplicate;
use std::alloc::Global;

impl Duplicate for Posting {
    fn copy(&self, alloc: Global) -> Result<Posting, NoMemory> {
        Ok(Posting {
            source: self.source.copy(alloc)?,
            destination: self.destination.copy(alloc)?,
            asset: self.asset.copy(alloc)?,
            amount: self.amount,
        })
    }
}

impl Duplicate for Transaction {
    fn copy(&self, alloc: Global) -> Result<Transaction, NoMemory> {
        Ok(Transaction {
            id: self.id,
            postings: self.postings.copy(alloc)?,
            metadata: self.metadata.copy(alloc)?,
            reference: self.reference.copy(alloc)?,
            timestamp: self.timestamp,
        })
    }
}

impl Duplicate for Target {
    fn copy(&self, alloc: Global) -> Result<Target, NoMemory> {
        match self {
            Target::Account(address) => Ok(Target::Account(address.copy(alloc)?)),
            Target::Transaction(id) => Ok(Target::Transaction(*id)),
        }
    }
}

impl Duplicate for EntryBody {
    fn copy(&self, alloc: Global) -> Result<EntryBody, NoMemory> {
        match self {
            EntryBody::NewTransaction {
                transaction,
                accounts,
            } => Ok(EntryBody::NewTransaction {
                transaction: transaction.copy(alloc)?,
                accounts: accounts.copy(alloc)?,
            }),
            EntryBody::SetMetadata { target, metadata } => Ok(EntryBody::SetMetadata {
                target: target.copy(alloc)?,
                metadata: metadata.copy(alloc)?,
            }),
            EntryBody::Reverted {
                reverted,
                transaction,
            } => Ok(EntryBody::Reverted {
                reverted: *reverted,
                transaction: transaction.copy(alloc)?,
            }),
            EntryBody::DeleteMetadata { target, name } => Ok(EntryBody::DeleteMetadata {
                target: target.copy(alloc)?,
                name: name.copy(alloc)?,
            }),
        }
    }
}

impl Duplicate for KeyMark {
    fn copy(&self, alloc: Global) -> Result<KeyMark, NoMemory> {
        Ok(KeyMark {
            key: self.key.copy(alloc)?,
            input_hash: self.input_hash,
        })
    }
}

impl Duplicate for Entry {
    fn copy(&self, alloc: Global) -> Result<Entry, NoMemory> {
        Ok(Entry {
            id: self.id,
            date: self.date,
            mark: self.mark.copy(alloc)?,
            body: self.body.copy(alloc)?,
            hash: self.hash,
        })
    }
}

impl Duplicate for LedgerInfo {
    fn copy(&self, alloc: Global) -> Result<LedgerInfo, NoMemory> {
        Ok(LedgerInfo {
            name: self.name.copy(alloc)?,
            bucket: self.bucket.copy(alloc)?,
            metadata: self.metadata.copy(alloc)?,
            added: self.added,
        })
    }
}

impl Duplicate for Event {
    fn copy(&self, alloc: Global) -> Result<Event, NoMemory> {
        match self {
            Event::Made(info) => Ok(Event::Made(info.copy(alloc)?)),
            Event::Logged { ledger, entry } => Ok(Event::Logged {
                ledger: ledger.copy(alloc)?,
                entry: entry.copy(alloc)?,
            }),
        }
    }
}
