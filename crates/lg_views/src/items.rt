//! The items of a page.

use crate::{AccountList, LedgerList, TransactionList, VolumeList};
use lg_base::NoMemory;
use lg_containers::Duplicate;
use lg_types::Entries;
use std::alloc::Global;

/// The items of a page.
#[derive(Drop)]
pub enum Items {
    Accounts(AccountList),
    Transactions(TransactionList),
    Entries(Entries),
    Ledgers(LedgerList),
    Volumes(VolumeList),
}

impl Duplicate for Items {
    fn copy(&self, alloc: Global) -> Result<Items, NoMemory> {
        match self {
            Items::Accounts(items) => Ok(Items::Accounts(items.copy(alloc)?)),
            Items::Transactions(items) => Ok(Items::Transactions(items.copy(alloc)?)),
            Items::Entries(items) => Ok(Items::Entries(items.copy(alloc)?)),
            Items::Ledgers(items) => Ok(Items::Ledgers(items.copy(alloc)?)),
            Items::Volumes(items) => Ok(Items::Volumes(items.copy(alloc)?)),
        }
    }
}
