//! Replies: what a call is answered.

use crate::items::Items;
use crate::views::{AccountView, TransactionView};
use crate::{BalanceList, BulkList};
use lg_base::NoMemory;
use lg_containers::{Duplicate, Text};
use lg_types::{Entries, LedgerInfo, Refusal};
use std::alloc::Global;

/// What an element of a list did.
#[derive(Clone, Copy, PartialEq, Eq)]
pub enum Action {
    CreateTransaction,
    AddMetadata,
    RevertTransaction,
    DeleteMetadata,
}

/// What became of an element of a list.
#[derive(Drop)]
pub enum BulkItem {
    Good {
        action: Action,
        /// The id of its entry.
        log_id: u64,
        /// There for creations and reverts.
        transaction: Option<TransactionView>,
    },
    /// The place of the element, counted from 0, and its refusal.
    Failed {
        element: u64,
        refusal: Refusal,
    },
}

/// What became of a list.
#[derive(Drop)]
pub struct BulkView {
    pub items: BulkList,
}

/// A page of a list.
#[derive(Drop)]
pub struct PageView {
    pub page_size: u8,
    /// Whether items follow.
    pub has_more: bool,
    /// The token of the next page, there exactly where items follow.
    pub next: Option<Text>,
    pub items: Items,
}

/// What a reply holds.
#[derive(Drop)]
pub enum Content {
    Empty,
    Created(TransactionView),
    Reverted(TransactionView),
    Bulk(BulkView),
    Ledger(LedgerInfo),
    Account(AccountView),
    Transaction(TransactionView),
    Page(PageView),
    Balances(BalanceList),
    Stats { accounts: u64, transactions: u64 },
    Export(Entries),
    Refused(Refusal),
}

/// A reply.
#[derive(Drop)]
pub struct Reply {
    /// Whether it is the first reply of a key that was used before.
    pub hit: bool,
    pub content: Content,
}

impl Duplicate for BulkItem {
    fn copy(&self, alloc: Global) -> Result<BulkItem, NoMemory> {
        match self {
            BulkItem::Good {
                action,
                log_id,
                transaction,
            } => Ok(BulkItem::Good {
                action: *action,
                log_id: *log_id,
                transaction: transaction.copy(alloc)?,
            }),
            BulkItem::Failed { element, refusal } => Ok(BulkItem::Failed {
                element: *element,
                refusal: refusal.copy(alloc)?,
            }),
        }
    }
}

impl Duplicate for BulkView {
    fn copy(&self, alloc: Global) -> Result<BulkView, NoMemory> {
        Ok(BulkView {
            items: self.items.copy(alloc)?,
        })
    }
}

impl Duplicate for PageView {
    fn copy(&self, alloc: Global) -> Result<PageView, NoMemory> {
        Ok(PageView {
            page_size: self.page_size,
            has_more: self.has_more,
            next: self.next.copy(alloc)?,
            items: self.items.copy(alloc)?,
        })
    }
}

impl Duplicate for Content {
    fn copy(&self, alloc: Global) -> Result<Content, NoMemory> {
        match self {
            Content::Empty => Ok(Content::Empty),
            Content::Created(view) => Ok(Content::Created(view.copy(alloc)?)),
            Content::Reverted(view) => Ok(Content::Reverted(view.copy(alloc)?)),
            Content::Bulk(view) => Ok(Content::Bulk(view.copy(alloc)?)),
            Content::Ledger(info) => Ok(Content::Ledger(info.copy(alloc)?)),
            Content::Account(view) => Ok(Content::Account(view.copy(alloc)?)),
            Content::Transaction(view) => Ok(Content::Transaction(view.copy(alloc)?)),
            Content::Page(page) => Ok(Content::Page(page.copy(alloc)?)),
            Content::Balances(balances) => Ok(Content::Balances(balances.copy(alloc)?)),
            Content::Stats {
                accounts,
                transactions,
            } => Ok(Content::Stats {
                accounts: *accounts,
                transactions: *transactions,
            }),
            Content::Export(entries) => Ok(Content::Export(entries.copy(alloc)?)),
            Content::Refused(refusal) => Ok(Content::Refused(refusal.copy(alloc)?)),
        }
    }
}

impl Duplicate for Reply {
    fn copy(&self, alloc: Global) -> Result<Reply, NoMemory> {
        Ok(Reply {
            hit: self.hit,
            content: self.content.copy(alloc)?,
        })
    }
}
