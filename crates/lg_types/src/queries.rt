//! What is read of a ledger.

use crate::filters::{After, Filter};
use lg_base::NoMemory;
use lg_containers::{Address, Duplicate};
use std::alloc::Global;

/// Which volumes are shown.
#[derive(Clone, Copy, PartialEq, Eq)]
pub struct Expand {
    /// Those by insertion date.
    pub volumes: bool,
    /// Those by effective date.
    pub effective: bool,
}

/// Which moves a list of volumes counts, and how it groups accounts. Nothing, false and 0 for every other list.
#[derive(Clone, Copy, PartialEq, Eq)]
pub struct Span {
    /// The earliest date, in microseconds since 1970-01-01T00:00:00Z.
    pub from: Option<i64>,
    /// The latest date, in microseconds since 1970-01-01T00:00:00Z.
    pub to: Option<i64>,
    /// Whether the dates are those of insertion; else they are effective dates.
    pub by_insertion: bool,
    /// To how many segments addresses are cut; 0 for whole addresses.
    pub group: u32,
}

/// A page of a list.
#[derive(Drop)]
pub struct Query {
    pub filter: Filter,
    /// The date at which the list is looked at, in microseconds since 1970-01-01T00:00:00Z.
    pub pit: Option<i64>,
    /// How many items the page has at most: 1 to 100.
    pub page_size: u8,
    pub after: Option<After>,
    pub expand: Expand,
    pub span: Span,
}

/// A reading of one ledger.
#[derive(Drop)]
pub enum Read {
    Ledger,
    Account {
        address: Address,
        pit: Option<i64>,
        expand: Expand,
    },
    Transaction {
        id: u64,
        expand: Expand,
        pit: Option<i64>,
    },
    Accounts {
        query: Query,
    },
    Transactions {
        query: Query,
    },
    Logs {
        query: Query,
    },
    Volumes {
        query: Query,
    },
    /// The balance of each asset over all accounts that pass.
    Aggregate {
        filter: Filter,
        pit: Option<i64>,
        by_insertion: bool,
    },
    /// How many accounts and transactions there are.
    Stats,
    /// All entries.
    Export,
}

impl Duplicate for Expand {
    fn copy(&self, _alloc: Global) -> Result<Expand, NoMemory> {
        Ok(*self)
    }
}

impl Duplicate for Span {
    fn copy(&self, _alloc: Global) -> Result<Span, NoMemory> {
        Ok(*self)
    }
}

impl Duplicate for Query {
    fn copy(&self, alloc: Global) -> Result<Query, NoMemory> {
        Ok(Query {
            filter: self.filter.copy(alloc)?,
            pit: self.pit.copy(alloc)?,
            page_size: self.page_size,
            after: self.after.copy(alloc)?,
            expand: self.expand,
            span: self.span,
        })
    }
}

impl Duplicate for Read {
    fn copy(&self, alloc: Global) -> Result<Read, NoMemory> {
        match self {
            Read::Ledger => Ok(Read::Ledger),
            Read::Account {
                address,
                pit,
                expand,
            } => Ok(Read::Account {
                address: address.copy(alloc)?,
                pit: pit.copy(alloc)?,
                expand: *expand,
            }),
            Read::Transaction { id, expand, pit } => Ok(Read::Transaction {
                id: *id,
                expand: *expand,
                pit: pit.copy(alloc)?,
            }),
            Read::Accounts { query } => Ok(Read::Accounts {
                query: query.copy(alloc)?,
            }),
            Read::Transactions { query } => Ok(Read::Transactions {
                query: query.copy(alloc)?,
            }),
            Read::Logs { query } => Ok(Read::Logs {
                query: query.copy(alloc)?,
            }),
            Read::Volumes { query } => Ok(Read::Volumes {
                query: query.copy(alloc)?,
            }),
            Read::Aggregate {
                filter,
                pit,
                by_insertion,
            } => Ok(Read::Aggregate {
                filter: filter.copy(alloc)?,
                pit: pit.copy(alloc)?,
                by_insertion: *by_insertion,
            }),
            Read::Stats => Ok(Read::Stats),
            Read::Export => Ok(Read::Export),
        }
    }
}
