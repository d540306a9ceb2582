//! Refusals: why a call is not done.

use lg_base::NoMemory;
use lg_containers::{Address, Asset, Duplicate, Key, LedgerName, Reference, Text};
use std::alloc::Global;

/// What is wrong with a JSON text.
#[derive(Clone, Copy, PartialEq, Eq)]
pub enum FaultKind {
    Syntax,
    NotWhole,
    TooWide,
    TooDeep,
    Repeated,
}

/// What is wrong with a member of a JSON value.
#[derive(Clone, Copy, PartialEq, Eq)]
pub enum Reason {
    /// It isn't there.
    Missing,
    /// It is of another type.
    Kind,
    /// It is of the type, but not of the form.
    Form,
}

/// Why a line of an import is bad.
#[derive(Drop)]
pub enum ImportCause {
    /// It is no JSON text.
    Json,
    /// It isn't an entry's line: the path of the first bad member.
    Member { path: Text },
    /// Its log form isn't that of the first line.
    Form,
    /// Its id isn't one more than that of the entry before.
    Id,
    /// Its date is before that of the entry before.
    Date,
    /// Its hash isn't the line's own.
    Hash,
    /// Its key was used.
    Key,
    /// Its reference was used.
    Reference,
    /// The id of its transaction isn't one more than the last.
    Transaction,
    /// What it reverts isn't earlier, or is reverted.
    Revert,
    /// Its target is a transaction that isn't there.
    Target,
    /// An input or output passes the limit.
    Limit,
    /// The ledger has entries.
    NotEmpty,
}

/// Why a call is refused. Places are in bytes; lines, elements and postings are counted; hashes are SHA-256.
#[derive(Drop)]
pub enum Refusal {
    /// No route has the path.
    NoRoute,
    /// The route doesn't take the method.
    Method,
    /// The line is no JSON text.
    LineJson {
        fault: FaultKind,
        place: u64,
    },
    /// A member of the line can't be read. Of a line that is no object the member is empty.
    LineMember {
        member: Text,
        reason: Reason,
    },
    /// The body is no JSON text.
    BodyJson {
        fault: FaultKind,
        place: u64,
    },
    /// A member of the body, or a name of the path, can't be read.
    Member {
        path: Text,
        reason: Reason,
    },
    /// A parameter of the query can't be read.
    Parameter {
        name: Text,
    },
    /// The token of a page can't be read.
    Token,
    /// The filter can't be read: the path of what is bad in it.
    BadFilter {
        path: Text,
    },
    /// The key was used for another request.
    KeyInput {
        key: Key,
        kept: [u8; 32],
        given: [u8; 32],
    },
    /// The body has a script.
    Script,
    /// The body has no postings.
    NoPostings,
    /// The list has more elements than are allowed.
    BulkSize {
        elements: u64,
    },
    /// No ledger has the name.
    NoLedger {
        name: LedgerName,
    },
    /// A ledger has the name already.
    LedgerThere {
        name: LedgerName,
    },
    /// The transaction isn't there.
    NoTransaction {
        id: u64,
    },
    /// The account isn't there.
    NoAccount {
        address: Address,
    },
    /// The transaction is reverted by another.
    Already {
        id: u64,
        by: u64,
    },
    /// The source of a posting lacks funds: it has the balance and needs the amount.
    Lack {
        posting: u64,
        account: Address,
        asset: Asset,
        balance: i128,
        amount: u128,
    },
    /// After a revert the account's balance would be below zero.
    Below {
        account: Address,
        asset: Asset,
        balance: i128,
    },
    /// With the posting an input or an output passes the limit.
    Limit {
        posting: u64,
    },
    /// A sum of inputs or of outputs of the asset passes the limit.
    SumLimit {
        asset: Asset,
    },
    /// The reference is used by a transaction.
    Used {
        reference: Reference,
        id: u64,
    },
    /// The line of an import is bad; line 0 stands for the whole.
    Import {
        line: u64,
        cause: ImportCause,
    },
    /// What is asked is not built.
    NotBuilt,
    /// Memory is wanting.
    OutOfMemory,
}

impl Duplicate for ImportCause {
    fn copy(&self, alloc: Global) -> Result<ImportCause, NoMemory> {
        match self {
            ImportCause::Json => Ok(ImportCause::Json),
            ImportCause::Member { path } => Ok(ImportCause::Member {
                path: path.copy(alloc)?,
            }),
            ImportCause::Form => Ok(ImportCause::Form),
            ImportCause::Id => Ok(ImportCause::Id),
            ImportCause::Date => Ok(ImportCause::Date),
            ImportCause::Hash => Ok(ImportCause::Hash),
            ImportCause::Key => Ok(ImportCause::Key),
            ImportCause::Reference => Ok(ImportCause::Reference),
            ImportCause::Transaction => Ok(ImportCause::Transaction),
            ImportCause::Revert => Ok(ImportCause::Revert),
            ImportCause::Target => Ok(ImportCause::Target),
            ImportCause::Limit => Ok(ImportCause::Limit),
            ImportCause::NotEmpty => Ok(ImportCause::NotEmpty),
        }
    }
}

impl Duplicate for Refusal {
    fn copy(&self, alloc: Global) -> Result<Refusal, NoMemory> {
        match self {
            Refusal::NoRoute => Ok(Refusal::NoRoute),
            Refusal::Method => Ok(Refusal::Method),
            Refusal::LineJson { fault, place } => Ok(Refusal::LineJson {
                fault: *fault,
                place: *place,
            }),
            Refusal::LineMember { member, reason } => Ok(Refusal::LineMember {
                member: member.copy(alloc)?,
                reason: *reason,
            }),
            Refusal::BodyJson { fault, place } => Ok(Refusal::BodyJson {
                fault: *fault,
                place: *place,
            }),
            Refusal::Member { path, reason } => Ok(Refusal::Member {
                path: path.copy(alloc)?,
                reason: *reason,
            }),
            Refusal::Parameter { name } => Ok(Refusal::Parameter {
                name: name.copy(alloc)?,
            }),
            Refusal::Token => Ok(Refusal::Token),
            Refusal::BadFilter { path } => Ok(Refusal::BadFilter {
                path: path.copy(alloc)?,
            }),
            Refusal::KeyInput { key, kept, given } => Ok(Refusal::KeyInput {
                key: key.copy(alloc)?,
                kept: *kept,
                given: *given,
            }),
            Refusal::Script => Ok(Refusal::Script),
            Refusal::NoPostings => Ok(Refusal::NoPostings),
            Refusal::BulkSize { elements } => Ok(Refusal::BulkSize {
                elements: *elements,
            }),
            Refusal::NoLedger { name } => Ok(Refusal::NoLedger {
                name: name.copy(alloc)?,
            }),
            Refusal::LedgerThere { name } => Ok(Refusal::LedgerThere {
                name: name.copy(alloc)?,
            }),
            Refusal::NoTransaction { id } => Ok(Refusal::NoTransaction { id: *id }),
            Refusal::NoAccount { address } => Ok(Refusal::NoAccount {
                address: address.copy(alloc)?,
            }),
            Refusal::Already { id, by } => Ok(Refusal::Already { id: *id, by: *by }),
            Refusal::Lack {
                posting,
                account,
                asset,
                balance,
                amount,
            } => Ok(Refusal::Lack {
                posting: *posting,
                account: account.copy(alloc)?,
                asset: asset.copy(alloc)?,
                balance: *balance,
                amount: *amount,
            }),
            Refusal::Below {
                account,
                asset,
                balance,
            } => Ok(Refusal::Below {
                account: account.copy(alloc)?,
                asset: asset.copy(alloc)?,
                balance: *balance,
            }),
            Refusal::Limit { posting } => Ok(Refusal::Limit { posting: *posting }),
            Refusal::SumLimit { asset } => Ok(Refusal::SumLimit {
                asset: asset.copy(alloc)?,
            }),
            Refusal::Used { reference, id } => Ok(Refusal::Used {
                reference: reference.copy(alloc)?,
                id: *id,
            }),
            Refusal::Import { line, cause } => Ok(Refusal::Import {
                line: *line,
                cause: cause.copy(alloc)?,
            }),
            Refusal::NotBuilt => Ok(Refusal::NotBuilt),
            Refusal::OutOfMemory => Ok(Refusal::OutOfMemory),
        }
    }
}
