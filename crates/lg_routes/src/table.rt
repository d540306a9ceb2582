//! The table of the routes.

/// What a request asks for.
#[derive(Clone, Copy)]
pub enum Row {
    ListLedgers,
    MakeLedger,
    ShowLedger,
    ListAccounts,
    ShowAccount,
    SetAccountMetadata,
    DropAccountMetadata,
    ListTransactions,
    CreateTransaction,
    ShowTransaction,
    SetTransactionMetadata,
    DropTransactionMetadata,
    RevertTransaction,
    RunBulk,
    ListLogs,
    ExportLogs,
    ImportLogs,
    ListVolumes,
    AggregateBalances,
    ShowStats,
}

/// A segment of a route's path.
#[derive(Clone, Copy)]
pub enum Pattern {
    /// This word.
    Word(&'static [u8]),
    /// A name.
    Named,
}

/// A method, the path that it is used on, and what is asked for there.
#[derive(Clone, Copy)]
pub struct Route {
    pub method: &'static [u8],
    pub path: &'static [Pattern],
    pub row: Row,
}

const V2: Pattern = Pattern::Word(b"v2");

const ACCOUNTS: Pattern = Pattern::Word(b"accounts");

const TRANSACTIONS: Pattern = Pattern::Word(b"transactions");

const METADATA: Pattern = Pattern::Word(b"metadata");

const LOGS: Pattern = Pattern::Word(b"logs");

/// The routes.
pub const ROUTES: [Route; 20] = [
    Route {
        method: b"GET",
        path: &[V2],
        row: Row::ListLedgers,
    },
    Route {
        method: b"POST",
        path: &[V2, Pattern::Named],
        row: Row::MakeLedger,
    },
    Route {
        method: b"GET",
        path: &[V2, Pattern::Named],
        row: Row::ShowLedger,
    },
    Route {
        method: b"GET",
        path: &[V2, Pattern::Named, ACCOUNTS],
        row: Row::ListAccounts,
    },
    Route {
        method: b"GET",
        path: &[V2, Pattern::Named, ACCOUNTS, Pattern::Named],
        row: Row::ShowAccount,
    },
    Route {
        method: b"POST",
        path: &[V2, Pattern::Named, ACCOUNTS, Pattern::Named, METADATA],
        row: Row::SetAccountMetadata,
    },
    Route {
        method: b"DELETE",
        path: &[
            V2,
            Pattern::Named,
            ACCOUNTS,
            Pattern::Named,
            METADATA,
            Pattern::Named,
        ],
        row: Row::DropAccountMetadata,
    },
    Route {
        method: b"GET",
        path: &[V2, Pattern::Named, TRANSACTIONS],
        row: Row::ListTransactions,
    },
    Route {
        method: b"POST",
        path: &[V2, Pattern::Named, TRANSACTIONS],
        row: Row::CreateTransaction,
    },
    Route {
        method: b"GET",
        path: &[V2, Pattern::Named, TRANSACTIONS, Pattern::Named],
        row: Row::ShowTransaction,
    },
    Route {
        method: b"POST",
        path: &[V2, Pattern::Named, TRANSACTIONS, Pattern::Named, METADATA],
        row: Row::SetTransactionMetadata,
    },
    Route {
        method: b"DELETE",
        path: &[
            V2,
            Pattern::Named,
            TRANSACTIONS,
            Pattern::Named,
            METADATA,
            Pattern::Named,
        ],
        row: Row::DropTransactionMetadata,
    },
    Route {
        method: b"POST",
        path: &[
            V2,
            Pattern::Named,
            TRANSACTIONS,
            Pattern::Named,
            Pattern::Word(b"revert"),
        ],
        row: Row::RevertTransaction,
    },
    Route {
        method: b"POST",
        path: &[V2, Pattern::Named, Pattern::Word(b"_bulk")],
        row: Row::RunBulk,
    },
    Route {
        method: b"GET",
        path: &[V2, Pattern::Named, LOGS],
        row: Row::ListLogs,
    },
    Route {
        method: b"POST",
        path: &[V2, Pattern::Named, LOGS, Pattern::Word(b"export")],
        row: Row::ExportLogs,
    },
    Route {
        method: b"POST",
        path: &[V2, Pattern::Named, LOGS, Pattern::Word(b"import")],
        row: Row::ImportLogs,
    },
    Route {
        method: b"GET",
        path: &[V2, Pattern::Named, Pattern::Word(b"volumes")],
        row: Row::ListVolumes,
    },
    Route {
        method: b"GET",
        path: &[
            V2,
            Pattern::Named,
            Pattern::Word(b"aggregate"),
            Pattern::Word(b"balances"),
        ],
        row: Row::AggregateBalances,
    },
    Route {
        method: b"GET",
        path: &[V2, Pattern::Named, Pattern::Word(b"stats")],
        row: Row::ShowStats,
    },
];
