//! The pieces of the text of a page, of a list's results and of a reply.

use lg_types::{LedgerInfo, Part, Text};
use lg_views::{AccountView, Action, BalanceList, BulkView, Items, TransactionView};

/// A piece of the text of a page or of an element's result.
#[derive(Clone, Copy)]
pub enum ReplyPart<'a> {
    Base(Part<'a>),
    /// `true` or `false`.
    Truth(bool),
    /// The member with the token of the next page, or nothing.
    Next(&'a Option<Text>),
    /// The items of a page.
    Items(&'a Items),
    /// What an element did, as a JSON string.
    Action(Action),
    /// The member with the transaction of an element, or nothing.
    Transaction(&'a Option<TransactionView>),
}

/// What stands under `data` in a reply.
#[derive(Clone, Copy)]
pub enum DataPart<'a> {
    Transaction(&'a TransactionView),
    Account(&'a AccountView),
    Ledger(&'a LedgerInfo),
    Bulk(&'a BulkView),
    Balances(&'a BalanceList),
    /// How many accounts and how many transactions there are.
    Stats(u64, u64),
}
