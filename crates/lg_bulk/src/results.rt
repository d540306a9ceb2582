//! Results of elements.

ghost use Rattle.std.specs.Prelude.{◌≡◌};
ghost use Rattle.lg_views.specs.Bulk.{action_of, bulk_reply as bulk_reply_of, element_action};
ghost use Rattle.lg_views.specs.Replies.{shown_transaction};

use lg_types::{Element, ElementWrite, Write};
use lg_views::{Action, BulkItem, BulkList, BulkView, Content, Reply, TransactionView};

/// The result of an element that is good: the id of its entry, and the transaction that the entry's first reply shows.
pub fn good_item(element: &Element, entry: u64, content: Content) -> BulkItem
    ensures { result ≡ BulkItem.Good (element_action element.now.write) entry (shown_transaction content) }
{
    BulkItem::Good {
        action: action_asked(&element.write),
        log_id: entry,
        transaction: transaction_in(content),
    }
}

fn action_asked(write: &ElementWrite) -> Action
    ensures { result ≡ element_action write.now }
{
    match write {
        ElementWrite::Good(write) => write_action(write),
        ElementWrite::Bad(_) => Action::CreateTransaction,
    }
}

fn write_action(write: &Write) -> Action
    ensures { result ≡ action_of write.now }
{
    match write {
        Write::Create { .. } => Action::CreateTransaction,
        Write::Revert { .. } => Action::RevertTransaction,
        Write::SetMeta { .. } => Action::AddMetadata,
        Write::DropMeta { .. } => Action::DeleteMetadata,
    }
}

fn transaction_in(content: Content) -> Option<TransactionView>
    ensures { result ≡ shown_transaction content }
{
    match content {
        Content::Created(view) => Some(view),
        Content::Reverted(view) => Some(view),
        Content::Empty => None,
        Content::Bulk(_) => None,
        Content::Ledger(_) => None,
        Content::Account(_) => None,
        Content::Transaction(_) => None,
        Content::Page(_) => None,
        Content::Balances(_) => None,
        Content::Stats { .. } => None,
        Content::Export(_) => None,
        Content::Refused(_) => None,
    }
}

/// The reply of a list with these results.
pub fn bulk_reply(results: BulkList) -> Reply
    ensures { result ≡ bulk_reply_of results }
{
    Reply {
        hit: false,
        content: Content::Bulk(BulkView { items: results }),
    }
}
