//! Feeding pages, and the results of lists of writes.

ghost use Rattle.std.specs.Prelude.{◌≡◌};
ghost use Rattle.lg_base.specs.Feeding.{Feeds};
ghost use Rattle.lg_types.specs.EntryTexts.{ledger_text};
ghost use Rattle.lg_types.specs.PartTexts.{optional_text};
ghost use Rattle.lg_replies.specs.ReplyParts.{reply_part_text};
ghost use Rattle.lg_views.specs.ReplyTexts.{line_text, items_text, next_text, action_text as text_of_action, data_member, bulk_item_text, page_text};

use crate::refusal_parts::RefusalPart;
use crate::reply_parts::ReplyPart;
use crate::shown::{Shown, feed_between};
use crate::views::feed_truth;
use lg_base::{Feed, Stop, feed_json_text};
use lg_containers::{Canonical, feed_all};
use lg_types::{Entry, EntryForm, LedgerInfo, Part, Refusal, Text, entry_text};
use lg_views::{Action, BulkItem, Items, PageView, TransactionView};

impl Shown for Entry {
    ghost shown = { line_text };

    fn show<F: Feed>(&self, to: &mut F) -> Result<(), Stop> {
        entry_text(self, EntryForm::Line, to)
    }
}

impl Shown for LedgerInfo {
    ghost shown = { ledger_text };

    fn show<F: Feed>(&self, to: &mut F) -> Result<(), Stop> {
        self.feed_to(to)
    }
}

impl<'a> Canonical for ReplyPart<'a> {
    ghost text = { reply_part_text };

    fn feed_to<F: Feed>(&self, to: &mut F) -> Result<(), Stop> {
        match self {
            ReplyPart::Base(part) => part.feed_to(to),
            ReplyPart::Truth(truth) => feed_truth(*truth, to),
            ReplyPart::Next(token) => feed_next(token, to),
            ReplyPart::Items(items) => feed_items(items, to),
            ReplyPart::Action(action) => feed_json_text(action_text(*action), to),
            ReplyPart::Transaction(view) => feed_data_member(view, to),
        }
    }
}

/// Feeds the member with the token of the next page, and nothing where there is none.
fn feed_next<F: Feed>(token: &Option<Text>, to: &mut F) -> Result<(), Stop>
    ensures { Feeds F.Feed to.old to.new (optional_text next_text token.now) result }
{
    match token {
        None => to.piece(b""),
        Some(token) => feed_all(&[Part::Plain(b",\"next\":"), Part::Text(token)], to),
    }
}

/// Feeds the items of a page as an array.
fn feed_items<F: Feed>(items: &Items, to: &mut F) -> Result<(), Stop>
    ensures { Feeds F.Feed to.old to.new (items_text items.now) result }
{
    match items {
        Items::Accounts(items) => feed_between(b"[", items.as_slice(), b"]", to),
        Items::Transactions(items) => feed_between(b"[", items.as_slice(), b"]", to),
        Items::Entries(items) => feed_between(b"[", items.as_slice(), b"]", to),
        Items::Ledgers(items) => feed_between(b"[", items.as_slice(), b"]", to),
        Items::Volumes(items) => feed_between(b"[", items.as_slice(), b"]", to),
    }
}

fn action_text(action: Action) -> &'static [u8]
    ensures { result.now ≡ text_of_action action }
{
    match action {
        Action::CreateTransaction => b"CREATE_TRANSACTION",
        Action::AddMetadata => b"ADD_METADATA",
        Action::RevertTransaction => b"REVERT_TRANSACTION",
        Action::DeleteMetadata => b"DELETE_METADATA",
    }
}

/// Feeds the member with the transaction of an element, and nothing where there is none.
fn feed_data_member<F: Feed>(view: &Option<TransactionView>, to: &mut F) -> Result<(), Stop>
    ensures { Feeds F.Feed to.old to.new (optional_text data_member view.now) result }
{
    match view {
        None => to.piece(b""),
        Some(view) => feed_member_of(view, to),
    }
}

fn feed_member_of<F: Feed>(view: &TransactionView, to: &mut F) -> Result<(), Stop>
    ensures { Feeds F.Feed to.old to.new (data_member view.now) result }
{
    to.piece(b",\"data\":")?;
    view.show(to)
}

impl Shown for BulkItem {
    ghost shown = { bulk_item_text };

    fn show<F: Feed>(&self, to: &mut F) -> Result<(), Stop> {
        match self {
            BulkItem::Good {
                action,
                log_id,
                transaction,
            } => feed_all(
                &[
                    ReplyPart::Base(Part::Plain(b"{\"responseType\":")),
                    ReplyPart::Action(*action),
                    ReplyPart::Base(Part::Plain(b",\"logID\":")),
                    ReplyPart::Base(Part::Number(*log_id)),
                    ReplyPart::Transaction(transaction),
                    ReplyPart::Base(Part::Plain(b"}")),
                ],
                to,
            ),
            BulkItem::Failed { element, refusal } => feed_failed(*element, refusal, to),
        }
    }
}

fn feed_failed<F: Feed>(element: u64, refusal: &Refusal, to: &mut F) -> Result<(), Stop>
    ensures { Feeds F.Feed to.old to.new (bulk_item_text (BulkItem.Failed element refusal.now)) result }
{
    feed_all(
        &[
            RefusalPart::Plain(b"{\"responseType\":\"ERROR\",\"errorCode\":"),
            RefusalPart::Code(refusal),
            RefusalPart::Plain(b",\"errorDescription\":"),
            RefusalPart::Description(element, refusal),
            RefusalPart::Plain(b"}"),
        ],
        to,
    )
}

/// Feeds a page.
pub fn feed_page<F: Feed>(page: &PageView, to: &mut F) -> Result<(), Stop>
    ensures { Feeds F.Feed to.old to.new (page_text page.now) result }
{
    feed_all(
        &[
            ReplyPart::Base(Part::Plain(b"{\"cursor\":{\"pageSize\":")),
            ReplyPart::Base(Part::Number(page.page_size as u64)),
            ReplyPart::Base(Part::Plain(b",\"hasMore\":")),
            ReplyPart::Truth(page.has_more),
            ReplyPart::Next(&page.next),
            ReplyPart::Base(Part::Plain(b",\"data\":")),
            ReplyPart::Items(&page.items),
            ReplyPart::Base(Part::Plain(b"}}")),
        ],
        to,
    )
}
