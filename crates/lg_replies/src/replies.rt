//! The status and the body of a reply.

ghost use Rattle.std.specs.Prelude.{◌≡◌};
ghost use Rattle.std.specs.List.{list_any};
ghost use Rattle.lg_base.specs.Feeding.{Feeds};
ghost use Rattle.lg_replies.specs.ReplyParts.{data_part_text};
ghost use Rattle.lg_views.specs.ReplyTexts.{balances_text, stats_text, data_text, body_text, is_failed as is_failed_item, status_of as status_of_content};

use crate::codes::refusal_status;
use crate::exports::feed_export;
use crate::pages::feed_page;
use crate::refusals::feed_refusal;
use crate::reply_parts::DataPart;
use crate::shown::{Shown, feed_between};
use lg_base::{Feed, Stop};
use lg_containers::{Canonical, feed_all};
use lg_types::Part;
use lg_views::{BulkItem, BulkView, Content, Reply};

fn is_failed(item: &BulkItem) -> bool
    ensures { result ≡ is_failed_item item.now }
{
    match item {
        BulkItem::Good { .. } => false,
        BulkItem::Failed { .. } => true,
    }
}

/// Whether some element of a list failed.
fn has_failed(view: &BulkView) -> bool
    ensures { result ≡ list_any is_failed_item view.now.items }
{
    for item in view.items.as_slice() {
        if is_failed(item) {
            return true;
        }
    }
    false
}

fn bulk_status(view: &BulkView) -> u16
    ensures { result ≡ status_of_content (Content.Bulk view.now) }
{
    if has_failed(view) { 400 } else { 200 }
}

/// The status of a reply (RFC 9110, section 15).
pub fn status_of(reply: &Reply) -> u16
    ensures { result ≡ status_of_content reply.now.content }
{
    match &reply.content {
        Content::Empty => 204,
        Content::Created(_) => 200,
        Content::Reverted(_) => 201,
        Content::Bulk(view) => bulk_status(view),
        Content::Ledger(_) => 200,
        Content::Account(_) => 200,
        Content::Transaction(_) => 200,
        Content::Page(_) => 200,
        Content::Balances(_) => 200,
        Content::Stats { .. } => 200,
        Content::Export(_) => 200,
        Content::Refused(refusal) => refusal_status(refusal),
    }
}

impl<'a> Shown for DataPart<'a> {
    ghost shown = { data_part_text };

    fn show<F: Feed>(&self, to: &mut F) -> Result<(), Stop> {
        match self {
            DataPart::Transaction(view) => view.show(to),
            DataPart::Account(view) => view.show(to),
            DataPart::Ledger(info) => info.feed_to(to),
            DataPart::Bulk(view) => feed_between(b"[", view.items.as_slice(), b"]", to),
            DataPart::Balances(items) => feed_between(b"{", items.as_slice(), b"}", to),
            DataPart::Stats(accounts, transactions) => feed_stats(*accounts, *transactions, to),
        }
    }
}

fn feed_stats<F: Feed>(accounts: u64, transactions: u64, to: &mut F) -> Result<(), Stop>
    ensures { Feeds F.Feed to.old to.new (stats_text accounts transactions) result }
{
    feed_all(
        &[
            Part::Plain(b"{\"accounts\":"),
            Part::Number(accounts),
            Part::Plain(b",\"transactions\":"),
            Part::Number(transactions),
            Part::Plain(b"}"),
        ],
        to,
    )
}

/// Feeds an object whose one member is `data`.
fn feed_data<F: Feed>(part: &DataPart<'_>, to: &mut F) -> Result<(), Stop>
    ensures { Feeds F.Feed to.old to.new (data_text (data_part_text part.now)) result }
{
    to.piece(b"{\"data\":")?;
    part.show(to)?;
    to.piece(b"}")
}

/// Feeds the body of a reply as one JSON text: `null` where the reply has none, and for an export a string of its lines.
pub fn reply_text<F: Feed>(reply: &Reply, to: &mut F) -> Result<(), Stop>
    ensures { Feeds F.Feed to.old to.new (body_text reply.now.content) result }
{
    match &reply.content {
        Content::Empty => to.piece(b"null"),
        Content::Created(view) => feed_data(&DataPart::Transaction(view), to),
        Content::Reverted(view) => feed_data(&DataPart::Transaction(view), to),
        Content::Bulk(view) => feed_data(&DataPart::Bulk(view), to),
        Content::Ledger(info) => feed_data(&DataPart::Ledger(info), to),
        Content::Account(view) => feed_data(&DataPart::Account(view), to),
        Content::Transaction(view) => feed_data(&DataPart::Transaction(view), to),
        Content::Page(page) => feed_page(page, to),
        Content::Balances(balances) => feed_data(&DataPart::Balances(balances), to),
        Content::Stats {
            accounts,
            transactions,
        } => feed_data(&DataPart::Stats(*accounts, *transactions), to),
        Content::Export(entries) => feed_export(entries.as_slice(), to),
        Content::Refused(refusal) => feed_refusal(refusal, to),
    }
}
