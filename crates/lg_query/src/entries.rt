//! Pages of a log.

ghost use Rattle.std.specs.Prelude.{◌≡◌, if◌then◌else◌, None, IfOk};
ghost use Rattle.std.specs.Option.{option_map};
ghost use Rattle.lg_types.specs.Log.{log};
ghost use Rattle.lg_views.specs.Reads.{entries_page as page_of_entries, entry_place};

use crate::listed_entries::{EntryListing, ListedEntry};
use crate::pages::next_token;
use lg_base::NoMemory;
use lg_book::Book;
use lg_containers::LedgerName;
use lg_select::gather;
use lg_types::{After, ListKind, Query};
use lg_views::{Content, Items, PageView};
use std::alloc::Global;

/// The page of a ledger's log that the query asks for.
pub fn entries_page(
    alloc: Global,
    book: &Book,
    ledger: &LedgerName,
    query: &Query,
) -> Result<Content, NoMemory>
    ensures { IfOk result (λ content. content ≡ page_of_entries (log book.now.events ledger.now) query.now) }
{
    let listing = EntryListing::dated(book, ledger, &query.pit);
    let page = gather(alloc, &listing, query)?;
    let place = next_place(page.has_more, &page.last);
    let next = next_token(alloc, ListKind::Logs, query, place.as_ref())?;
    Ok(Content::Page(PageView {
        page_size: query.page_size,
        has_more: page.has_more,
        next,
        items: Items::Entries(page.views),
    }))
}

// The place of the last entry of a page, where more follow.
fn next_place<'a>(has_more: bool, last: &Option<ListedEntry<'a>>) -> Option<After>
    ensures { result ≡ (if has_more then option_map entry_place last.now else None) }
{
    if !has_more {
        return None;
    }
    match last {
        Some(last) => Some(After::Place(last.id())),
        None => None,
    }
}
