//! A page: the first items of a list after a place that pass a filter.

ghost use Rattle.std.specs.Prelude.{◌≡◌, IfOk, IfSome, length, map, nat_lt, take, true};
ghost use Rattle.std.specs.List.{filter};
ghost use Rattle.lg_types.specs.Lists.{last_of};
ghost use Rattle.lg_views.specs.Pages.{after_place};
ghost use Rattle.lg_views.specs.PageLaws.{IsInOrder};
ghost use Rattle.lg_select.specs.Listing.{IsSuffix, from_item, left_of};

use crate::listing::Listing;
use lg_base::NoMemory;
use lg_containers::List;
use lg_types::{Filter, Query};
use std::alloc::Global;

/// The items of a page.
#[derive(Drop)]
pub struct Gathered<I, V> {
    /// What the page shows of them.
    pub views: List<V>,
    /// The last of them.
    pub last: Option<I>,
    /// Whether items follow that pass the filter.
    pub has_more: bool,
}

/// The first items after the query's place that pass its filter, at most as many as its page holds.
pub fn gather<L: Listing>(
    alloc: Global,
    listing: &L,
    query: &Query,
) -> Result<Gathered<L::Item, L::View>, NoMemory>
    ensures views { IfOk result (λ page. page.views ≡ map (L.shown listing.now) (take query.now.page_size (left_of L.is_after (L.passes listing.now) query.now (L.items listing.now)))) }
    ensures last { IfOk result (λ page. page.last ≡ last_of (take query.now.page_size (left_of L.is_after (L.passes listing.now) query.now (L.items listing.now)))) }
    ensures more { IfOk result (λ page. page.has_more ≡ nat_lt query.now.page_size (length (left_of L.is_after (L.passes listing.now) query.now (L.items listing.now)))) }
{
    let mut views = List::new(alloc);
    let mut last = None;
    let mut here = find_wanted(listing, &query.filter, listing.first(query.after.as_ref()));
    for _taken in 0..query.page_size {
        match here {
            None => {
                return Ok(Gathered {
                    views,
                    last,
                    has_more: false,
                });
            }
            Some(item) => {
                views.push(listing.view(alloc, &item)?)?;
                here = find_wanted(listing, &query.filter, listing.next(&item));
                last = Some(item);
            }
        }
    }
    Ok(Gathered {
        views,
        last,
        has_more: here.is_some(),
    })
}

// The first item from the given one on that passes the filter.
fn find_wanted<L: Listing>(listing: &L, wanted: &Filter, from: Option<L::Item>) -> Option<L::Item>
    requires order { IsInOrder L.is_after L.place (L.items listing.now) }
    requires from { IsSuffix (L.items listing.now) (from_item L.is_after L.place (L.items listing.now) from) }
    ensures suffix { IsSuffix (L.items listing.now) (from_item L.is_after L.place (L.items listing.now) result) }
    ensures same { filter (L.passes listing.now wanted.now) (from_item L.is_after L.place (L.items listing.now) result) ≡ filter (L.passes listing.now wanted.now) (from_item L.is_after L.place (L.items listing.now) from) }
    ensures passes { IfSome result (λ item. L.passes listing.now wanted.now item ≡ true) }
{
    let mut here = from;
    'finding: while let Some(item) = here {
        if listing.is_wanted(&item, wanted) {
            return Some(item);
        }
        here = listing.next(&item);
    }
    None
}
