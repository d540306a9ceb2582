//! Lists that are walked from item to item.

ghost use Rattle.std.specs.Prelude.{◌≡◌};

use lg_base::NoMemory;
use lg_types::{After, Filter};
use std::alloc::Global;

/// A list in the order of its places. It is walked from item to item, and never built.
pub trait Listing {
    /// An item of the list, or what finds it.
    type Item: Drop;

    /// What a page shows of an item.
    type View: Drop;

    ghost use Rattle.std.specs.Prelude.{◌≡◌, Bool, List, Option, IfOk};
    ghost use Rattle.std.specs.Option.{option_copied};
    ghost use Rattle.std.specs.List.{filter};
    ghost use Rattle.lg_types.specs.declared.filters.After.{After};
    ghost use Rattle.lg_types.specs.declared.filters.Filter.{Filter};
    ghost use Rattle.lg_views.specs.PageLaws.{IsInOrder};
    ghost use Rattle.lg_views.specs.Pages.{after_place};
    ghost use Rattle.lg_select.specs.Listing.{first_of, IsTransitive};

    /// All items, in their order.
    ghost items: { Self → List Self.Item };

    /// Whether an item stands after a place.
    ghost is_after: { After → Self.Item → Bool };

    /// The place of an item.
    ghost place: { Self.Item → After };

    /// Whether an item passes a filter.
    ghost passes: { Self → Filter → Self.Item → Bool };

    /// What a page shows of an item.
    ghost shown: { Self → Self.Item → Self.View };

    /// The first item after the place, or of all where none is given.
    fn first(&self, after: Option<&After>) -> Option<Self::Item>
        ensures item { result ≡ first_of (after_place is_after (option_copied after.entry) (items self.now)) }
        ensures order { IsInOrder is_after place (items self.now) };

    /// The item behind the given one.
    fn next(&self, item: &Self::Item) -> Option<Self::Item>
        ensures item { result ≡ first_of (filter (is_after (place item.now)) (items self.now)) }
        ensures order { IsInOrder is_after place (items self.now) };

    /// Whether the item passes the filter.
    fn is_wanted(&self, item: &Self::Item, filter: &Filter) -> bool
        ensures { result ≡ passes self.now filter.now item.now };

    /// What a page shows of the item.
    fn view(&self, alloc: Global, item: &Self::Item) -> Result<Self::View, NoMemory>
        ensures { IfOk result (λ view. view ≡ shown self.now item.now) };

    /// Places go on from item to item.
    ghost transitive: { IsTransitive is_after place };
}
