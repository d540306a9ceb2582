//! What replies show, each with its one text, and the texts of many of them.

ghost use Rattle.std.specs.Prelude.{ℕ, List, ◌++◌, codes, drop, slice_get};
ghost use Rattle.std.specs.List.{flat_map};
ghost use Rattle.std.specs.Option.{option_to_list};
ghost use Rattle.lg_base.specs.Feeding.{Feeds};
ghost use Rattle.lg_containers.specs.CanonicalTexts.{commas, member_text, members_text};
ghost use Rattle.lg_containers.specs.NameTable.{pairs_of};

use lg_base::{Feed, Stop};
use lg_containers::{Canonical, Grammar, Name};
use lg_maps::NameMap;

/// What has one text in a reply.
pub trait Shown {
    /// The text of a value.
    ghost shown: { Self → List ℕ };

    /// Feeds the text.
    fn show<F: Feed>(&self, to: &mut F) -> Result<(), Stop>
        ensures { Feeds F.Feed to.old to.new (shown self.now) result };
}

/// Feeds the texts of the items with commas between them, after one text and before another.
pub fn feed_between<T: Shown, F: Feed>(
    before: &[u8],
    items: &[T],
    after: &[u8],
    to: &mut F,
) -> Result<(), Stop>
    ensures { Feeds F.Feed to.old to.new (before.now ++ (commas T.shown items.now ++ after.now)) result }
{
    to.piece(before)?;
    feed_with_commas(items, to)?;
    to.piece(after)
}

fn feed_with_commas<T: Shown, F: Feed>(items: &[T], to: &mut F) -> Result<(), Stop>
    ensures { Feeds F.Feed to.old to.new (commas T.shown items.now) result }
{
    match items {
        [] => Ok(()),
        [first, rest @ ..] => {
            first.show(to)?;
            feed_after_commas(rest, to)
        }
    }
}

fn feed_after_commas<T: Shown, F: Feed>(items: &[T], to: &mut F) -> Result<(), Stop>
    ensures { Feeds F.Feed to.old to.new (flat_map (λ item. codes "," ++ T.shown item) items.now) result }
{
    for item in items {
        feed_after_comma(item, to)?;
    }
    Ok(())
}

fn feed_after_comma<T: Shown, F: Feed>(item: &T, to: &mut F) -> Result<(), Stop>
    ensures { Feeds F.Feed to.old to.new (codes "," ++ T.shown item.now) result }
{
    to.piece(b",")?;
    item.show(to)
}

/// Feeds a text, and the text of a value after it.
pub fn feed_named<T: Shown, F: Feed>(name: &[u8], value: &T, to: &mut F) -> Result<(), Stop>
    ensures { Feeds F.Feed to.old to.new (name.now ++ T.shown value.now) result }
{
    to.piece(name)?;
    value.show(to)
}

/// A member of an object.
impl<G: Grammar, V: Shown> Shown for (Name<G>, V) {
    ghost shown = { member_text V.shown };

    fn show<F: Feed>(&self, to: &mut F) -> Result<(), Stop> {
        show_member(&self.0, &self.1, to)
    }
}

/// A map's text is an object, in the byte order of the names.
impl<G: Grammar, V: Shown + Drop> Shown for NameMap<G, V> {
    ghost shown = { λ t. members_text V.shown (pairs_of t) };

    fn show<F: Feed>(&self, to: &mut F) -> Result<(), Stop> {
        to.piece(b"{")?;
        show_members(self, to)?;
        to.piece(b"}")
    }
}

// Feeds the texts of the members with commas between them.
fn show_members<G: Grammar, V: Shown, F: Feed>(
    members: &NameMap<G, V>,
    to: &mut F,
) -> Result<(), Stop>
    ensures { Feeds F.Feed to.old to.new (commas (member_text V.shown) (pairs_of members.now)) result }
{
    match members.get(0) {
        Some((name, value)) => {
            show_member(name, value, to)?;
            show_after_first(members, to)
        }
        None => Ok(()),
    }
}

fn show_after_first<G: Grammar, V: Shown, F: Feed>(
    members: &NameMap<G, V>,
    to: &mut F,
) -> Result<(), Stop>
    ensures { Feeds F.Feed to.old to.new (flat_map (λ member. codes "," ++ member_text V.shown member) (drop 1 (pairs_of members.now))) result }
{
    for place in 1..members.len() {
        show_after_comma(members, place, to)?;
    }
    Ok(())
}

// Feeds a comma and the text of the member at the place, and nothing past the end.
fn show_after_comma<G: Grammar, V: Shown, F: Feed>(
    members: &NameMap<G, V>,
    place: usize,
    to: &mut F,
) -> Result<(), Stop>
    ensures { Feeds F.Feed to.old to.new (flat_map (λ member. codes "," ++ member_text V.shown member) (option_to_list (slice_get (pairs_of members.now) place))) result }
{
    match members.get(place) {
        Some((name, value)) => {
            to.piece(b",")?;
            show_member(name, value, to)
        }
        None => Ok(()),
    }
}

fn show_member<G: Grammar, V: Shown, F: Feed>(
    name: &Name<G>,
    value: &V,
    to: &mut F,
) -> Result<(), Stop>
    ensures { Feeds F.Feed to.old to.new (member_text V.shown (name.now, value.now)) result }
{
    name.feed_to(to)?;
    to.piece(b":")?;
    value.show(to)
}
