//! The texts of many items: one after another, as an array, and as an object.

ghost use Rattle.std.specs.Prelude.{◌++◌, codes};
ghost use Rattle.std.specs.List.{flat_map};
ghost use Rattle.lg_base.specs.Feeding.{Feeds};
ghost use Rattle.lg_base.specs.Texts.{quoted};
ghost use Rattle.lg_containers.specs.CanonicalTexts.{commas, list_text, member_text, members_text};
ghost use Rattle.lg_containers.specs.NameTable.{pairs_of};

use crate::canonical::Canonical;
use crate::grammar::Grammar;
use crate::list::List;
use crate::map::NameMap;
use crate::name::Name;
use lg_base::{Feed, Stop, feed_json_text};

/// Feeds the texts of the items, one after another.
pub fn feed_all<T: Canonical, F: Feed>(items: &[T], to: &mut F) -> Result<(), Stop>
    ensures { Feeds F.Feed to.old to.new (flat_map T.text items.now) result }
{
    for item in items {
        item.feed_to(to)?;
    }
    Ok(())
}

/// Feeds an array of the items' texts: `[`, the texts with commas between them, `]`.
pub fn feed_list<T: Canonical, F: Feed>(items: &[T], to: &mut F) -> Result<(), Stop>
    ensures { Feeds F.Feed to.old to.new (list_text T.text items.now) result }
{
    to.piece(b"[")?;
    feed_with_commas(items, to)?;
    to.piece(b"]")
}

/// Feeds an object of the members: `{`, each name as a string with the text of its value, commas between them, `}`.
pub fn feed_members<G: Grammar, V: Canonical, F: Feed>(
    members: &[(Name<G>, V)],
    to: &mut F,
) -> Result<(), Stop>
    ensures { Feeds F.Feed to.old to.new (members_text V.text members.now) result }
{
    to.piece(b"{")?;
    feed_with_commas(members, to)?;
    to.piece(b"}")
}

fn feed_with_commas<T: Canonical, F: Feed>(items: &[T], to: &mut F) -> Result<(), Stop>
    ensures { Feeds F.Feed to.old to.new (commas T.text items.now) result }
{
    match items {
        [] => Ok(()),
        [first, rest @ ..] => {
            first.feed_to(to)?;
            feed_after_commas(rest, to)
        }
    }
}

fn feed_after_commas<T: Canonical, F: Feed>(items: &[T], to: &mut F) -> Result<(), Stop>
    ensures { Feeds F.Feed to.old to.new (flat_map (λ item. codes "," ++ T.text item) items.now) result }
{
    for item in items {
        feed_after_comma(item, to)?;
    }
    Ok(())
}

fn feed_after_comma<T: Canonical, F: Feed>(item: &T, to: &mut F) -> Result<(), Stop>
    ensures { Feeds F.Feed to.old to.new (codes "," ++ T.text item.now) result }
{
    to.piece(b",")?;
    item.feed_to(to)
}

/// A name's text is its bytes as a string.
impl<G: Grammar> Canonical for Name<G> {
    ghost text = { quoted };

    fn feed_to<F: Feed>(&self, to: &mut F) -> Result<(), Stop> {
        feed_json_text(self.bytes(), to)
    }
}

/// A member of an object.
impl<G: Grammar, V: Canonical> Canonical for (Name<G>, V) {
    ghost text = { member_text V.text };

    fn feed_to<F: Feed>(&self, to: &mut F) -> Result<(), Stop> {
        self.0.feed_to(to)?;
        to.piece(b":")?;
        self.1.feed_to(to)
    }
}

/// A list's text is an array.
impl<T: Canonical> Canonical for List<T> {
    ghost text = { list_text T.text };

    fn feed_to<F: Feed>(&self, to: &mut F) -> Result<(), Stop> {
        feed_list(self.as_slice(), to)
    }
}

/// A map's text is an object, in the byte order of the names.
impl<G: Grammar, V: Canonical + Drop> Canonical for NameMap<G, V> {
    ghost text = { λ t. members_text V.text (pairs_of t) };

    fn feed_to<F: Feed>(&self, to: &mut F) -> Result<(), Stop> {
        feed_members(self.entries(), to)
    }
}
