//! The hashes of entries.

ghost use Rattle.std.specs.Prelude.{◌≡◌};
ghost use Rattle.lg_base.specs.Feeding.{Feeds};
ghost use Rattle.lg_types.specs.Chain.{line_hash, sealed_text, before_text, input_hash as hash_of_input};
ghost use Rattle.lg_types.specs.declared.forms.EntryForm.TheVariants.{Chained, FirstChained};

use crate::hash_feed::HashFeed;
use lg_base::{Feed, Stop};
use lg_containers::feed_all;
use lg_types::{Entry, EntryForm, Part, Write, call_text, entry_text};

/// The hash of an entry after the hash of the entry before it, or as a ledger's first, by the text of log form 2. The
/// hash that the entry has isn't looked at.
pub fn seal(previous: Option<[u8; 32]>, entry: &Entry) -> [u8; 32]
    ensures { result ≡ line_hash Chained previous entry.now }
{
    hash_of(EntryForm::Chained, previous, entry)
}

/// The same by the text of log form 1.
pub fn seal_first(previous: Option<[u8; 32]>, entry: &Entry) -> [u8; 32]
    ensures { result ≡ line_hash FirstChained previous entry.now }
{
    hash_of(EntryForm::FirstChained, previous, entry)
}

/// The hash of what a write asks: SHA-256 of its canonical text, which names no ledger and no key.
pub fn input_hash(write: &Write) -> [u8; 32]
    ensures { result ≡ hash_of_input write.now }
{
    let mut feed = HashFeed::new();
    match call_text(write, &mut feed) {
        Ok(()) => feed.digest(),
        Err(Stop) => unreachable!(),
    }
}

fn hash_of(form: EntryForm, previous: Option<[u8; 32]>, entry: &Entry) -> [u8; 32]
    ensures { result ≡ line_hash form previous entry.now }
{
    let mut feed = HashFeed::new();
    match feed_sealed(form, previous, entry, &mut feed) {
        Ok(()) => feed.digest(),
        Err(Stop) => unreachable!(),
    }
}

/// Feeds what is hashed of an entry.
fn feed_sealed<F: Feed>(
    form: EntryForm,
    previous: Option<[u8; 32]>,
    entry: &Entry,
    to: &mut F,
) -> Result<(), Stop>
    ensures { Feeds F.Feed to.old to.new (sealed_text form previous entry.now) result }
{
    feed_before(previous, to)?;
    entry_text(entry, form, to)?;
    to.piece(b"\n")
}

/// Feeds the hash of the entry before as a string and a newline, and nothing where there is none.
fn feed_before<F: Feed>(previous: Option<[u8; 32]>, to: &mut F) -> Result<(), Stop>
    ensures { Feeds F.Feed to.old to.new (before_text previous) result }
{
    match previous {
        None => to.piece(b""),
        Some(hash) => feed_all(&[Part::Hash(&hash), Part::Plain(b"\n")], to),
    }
}
