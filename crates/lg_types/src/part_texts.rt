//! Feeding the pieces of a canonical text.

ghost use Rattle.std.specs.Prelude.{◌≡◌, [], ◌∷◌, ◌++◌, decimal};
ghost use Rattle.lg_base.specs.Feeding.{Feeds};
ghost use Rattle.lg_types.specs.Moments.{brought};
ghost use Rattle.lg_types.specs.PartTexts.{part_text, hash_text, date_text};

use crate::parts::Part;
use base64::engine::general_purpose::STANDARD;
use itoa::Buffer;
use lg_base::{Feed, Stop};
use lg_containers::Canonical;
use lg_time::{FIRST_MOMENT, LAST_MOMENT, print_moment};

/// The moment, and outside the range of moments its nearer end.
pub fn bring(moment: &i64) -> i64
    ensures { result ≡ brought moment.now }
{
    if *moment < FIRST_MOMENT {
        FIRST_MOMENT
    } else if LAST_MOMENT < *moment {
        LAST_MOMENT
    } else {
        *moment
    }
}

impl<'a> Canonical for Part<'a> {
    ghost text = { part_text };

    fn feed_to<F: Feed>(&self, to: &mut F) -> Result<(), Stop> {
        match self {
            Part::Plain(bytes) => to.piece(bytes),
            Part::Address(name) => name.feed_to(to),
            Part::Asset(name) => name.feed_to(to),
            Part::LedgerName(name) => name.feed_to(to),
            Part::Bucket(name) => name.feed_to(to),
            Part::Key(name) => name.feed_to(to),
            Part::Reference(name) => name.feed_to(to),
            Part::Text(name) => name.feed_to(to),
            Part::Number(number) => feed_decimal(*number as u128, to),
            Part::Amount(amount) => feed_decimal(amount.value(), to),
            Part::Moment(moment) => feed_date(moment, to),
            Part::Hash(hash) => feed_hash(hash, to),
        }
    }
}

/// Feeds a whole number in decimal.
fn feed_decimal<F: Feed>(number: u128, to: &mut F) -> Result<(), Stop>
    ensures { Feeds F.Feed to.old to.new (decimal number) result }
{
    let mut buffer = Buffer::new();
    to.piece(buffer.format(number).as_bytes())
}

/// Feeds a date as a JSON string.
fn feed_date<F: Feed>(moment: &i64, to: &mut F) -> Result<(), Stop>
    ensures { Feeds F.Feed to.old to.new (date_text moment.now) result }
{
    let mut text = [0; 27];
    let len = print_moment(bring(moment), &mut text);
    feed_between_quotes(&text[..len], to)
}

/// Feeds a hash in base64 as a JSON string.
fn feed_hash<F: Feed>(hash: &[u8; 32], to: &mut F) -> Result<(), Stop>
    ensures { Feeds F.Feed to.old to.new (hash_text hash.now) result }
{
    let mut text = [0; 44];
    match STANDARD.encode_slice(hash, &mut text) {
        Ok(_) => {}
        Err(_) => unreachable!(),
    }
    feed_between_quotes(&text, to)
}

/// Feeds bytes that need no escape as a JSON string.
fn feed_between_quotes<F: Feed>(bytes: &[u8], to: &mut F) -> Result<(), Stop>
    ensures { Feeds F.Feed to.old to.new ((34 ∷ []) ++ (bytes.now ++ (34 ∷ []))) result }
{
    to.piece(b"\"")?;
    to.piece(bytes)?;
    to.piece(b"\"")
}
