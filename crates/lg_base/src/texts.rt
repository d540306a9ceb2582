//! Numbers and JSON strings over any feed.

ghost use Rattle.std.specs.Prelude.{◌≡◌, ◌<◌, ◌++◌};
ghost use Rattle.std.specs.List.{flat_map};
ghost use Rattle.std.specs.Fmt.{signed_decimal};
ghost use Rattle.lg_base.specs.Feeding.{Feeds};
ghost use Rattle.lg_base.specs.Texts.{quoted, escape, escaped, is_plain as is_plain_byte, hex_digit as hex_digit_of};

use crate::feed::{Feed, Stop};
use itoa::Buffer;

/// Feeds a whole number in decimal: a minus where it is below 0, and no leading zeros.
pub fn feed_number<F: Feed>(value: i128, to: &mut F) -> Result<(), Stop>
    ensures { Feeds F.Feed to.old to.new (signed_decimal value) result }
{
    let mut buffer = Buffer::new();
    to.piece(buffer.format(value).as_bytes())
}

/// Feeds a text as a JSON string (RFC 8259, section 7): the quote and the backslash take a backslash, control
/// characters their short form or `\u00` and two hexadecimal digits, and all else stands as it is.
pub fn feed_json_text<F: Feed>(text: &[u8], to: &mut F) -> Result<(), Stop>
    ensures { Feeds F.Feed to.old to.new (quoted text.now) result }
{
    to.piece(b"\"")?;
    feed_escaped(text, to)?;
    to.piece(b"\"")
}

/// Feeds a text as it stands between the quotes of a JSON string, so that a string may be fed in parts.
///
/// Each run of plain bytes is one piece, and each other byte is fed by its escape.
pub fn feed_escaped<F: Feed>(text: &[u8], to: &mut F) -> Result<(), Stop>
    ensures { Feeds F.Feed to.old to.new (flat_map escaped text.now) result }
{
    let mut start = 0;
    'bytes: for (place, byte) in text.iter().enumerate() {
        if !is_plain(*byte) {
            feed_run(&text[start..place], *byte, to)?;
            start = place + 1;
        }
    }
    to.piece(&text[start..])
}

/// Feeds a run of plain bytes, and the escape of the byte after it.
fn feed_run<F: Feed>(run: &[u8], byte: u8, to: &mut F) -> Result<(), Stop>
    ensures { Feeds F.Feed to.old to.new (run.now ++ escape byte) result }
{
    to.piece(run)?;
    feed_escape(byte, to)
}

fn is_plain(byte: u8) -> bool
    ensures { result ≡ is_plain_byte byte }
{
    byte != b'"' && byte != b'\\' && !(byte < 32)
}

fn feed_escape<F: Feed>(byte: u8, to: &mut F) -> Result<(), Stop>
    ensures { Feeds F.Feed to.old to.new (escape byte) result }
{
    match byte {
        b'"' => to.piece(b"\\\""),
        b'\\' => to.piece(b"\\\\"),
        8 => to.piece(b"\\b"),
        9 => to.piece(b"\\t"),
        10 => to.piece(b"\\n"),
        12 => to.piece(b"\\f"),
        13 => to.piece(b"\\r"),
        _ => to.piece(&[
            b'\\',
            b'u',
            b'0',
            b'0',
            hex_digit(byte / 16),
            hex_digit(byte % 16),
        ]),
    }
}

fn hex_digit(value: u8) -> u8
    requires { value < 16 }
    ensures { result ≡ hex_digit_of value }
{
    if value < 10 {
        b'0' + value
    } else {
        b'a' + (value - 10)
    }
}
