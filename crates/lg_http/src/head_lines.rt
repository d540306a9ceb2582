//! The lines of a reply's head.

ghost use Rattle.std.specs.Prelude.{◌≡◌, decimal};
ghost use Rattle.lg_base.specs.Feeding.{Feeds};
ghost use Rattle.lg_http.specs.Texts.{phrase_of, media_text, hit_line, status_line, content_lines, body_lines, count_lines, last_lines};

use crate::media_type::MediaType;
use crate::reply_head::ReplyHead;
use itoa::Buffer;
use lg_base::{Feed, Stop};

/// The reason phrase of a status.
fn phrase(status: u16) -> &'static [u8]
    ensures { result.now ≡ phrase_of status }
{
    match status {
        200 => b"OK",
        201 => b"Created",
        204 => b"No Content",
        400 => b"Bad Request",
        404 => b"Not Found",
        405 => b"Method Not Allowed",
        409 => b"Conflict",
        413 => b"Payload Too Large",
        431 => b"Request Header Fields Too Large",
        501 => b"Not Implemented",
        503 => b"Service Unavailable",
        _ => b"",
    }
}

/// Feeds a whole number in decimal.
fn feed_decimal<F: Feed>(number: u64, to: &mut F) -> Result<(), Stop>
    ensures { Feeds F.Feed to.old to.new (decimal number) result }
{
    let mut buffer = Buffer::new();
    to.piece(buffer.format(number).as_bytes())
}

/// Feeds a status in decimal.
fn feed_status<F: Feed>(status: u16, to: &mut F) -> Result<(), Stop>
    ensures { Feeds F.Feed to.old to.new (decimal status) result }
{
    let mut buffer = Buffer::new();
    to.piece(buffer.format(status).as_bytes())
}

/// Feeds the status line.
pub(crate) fn feed_status_line<F: Feed>(status: u16, to: &mut F) -> Result<(), Stop>
    ensures { Feeds F.Feed to.old to.new (status_line status) result }
{
    to.piece(b"HTTP/1.1 ")?;
    feed_status(status, to)?;
    to.piece(b" ")?;
    to.piece(phrase(status))?;
    to.piece(b"\r\n")
}

fn media_name(media: MediaType) -> &'static [u8]
    ensures { result.now ≡ media_text media }
{
    match media {
        MediaType::Json => b"application/json",
        MediaType::OctetStream => b"application/octet-stream",
    }
}

/// Feeds the fields of a body of this type and length.
pub(crate) fn feed_content_lines<F: Feed>(
    media: MediaType,
    size: u64,
    to: &mut F,
) -> Result<(), Stop>
    ensures { Feeds F.Feed to.old to.new (content_lines media size) result }
{
    to.piece(b"Content-Type: ")?;
    to.piece(media_name(media))?;
    to.piece(b"\r\nContent-Length: ")?;
    feed_decimal(size, to)?;
    to.piece(b"\r\n")
}

/// Feeds the fields of a reply's body, where it has one.
pub(crate) fn feed_body_lines<F: Feed>(
    media: Option<MediaType>,
    size: u64,
    to: &mut F,
) -> Result<(), Stop>
    ensures { Feeds F.Feed to.old to.new (body_lines media size) result }
{
    match media {
        Some(media) => feed_content_lines(media, size, to),
        None => to.piece(b""),
    }
}

fn hit(is_hit: bool) -> &'static [u8]
    ensures { result.now ≡ hit_line is_hit }
{
    if is_hit {
        b"Idempotency-Hit: true\r\n"
    } else {
        b""
    }
}

/// Feeds the counts of a reply.
pub(crate) fn feed_count_lines<F: Feed>(head: &ReplyHead, to: &mut F) -> Result<(), Stop>
    ensures { Feeds F.Feed to.old to.new (count_lines head.now) result }
{
    to.piece(b"Ledger-Front: ")?;
    feed_decimal(head.front, to)?;
    to.piece(b"\r\nLedger-Events: ")?;
    feed_decimal(head.events, to)?;
    to.piece(b"\r\n")?;
    to.piece(hit(head.hit))
}

/// Feeds the end of a head.
pub(crate) fn feed_last_lines<F: Feed>(closes: bool, to: &mut F) -> Result<(), Stop>
    ensures { Feeds F.Feed to.old to.new (last_lines closes) result }
{
    if closes {
        to.piece(b"Connection: close\r\n\r\n")
    } else {
        to.piece(b"\r\n")
    }
}
