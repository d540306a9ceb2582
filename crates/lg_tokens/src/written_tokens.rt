//! The token of a page, written.

ghost use Rattle.std.specs.Prelude.{◌≡◌, IfOk};
ghost use Rattle.lg_base.specs.Feeding.{Feeds};
ghost use Rattle.lg_views.specs.Tokens.{token_text, token};

use crate::text_parts::{TextPart, TokenPart};
use base64::engine::general_purpose::URL_SAFE_NO_PAD;
use lg_base::{ByteFeed, Feed, NoMemory, Stop};
use lg_containers::feed_all;
use lg_types::{After, ListKind, Part, Query, Text};
use std::alloc::Global;

/// Feeds the text of a query that goes on after the place.
fn feed_token_text<'x, F: Feed>(
    kind: ListKind,
    query: &'x Query,
    after: &'x After,
    to: &mut F,
) -> Result<(), Stop>
    ensures { Feeds F.Feed to.old to.new (token_text kind query.now after.now) result }
{
    feed_all(
        &[
            TokenPart::Text(TextPart::Base(Part::Plain(b"{\"kind\":"))),
            TokenPart::Kind(kind),
            TokenPart::Text(TextPart::Base(Part::Plain(b",\"pageSize\":"))),
            TokenPart::Text(TextPart::Base(Part::Number(query.page_size as u64))),
            TokenPart::Pit(&query.pit),
            TokenPart::Start(&query.span.from),
            TokenPart::End(&query.span.to),
            TokenPart::ByInsertion(query.span.by_insertion),
            TokenPart::Group(query.span.group),
            TokenPart::Expand(query.expand),
            TokenPart::Filter(&query.filter),
            TokenPart::Text(TextPart::Base(Part::Plain(b",\"after\":"))),
            TokenPart::After(after),
            TokenPart::Text(TextPart::Base(Part::Plain(b"}"))),
        ],
        to,
    )
}

/// The text of a query that goes on after the place, in memory.
fn token_bytes<'x>(
    alloc: Global,
    kind: ListKind,
    query: &'x Query,
    after: &'x After,
) -> Result<Vec<u8>, NoMemory>
    ensures { IfOk result (λ bytes. bytes.items ≡ token_text kind query.now after.now) }
{
    let mut feed = ByteFeed::new(alloc);
    match feed_token_text(kind, query, after, &mut feed) {
        Ok(()) => Ok(feed.into_bytes()),
        Err(Stop) => Err(NoMemory),
    }
}

/// The token of the page that goes on after the place: the query in canonical form, in base64url without padding
/// (RFC 4648, section 5). The query's own place isn't looked at. The one error is want of memory.
pub fn token_of<'x>(
    alloc: Global,
    kind: ListKind,
    query: &'x Query,
    after: &'x After,
) -> Result<Text, NoMemory>
    ensures { IfOk result (λ written. written ≡ token kind query.now after.now) }
{
    let text = token_bytes(alloc, kind, query, after)?;
    let token = URL_SAFE_NO_PAD.encode(alloc, &text)?;
    Ok(Text::from_vec(token.into_bytes()))
}
