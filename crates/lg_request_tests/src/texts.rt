//! Bytes as texts.

use lg_base::ByteFeed;
use lg_containers::Canonical;
use lg_replies::reply_text;
use lg_views::Reply;
use std::alloc::Global;
use std::test::Fail;

/// The text of bytes in UTF-8.
pub fn text_of(alloc: Global, bytes: &[u8]) -> Result<String, Fail> {
    Ok(String::from_utf8_lossy(alloc, bytes)?)
}

/// The text that stands for a value.
pub fn canonical_text<T: Canonical>(alloc: Global, value: &T) -> Result<String, Fail> {
    let mut feed = ByteFeed::new(alloc);
    value.feed_to(&mut feed)?;
    text_of(alloc, feed.bytes())
}

/// The body of a reply.
pub fn body_text(alloc: Global, reply: &Reply) -> Result<String, Fail> {
    let mut feed = ByteFeed::new(alloc);
    reply_text(reply, &mut feed)?;
    text_of(alloc, feed.bytes())
}
