//! Replies and refusals written to a sink, through a buffer that is empty before and after.

ghost use Rattle.std.specs.Prelude.{◌≡◌, [], length, IfOk};
ghost use Rattle.lg_base.specs.Waiting.{waiting};
ghost use Rattle.lg_http.specs.Texts.{http_text, refusal_text};
ghost use Rattle.lg_http.specs.Writing.{WritesThrough};

use crate::http_reply::HttpReply;
use crate::refusal::MessageRefusal;
use crate::texts::{feed_refusal, feed_reply};
use lg_base::{BufferedFeed, Sink, Stop};

/// Writes a reply to a message, behind which the connection closes or not; `size` is the length of its body.
pub fn write_reply<R: HttpReply, K: Sink>(
    reply: &R,
    size: u64,
    closes: bool,
    feed: &mut BufferedFeed<'_, K>,
) -> Result<(), Stop>
    requires size { size ≡ length (R.body_of reply.now) }
    requires waits { waiting feed.old.buffer.now ≡ [] }
    ensures written { WritesThrough K.Sink feed.old.sink.now feed.new.sink.now (http_text closes (R.head_of reply.now) (R.body_of reply.now)) result }
    ensures waits { IfOk result (λ _. waiting feed.new.buffer.now ≡ []) }
    ensures same_reference { feed.new.sink.ghost_name ≡ feed.old.sink.ghost_name }
{
    feed_reply(reply, size, closes, feed)?;
    feed.flush()
}

/// Writes a refusal, behind which the connection closes.
pub fn write_refusal<K: Sink>(
    why: MessageRefusal,
    feed: &mut BufferedFeed<'_, K>,
) -> Result<(), Stop>
    requires { waiting feed.old.buffer.now ≡ [] }
    ensures written { WritesThrough K.Sink feed.old.sink.now feed.new.sink.now (refusal_text why) result }
    ensures waits { IfOk result (λ _. waiting feed.new.buffer.now ≡ []) }
    ensures same_reference { feed.new.sink.ghost_name ≡ feed.old.sink.ghost_name }
{
    feed_refusal(why, feed)?;
    feed.flush()
}
