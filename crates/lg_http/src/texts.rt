//! The texts of replies and refusals.

ghost use Rattle.std.specs.Prelude.{◌≡◌, length, IfOk};
ghost use Rattle.lg_base.specs.Feeding.{Feeds};
ghost use Rattle.lg_http.specs.Texts.{body_text, http_text, refusal_status, refusal_body, refusal_text};

use crate::head_lines::{
    feed_body_lines, feed_content_lines, feed_count_lines, feed_last_lines, feed_status_line,
};
use crate::http_reply::HttpReply;
use crate::media_type::MediaType;
use crate::refusal::MessageRefusal;
use lg_base::{CountFeed, Feed, NoMemory, Stop};

/// The length of a reply's body. Want of memory stands for 2 ^ 64 - 1 bytes and more, which no memory holds.
pub fn body_length<R: HttpReply>(reply: &R) -> Result<u64, NoMemory>
    ensures { IfOk result (λ n. n ≡ length (R.body_of reply.now)) }
{
    let mut count = CountFeed::new();
    match reply.feed_body(&mut count) {
        Ok(()) => {}
        Err(Stop) => unreachable!(),
    }
    match count.number() {
        u64::MAX => Err(NoMemory),
        size => Ok(size),
    }
}

/// Feeds a reply to a message, behind which the connection closes or not; `size` is the length of its body.
pub fn feed_reply<R: HttpReply, F: Feed>(
    reply: &R,
    size: u64,
    closes: bool,
    to: &mut F,
) -> Result<(), Stop>
    requires { size ≡ length (R.body_of reply.now) }
    ensures { Feeds F.Feed to.old to.new (http_text closes (R.head_of reply.now) (R.body_of reply.now)) result }
{
    let head = reply.head();
    feed_status_line(head.status, to)?;
    feed_body_lines(head.media, size, to)?;
    feed_count_lines(&head, to)?;
    feed_last_lines(closes, to)?;
    feed_shown_body(reply, head.media, to)
}

/// Feeds the body of a reply, where it has one.
fn feed_shown_body<R: HttpReply, F: Feed>(
    reply: &R,
    media: Option<MediaType>,
    to: &mut F,
) -> Result<(), Stop>
    ensures { Feeds F.Feed to.old to.new (body_text media (R.body_of reply.now)) result }
{
    match media {
        Some(_) => reply.feed_body(to),
        None => to.piece(b""),
    }
}

/// Feeds a refusal, behind which the connection closes.
pub fn feed_refusal<F: Feed>(why: MessageRefusal, to: &mut F) -> Result<(), Stop>
    ensures { Feeds F.Feed to.old to.new (refusal_text why) result }
{
    let body = body_of_refusal(why);
    feed_status_line(status_of_refusal(why), to)?;
    feed_content_lines(MediaType::Json, body.len() as u64, to)?;
    feed_last_lines(true, to)?;
    to.piece(body)
}

fn status_of_refusal(why: MessageRefusal) -> u16
    ensures { result ≡ refusal_status why }
{
    match why {
        MessageRefusal::BadHead => 400,
        MessageRefusal::LongHead => 431,
        MessageRefusal::CodedBody => 501,
        MessageRefusal::LongBody => 413,
    }
}

fn body_of_refusal(why: MessageRefusal) -> &'static [u8]
    ensures { result.now ≡ refusal_body why }
{
    match why {
        MessageRefusal::BadHead | MessageRefusal::LongHead => {
            b"{\"errorCode\":\"VALIDATION\",\"errorMessage\":\"head\"}"
        }
        MessageRefusal::CodedBody => {
            b"{\"errorCode\":\"VALIDATION\",\"errorMessage\":\"transfer coding\"}"
        }
        MessageRefusal::LongBody => b"{\"errorCode\":\"VALIDATION\",\"errorMessage\":\"length\"}",
    }
}
