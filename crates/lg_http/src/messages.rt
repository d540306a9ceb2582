//! The next message of a connection.

ghost use Rattle.std.specs.Prelude.{◌≡◌, ◌+◌, ◌≤◌, IfOk, IfErr};
ghost use Rattle.httparse.specs.Grammar.{RequestHead};
ghost use Rattle.lg_heads.specs.Heads.{IsHeadAt};
ghost use Rattle.lg_inlet.specs.Bodies.{IsShort};
ghost use Rattle.lg_inlet.specs.Taking.{TakesWanted, StopsTaking};
ghost use Rattle.lg_inlet.specs.Unread.{unread};
ghost use Rattle.lg_http.specs.Messages.{LacksBody};
ghost use Rattle.lg_http.specs.Places.{IsNext, WantsMessage, AwaitsMessage};
ghost use Rattle.lg_http.specs.Bodies.{IsTaken, spans_of};

use crate::body_limits::BodyLimits;
use crate::body_size::{BodySize, body_size};
use crate::message_spans::MessageSpans;
use crate::next::Next;
use crate::refusal::MessageRefusal;
use lg_base::{NoMemory, Source};
use lg_heads::{Head, Span};
use lg_inlet::{BodyEnd, Found, Inbox, Stopped};

/// Finds the next message at the front of the unread bytes, and reads as long as there is neither a whole one nor a limit
/// passed. The message stays unread.
pub fn next_message<S: Source, L: BodyLimits>(
    inbox: &mut Inbox,
    source: &mut S,
    limits: &L,
) -> Result<Next, Stopped>
    ensures took { IfOk result (λ _. TakesWanted (WantsMessage L.limit) S.Source source.old source.new inbox.old inbox.new) }
    ensures next { IfOk result (IsNext L.limit (S.left source.new) (unread inbox.new)) }
    ensures stopped { IfErr result (StopsTaking (AwaitsMessage L.limit) S.Source source.old source.new inbox.old inbox.new) }
    ensures later { S.faults source.old ≤ S.faults source.new }
{
    match inbox.find_head(source) {
        Ok(Found::Whole(head)) => finish_message(inbox, source, limits, head),
        Ok(Found::Bad) => Ok(Next::Refused(MessageRefusal::BadHead)),
        Ok(Found::Long) => Ok(Next::Refused(MessageRefusal::LongHead)),
        Ok(Found::Cut) => Ok(Next::Cut),
        Ok(Found::Closed) => Ok(Next::Closed),
        Err(stopped) => Err(stopped),
    }
}

/// Reads the body behind a whole head.
fn finish_message<S: Source, L: BodyLimits>(
    inbox: &mut Inbox,
    source: &mut S,
    limits: &L,
    head: Head,
) -> Result<Next, Stopped>
    requires { (h : RequestHead) × IsHeadAt (unread inbox.old) head h }
    ensures took { IfOk result (λ _. TakesWanted (LacksBody L.limit) S.Source source.old source.new inbox.old inbox.new) }
    ensures next { IfOk result (IsNext L.limit (S.left source.new) (unread inbox.new)) }
    ensures stopped { IfErr result (StopsTaking (LacksBody L.limit) S.Source source.old source.new inbox.old inbox.new) }
    ensures later { S.faults source.old ≤ S.faults source.new }
{
    match body_size(inbox.unread(), &head, limits) {
        Ok(BodySize::Bytes(size)) => take_message(inbox, source, head, size),
        Ok(BodySize::Refused(why)) => Ok(Next::Refused(why)),
        Err(NoMemory) => Err(Stopped::NoMemory),
    }
}

/// Reads a body of so many bytes behind a whole head.
fn take_message<S: Source>(
    inbox: &mut Inbox,
    source: &mut S,
    head: Head,
    size: u32,
) -> Result<Next, Stopped>
    requires { head.len ≤ 16384 }
    ensures took { IfOk result (λ _. TakesWanted (IsShort (head.len + size)) S.Source source.old source.new inbox.old inbox.new) }
    ensures next { IfOk result (IsTaken (S.left source.new) (unread inbox.new) head size) }
    ensures stopped { IfErr result (StopsTaking (IsShort (head.len + size)) S.Source source.old source.new inbox.old inbox.new) }
    ensures later { S.faults source.old ≤ S.faults source.new }
{
    let spans = message_spans(head, size);
    match inbox.take_body(source, spans.len) {
        Ok(BodyEnd::Whole) => Ok(Next::Message(spans)),
        Ok(BodyEnd::Cut) => Ok(Next::Cut),
        Err(stopped) => Err(stopped),
    }
}

/// The parts of a message with this head and a body of so many bytes.
fn message_spans(head: Head, size: u32) -> MessageSpans
    requires { head.len ≤ 16384 }
    ensures { result ≡ spans_of head size }
{
    let len = head.len + size as usize;
    MessageSpans {
        method: head.method,
        target: head.target,
        key: head.key,
        body: Span {
            start: head.len,
            end: len,
        },
        closes: head.closes,
        len,
    }
}
