//! Messages of a connection, however their bytes are cut.

ghost use Rattle.std.specs.Prelude.{◌<◌};

use crate::answer::ALLOWANCE;
use crate::body_tests::consume_some;
use lg_base::{CalmSource, NoMemory};
use lg_http::{BodyLimits, MessageRefusal, Next, next_message};
use lg_inlet::{Inbox, Stopped};
use std::alloc::Global;
use std::process::Abort;
use std::test::Fail;

/// Bodies of at most 15 bytes.
#[derive(Drop)]
struct Short;

impl BodyLimits for Short {
    ghost limit = { λ _ _. 15 };

    fn most(&self, _method: &[u8], _target: &[u8]) -> Result<u32, NoMemory> {
        Ok(15)
    }
}

/// A message, without the places in its bytes.
#[derive(Clone, Copy, PartialEq, Eq, Debug)]
enum Seen {
    Message {
        len: usize,
        body: usize,
        closes: bool,
    },
    Refused(MessageRefusal),
    Cut,
    Closed,
}

fn message(len: usize, body: usize, closes: bool) -> Seen {
    Seen::Message { len, body, closes }
}

fn without_places(next: Next) -> Seen {
    match next {
        Next::Message(spans) => message(
            spans.len,
            spans.body.end.saturating_sub(spans.body.start),
            spans.closes,
        ),
        Next::Refused(why) => Seen::Refused(why),
        Next::Cut => Seen::Cut,
        Next::Closed => Seen::Closed,
    }
}

/// What comes first in the bytes, which come in pieces of this size.
fn first_in(alloc: Global, bytes: &[u8], piece: usize) -> Result<Seen, Fail>
    requires { 0 < piece }
{
    let mut source = CalmSource::new(bytes.to_vec(alloc)?, piece);
    let mut inbox = Inbox::new(alloc, ALLOWANCE)?;
    Ok(without_places(next_message(&mut inbox, &mut source, &Short)?))
}

/// Asserts that the rows of a table are answered as it says, in pieces of 1, 7 and 65,536 bytes.
fn check(rt: &impl Abort, alloc: Global, table: &[(&str, Seen)]) -> Result<(), Fail> {
    for row in table {
        let bytes = row.0.as_bytes();
        assert!(rt; first_in(alloc, bytes, 1)? == row.1, "{}", row.0);
        assert!(rt; first_in(alloc, bytes, 7)? == row.1, "{}", row.0);
        assert!(rt; first_in(alloc, bytes, 65536)? == row.1, "{}", row.0);
    }
    Ok(())
}

#[test]
fn messages(rt: HostRuntime) -> Result<(), Fail> {
    check(
        &rt,
        rt.alloc(),
        &[
            ("", Seen::Closed),
            ("GET / HTTP/1.1\r\n", Seen::Cut),
            (
                "GET /v2/default/stats HTTP/1.1\r\nHost: x\r\n\r\nGET",
                message(43, 0, false),
            ),
            ("GET / HTTP/1.0\r\n\r\n", message(18, 0, true)),
            (
                "POST /v2/default/accounts/a/metadata HTTP/1.1\r\nHost: x\r\nContent-Length: 15\r\n\r\n{\"tier\":\"gold\"}",
                message(93, 15, false),
            ),
            (
                "POST / HTTP/1.1\r\nContent-Length: 15\r\n\r\n{\"tier\":\"gold\"",
                Seen::Cut,
            ),
            (
                "POST / HTTP/1.1\r\nContent-Length: 0016\r\n\r\n",
                Seen::Refused(MessageRefusal::LongBody),
            ),
            (
                "POST / HTTP/1.1\r\nContent-Length: 18446744073709551616\r\n\r\n",
                Seen::Refused(MessageRefusal::LongBody),
            ),
            (
                "POST / HTTP/1.1\r\nContent-Length: x\r\nTransfer-Encoding: chunked\r\n\r\n",
                Seen::Refused(MessageRefusal::BadHead),
            ),
            (
                "POST / HTTP/1.1\r\nTransfer-Encoding: chunked\r\nContent-Length: 16\r\n\r\n",
                Seen::Refused(MessageRefusal::CodedBody),
            ),
            (
                "GET  / HTTP/1.1\r\n\r\n",
                Seen::Refused(MessageRefusal::BadHead),
            ),
        ],
    )
}

#[test]
fn a_spent_allowance_inside_a_body(rt: HostRuntime) -> Result<(), Fail> {
    let text = "POST / HTTP/1.1\r\nContent-Length: 5\r\n\r\nhello";
    let mut source = CalmSource::new(text.as_bytes().to_vec(rt.alloc())?, 7);
    let mut inbox = Inbox::new(rt.alloc(), 42)?;
    assert!(rt; next_message(&mut inbox, &mut source, &Short) == Err(Stopped::Spent));
    Ok(())
}

/// The next message, which is taken away.
fn take_next(inbox: &mut Inbox, source: &mut CalmSource) -> Result<Seen, Fail> {
    let next = next_message(inbox, source, &Short)?;
    if let Next::Message(spans) = next {
        consume_some(inbox, spans.len);
    }
    Ok(without_places(next))
}

#[test]
fn messages_one_after_another(rt: HostRuntime) -> Result<(), Fail> {
    let text = "POST / HTTP/1.1\r\nContent-Length: 5\r\n\r\nhelloGET / HTTP/1.0\r\n\r\nGET";
    let mut source = CalmSource::new(text.as_bytes().to_vec(rt.alloc())?, 7);
    let mut inbox = Inbox::new(rt.alloc(), ALLOWANCE)?;
    assert_eq!(rt; take_next(&mut inbox, &mut source)?, message(43, 5, false));
    assert_eq!(rt; take_next(&mut inbox, &mut source)?, message(18, 0, true));
    assert_eq!(rt; take_next(&mut inbox, &mut source)?, Seen::Cut);
    Ok(())
}
