//! The texts of replies and refusals.

use lg_base::{BufferedFeed, ByteFeed, CalmSink, Feed, MemSink, OutputBuffer, Stop};
use lg_http::{
    HttpReply, MediaType, MessageRefusal, ReplyHead, body_length, feed_refusal, feed_reply,
    write_refusal, write_reply,
};
use std::alloc::Global;
use std::test::Fail;

/// A reply with this head and body.
#[derive(Drop)]
struct Shown {
    head: ReplyHead,
    body: &'static [u8],
}

impl HttpReply for Shown {
    ghost head_of = { λ reply. reply.head };

    ghost body_of = { λ reply. reply.body.now };

    fn head(&self) -> ReplyHead {
        self.head
    }

    fn feed_body<F: Feed>(&self, to: &mut F) -> Result<(), Stop> {
        to.piece(self.body)
    }
}

/// The text of a reply.
fn text_of(alloc: Global, reply: &Shown, closes: bool) -> Result<Vec<u8>, Fail> {
    let size = body_length(reply)?;
    let mut feed = ByteFeed::new(alloc);
    feed_reply(reply, size, closes, &mut feed)?;
    Ok(feed.into_bytes())
}

#[test]
fn a_reply_with_a_body(rt: HostRuntime) -> Result<(), Fail> {
    let reply = Shown {
        head: ReplyHead {
            status: 200,
            media: Some(MediaType::Json),
            front: 2,
            events: 0,
            hit: false,
        },
        body: b"{\"data\":{\"accounts\":1,\"transactions\":0}}",
    };
    let text = text_of(rt.alloc(), &reply, false)?;
    assert!(rt;
        text.as_slice()
            == b"HTTP/1.1 200 OK\r\nContent-Type: application/json\r\nContent-Length: 40\r\nLedger-Front: 2\r\nLedger-Events: 0\r\n\r\n{\"data\":{\"accounts\":1,\"transactions\":0}}".as_slice()
    );
    Ok(())
}

#[test]
fn a_reply_without_a_body(rt: HostRuntime) -> Result<(), Fail> {
    let reply = Shown {
        head: ReplyHead {
            status: 204,
            media: None,
            front: 1,
            events: 1,
            hit: true,
        },
        body: b"",
    };
    let text = text_of(rt.alloc(), &reply, true)?;
    assert!(rt;
        text.as_slice()
            == b"HTTP/1.1 204 No Content\r\nLedger-Front: 1\r\nLedger-Events: 1\r\nIdempotency-Hit: true\r\nConnection: close\r\n\r\n".as_slice()
    );
    Ok(())
}

/// The text of a refusal.
fn refusal_of(alloc: Global, why: MessageRefusal) -> Result<Vec<u8>, Fail> {
    let mut feed = ByteFeed::new(alloc);
    feed_refusal(why, &mut feed)?;
    Ok(feed.into_bytes())
}

#[test]
fn refusals(rt: HostRuntime) -> Result<(), Fail> {
    let coded = refusal_of(rt.alloc(), MessageRefusal::CodedBody)?;
    assert!(rt;
        coded.as_slice()
            == b"HTTP/1.1 501 Not Implemented\r\nContent-Type: application/json\r\nContent-Length: 59\r\nConnection: close\r\n\r\n{\"errorCode\":\"VALIDATION\",\"errorMessage\":\"transfer coding\"}".as_slice()
    );
    let long = refusal_of(rt.alloc(), MessageRefusal::LongHead)?;
    assert!(rt;
        long.as_slice()
            == b"HTTP/1.1 431 Request Header Fields Too Large\r\nContent-Type: application/json\r\nContent-Length: 48\r\nConnection: close\r\n\r\n{\"errorCode\":\"VALIDATION\",\"errorMessage\":\"head\"}".as_slice()
    );
    Ok(())
}

#[test]
fn a_reply_is_written(rt: HostRuntime) -> Result<(), Fail> {
    let reply = Shown {
        head: ReplyHead {
            status: 200,
            media: Some(MediaType::Json),
            front: 2,
            events: 0,
            hit: false,
        },
        body: b"{}",
    };
    let size = body_length(&reply)?;
    let mut sink = CalmSink::new(rt.alloc(), 1024)?;
    let mut buffer = OutputBuffer::new(rt.alloc())?;
    let mut feed = BufferedFeed::new(&mut sink, &mut buffer);
    write_reply(&reply, size, false, &mut feed)?;
    assert!(rt;
        sink.written()
            == b"HTTP/1.1 200 OK\r\nContent-Type: application/json\r\nContent-Length: 2\r\nLedger-Front: 2\r\nLedger-Events: 0\r\n\r\n{}".as_slice()
    );
    Ok(())
}

#[test]
fn a_fault_inside_a_refusal(rt: HostRuntime) -> Result<(), Fail> {
    let fails = vec![in rt.alloc(); 2u64]?;
    let mut sink = MemSink::new(rt.alloc(), fails, 12, 1024)?;
    let mut buffer = OutputBuffer::new(rt.alloc())?;
    let mut feed = BufferedFeed::new(&mut sink, &mut buffer);
    assert!(rt; write_refusal(MessageRefusal::BadHead, &mut feed) == Err(Stop));
    assert!(rt; sink.written() == b"HTTP/1.1 400".as_slice());
    Ok(())
}
