//! Heads and what they come to, however their bytes are cut.

use crate::answer::{ALLOWANCE, Answer, found_in, whole};
use lg_base::{CalmSource, MemSource};
use lg_heads::{Framing, Span};
use lg_inlet::{Found, Inbox, Stopped};
use std::alloc::Global;
use std::process::Abort;
use std::test::Fail;

/// Asserts that the heads of a table are answered as it says, in pieces of 1, 7 and 65,536 bytes.
fn check(rt: &impl Abort, alloc: Global, table: &[(&str, Answer)]) -> Result<(), Fail> {
    for row in table {
        let bytes = row.0.as_bytes();
        assert!(rt;
            found_in(alloc, bytes, 1)? == row.1,
            "{} {:?}",
            row.0,
            row.1
        );
        assert!(rt;
            found_in(alloc, bytes, 7)? == row.1,
            "{} {:?}",
            row.0,
            row.1
        );
        assert!(rt;
            found_in(alloc, bytes, 65536)? == row.1,
            "{} {:?}",
            row.0,
            row.1
        );
    }
    Ok(())
}

#[test]
fn heads(rt: HostRuntime) -> Result<(), Fail> {
    check(
        &rt,
        rt.alloc(),
        &[
            ("", Answer::Closed),
            ("\r\n", Answer::Cut),
            (
                "GET / HTTP/1.1\r\n\r\n",
                whole(18, Framing::Length(0), false),
            ),
            ("GET / HTTP/1.1\n\n", whole(16, Framing::Length(0), false)),
            (
                "\r\n\nGET / HTTP/1.1\r\nHost: x\r\n\r\nrest",
                whole(30, Framing::Length(0), false),
            ),
            (
                "GET / HTTP/1.0\r\n\r\n",
                whole(18, Framing::Length(0), true),
            ),
            ("GET / HTTP/1.1\r\nHost: x\r\n", Answer::Cut),
            ("GET / HTTP/1.1\r\n\r", Answer::Cut),
            ("GET", Answer::Cut),
            ("\r", Answer::Cut),
            ("GET  / HTTP/1.1\r\n\r\n", Answer::Bad),
            (" GET / HTTP/1.1\r\n\r\n", Answer::Bad),
            ("GET / HTTP/1.2\r\n\r\n", Answer::Bad),
            ("GET / HTTP/1.1 \r\n\r\n", Answer::Bad),
            ("GET /\r\n", Answer::Bad),
            ("GET / HTTP/1.1\r\nno colon\r\n", Answer::Bad),
            ("GET / HTTP/1.1\r\nHost : x\r\n", Answer::Bad),
            ("GET / HTTP/1.1\r\n folded: x\r\n", Answer::Bad),
            ("GET / HTTP/1.1\r\nA: b\rc\r\n\r\n", Answer::Bad),
            ("GET / HTTP/1.1\r\nA: \x01\r\n\r\n", Answer::Bad),
        ],
    )
}

#[test]
fn lengths_and_codings(rt: HostRuntime) -> Result<(), Fail> {
    check(
        &rt,
        rt.alloc(),
        &[
            (
                "POST / HTTP/1.1\r\nContent-Length: 15\r\n\r\n",
                whole(39, Framing::Length(15), false),
            ),
            (
                "POST / HTTP/1.1\r\ncontent-LENGTH:\t007 \r\nContent-Length: 7\r\n\r\n",
                whole(60, Framing::Length(7), false),
            ),
            (
                "POST / HTTP/1.1\r\nContent-Length: 5\r\nContent-Length: 6\r\n\r\n",
                whole(57, Framing::Bad, false),
            ),
            (
                "POST / HTTP/1.1\r\nContent-Length: 5, 5\r\n\r\n",
                whole(41, Framing::Bad, false),
            ),
            (
                "POST / HTTP/1.1\r\nContent-Length:\r\n\r\n",
                whole(36, Framing::Bad, false),
            ),
            (
                "POST / HTTP/1.1\r\nContent-Length: +5\r\n\r\n",
                whole(39, Framing::Bad, false),
            ),
            (
                "POST / HTTP/1.1\r\nContent-Length: -1\r\n\r\n",
                whole(39, Framing::Bad, false),
            ),
            (
                "POST / HTTP/1.1\r\nContent-Length: 18446744073709551615\r\n\r\n",
                whole(57, Framing::Length(18446744073709551615), false),
            ),
            (
                "POST / HTTP/1.1\r\nContent-Length: 18446744073709551616\r\n\r\n",
                whole(57, Framing::Length(18446744073709551615), false),
            ),
            (
                "POST / HTTP/1.1\r\nContent-Length: 18446744073709551616\r\nContent-Length: 18446744073709551617\r\n\r\n",
                whole(95, Framing::Bad, false),
            ),
            (
                "POST / HTTP/1.1\r\nTransfer-Encoding: chunked\r\n\r\n",
                whole(47, Framing::Coded, false),
            ),
            (
                "POST / HTTP/1.1\r\nTransfer-Encoding:\r\nContent-Length: 5\r\n\r\n",
                whole(58, Framing::Coded, false),
            ),
            (
                "POST / HTTP/1.1\r\nTransfer-Encoding: chunked\r\nContent-Length: x\r\n\r\n",
                whole(66, Framing::Bad, false),
            ),
        ],
    )
}

#[test]
fn the_option_close(rt: HostRuntime) -> Result<(), Fail> {
    check(
        &rt,
        rt.alloc(),
        &[
            (
                "GET / HTTP/1.1\r\nConnection: close\r\n\r\n",
                whole(37, Framing::Length(0), true),
            ),
            (
                "GET / HTTP/1.1\r\nconnection: keep-alive,\t Close ,x\r\n\r\n",
                whole(53, Framing::Length(0), true),
            ),
            (
                "GET / HTTP/1.1\r\nConnection: closed, c lose\r\n\r\n",
                whole(46, Framing::Length(0), false),
            ),
            (
                "GET / HTTP/1.1\r\nConnection: keep-alive\r\nCONNECTION: ,close\r\n\r\n",
                whole(62, Framing::Length(0), true),
            ),
        ],
    )
}

/// The bytes that a span covers, where it lies in them.
fn part(bytes: &[u8], span: Span) -> Option<&[u8]> {
    bytes.get(span.start..span.end)
}

#[test]
fn the_parts_of_a_head(rt: HostRuntime) -> Result<(), Fail> {
    let text =
        "\r\nPOST /v2/default HTTP/1.1\r\nidempotency-KEY:  k 1\t\r\nIdempotency-Key: k2\r\n\r\n";
    let mut source = CalmSource::new(text.as_bytes().to_vec(rt.alloc())?, 7);
    let mut inbox = Inbox::new(rt.alloc(), ALLOWANCE)?;
    let Found::Whole(head) = inbox.find_head(&mut source)? else {
        return Err(Fail::from("no head"));
    };
    let bytes = inbox.unread();
    assert!(rt; part(bytes, head.method) == Some(b"POST".as_slice()));
    assert!(rt; part(bytes, head.target) == Some(b"/v2/default".as_slice()));
    let key = head.key.and_then(|span| part(bytes, span));
    assert!(rt; key == Some(b"k 1".as_slice()));
    Ok(())
}

#[test]
fn a_fault_at_each_read(rt: HostRuntime) -> Result<(), Fail> {
    let text = "GET / HTTP/1.1\r\n\r\n";
    for read in 1..=18u64 {
        let fails = vec![in rt.alloc(); read]?;
        let mut source = MemSource::new(text.as_bytes().to_vec(rt.alloc())?, fails, 1);
        let mut inbox = Inbox::new(rt.alloc(), ALLOWANCE)?;
        assert!(rt;
            inbox.find_head(&mut source) == Err(Stopped::Fault),
            "read {read}"
        );
        assert!(rt;
            matches!(inbox.find_head(&mut source)?, Found::Whole(_)),
            "read {read}"
        );
    }
    Ok(())
}

#[test]
fn no_read_behind_a_whole_head(rt: HostRuntime) -> Result<(), Fail> {
    let text = "GET / HTTP/1.1\r\n\r\n";
    let fails = vec![in rt.alloc(); 19u64]?;
    let mut source = MemSource::new(text.as_bytes().to_vec(rt.alloc())?, fails, 1);
    let mut inbox = Inbox::new(rt.alloc(), ALLOWANCE)?;
    assert!(rt; matches!(inbox.find_head(&mut source)?, Found::Whole(_)));
    assert!(rt; matches!(inbox.find_head(&mut source)?, Found::Whole(_)));
    Ok(())
}

#[test]
fn bytes_that_begin_no_head_come_before_a_stop(rt: HostRuntime) -> Result<(), Fail> {
    let text = "GETX\x01 / HTTP/1.1\r\n\r\n";
    let fails = vec![in rt.alloc(); 6u64]?;
    let mut source = MemSource::new(text.as_bytes().to_vec(rt.alloc())?, fails, 1);
    let mut inbox = Inbox::new(rt.alloc(), ALLOWANCE)?;
    assert!(rt; inbox.find_head(&mut source) == Ok(Found::Bad));
    let mut source = CalmSource::new(text.as_bytes().to_vec(rt.alloc())?, 1);
    let mut inbox = Inbox::new(rt.alloc(), 5)?;
    assert!(rt; inbox.find_head(&mut source) == Ok(Found::Bad));
    Ok(())
}
