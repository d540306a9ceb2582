//! The limits of heads and connections.

use crate::answer::{Answer, answer_of, found_in, whole};
use lg_base::CalmSource;
use lg_heads::Framing;
use lg_inlet::{Inbox, Stopped};
use std::alloc::Global;
use std::test::Fail;

/// A head with so many header lines.
fn head_of_lines(alloc: Global, lines: usize) -> Result<Vec<u8>, Fail> {
    let mut bytes = b"GET / HTTP/1.1\r\n".to_vec(alloc)?;
    for _ in 0..lines {
        bytes.extend_from_slice(b"A: b\r\n")?;
    }
    bytes.extend_from_slice(b"\r\n")?;
    Ok(bytes)
}

/// A head of so many bytes, if it has at least 23.
fn head_of_bytes(alloc: Global, count: usize) -> Result<Vec<u8>, Fail> {
    let mut bytes = b"GET / HTTP/1.1\r\nA: ".to_vec(alloc)?;
    for _ in 23..count {
        bytes.push(b'x')?;
    }
    bytes.extend_from_slice(b"\r\n\r\n")?;
    Ok(bytes)
}

/// What is found where these bytes follow so many whole header lines.
fn found_behind(alloc: Global, lines: usize, last: &[u8]) -> Result<Answer, Fail> {
    let mut bytes = head_of_lines(alloc, lines)?;
    let kept = bytes.len().saturating_sub(2);
    bytes.truncate(kept);
    bytes.extend_from_slice(last)?;
    found_in(alloc, bytes.as_slice(), 7)
}

#[test]
fn at_most_64_header_lines(rt: HostRuntime) -> Result<(), Fail> {
    let alloc = rt.alloc();
    let most = head_of_lines(alloc, 64)?;
    assert_eq!(rt;
        found_in(alloc, most.as_slice(), 7)?,
        whole(402, Framing::Length(0), false)
    );
    let more = head_of_lines(alloc, 65)?;
    assert_eq!(rt; found_in(alloc, more.as_slice(), 7)?, Answer::Long);
    assert_eq!(rt; found_behind(alloc, 64, b"name\n")?, Answer::Long);
    assert_eq!(rt; found_behind(alloc, 64, b"name\r\n")?, Answer::Bad);
    assert_eq!(rt; found_behind(alloc, 64, b"no name")?, Answer::Bad);
    assert_eq!(rt; found_behind(alloc, 64, b"A: b")?, Answer::Cut);
    Ok(())
}

#[test]
fn at_most_16384_bytes(rt: HostRuntime) -> Result<(), Fail> {
    let alloc = rt.alloc();
    let most = head_of_bytes(alloc, 16384)?;
    assert_eq!(rt;
        found_in(alloc, most.as_slice(), 7)?,
        whole(16384, Framing::Length(0), false)
    );
    let more = head_of_bytes(alloc, 16385)?;
    assert_eq!(rt; found_in(alloc, more.as_slice(), 65536)?, Answer::Long);
    Ok(())
}

#[test]
fn at_most_the_allowance(rt: HostRuntime) -> Result<(), Fail> {
    let mut source = CalmSource::new(b"GET /v2/def".to_vec(rt.alloc())?, 1);
    let mut inbox = Inbox::new(rt.alloc(), 10)?;
    assert!(rt; inbox.find_head(&mut source) == Err(Stopped::Spent));
    assert!(rt; inbox.unread() == b"GET /v2/de".as_slice());
    let mut source = CalmSource::new(b"GET / HTTP/1.1\r\n\r\n".to_vec(rt.alloc())?, 7);
    let mut inbox = Inbox::new(rt.alloc(), 18)?;
    let found = answer_of(inbox.find_head(&mut source)?);
    assert_eq!(rt; found, whole(18, Framing::Length(0), false));
    Ok(())
}
