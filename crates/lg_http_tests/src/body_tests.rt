//! Bodies, and messages one after another.

ghost use Rattle.std.specs.Prelude.{◌<◌};

use crate::answer::ALLOWANCE;
use lg_base::{ByteFeed, CalmSource, MemSource, NoMemory};
use lg_inlet::{BodyEnd, Inbox, Stopped};
use std::alloc::Global;
use std::test::Fail;

/// A source of these bytes in pieces of this size.
fn source_of(alloc: Global, bytes: &[u8], piece: usize) -> Result<CalmSource, NoMemory>
    requires { 0 < piece }
{
    Ok(CalmSource::new(bytes.to_vec(alloc)?, piece))
}

/// Takes so many bytes away, or all where fewer are there.
pub fn consume_some(inbox: &mut Inbox, count: usize) {
    let taken = count.min(inbox.unread().len());
    inbox.consume(taken);
}

#[test]
fn a_body_is_taken_whole_or_cut(rt: HostRuntime) -> Result<(), Fail> {
    let mut source = source_of(rt.alloc(), b"hello, you", 3)?;
    let mut inbox = Inbox::new(rt.alloc(), ALLOWANCE)?;
    assert_eq!(rt; inbox.take_body(&mut source, 5)?, BodyEnd::Whole);
    assert!(rt; inbox.unread() == b"hello,".as_slice());
    assert_eq!(rt; inbox.take_body(&mut source, 5)?, BodyEnd::Whole);
    assert_eq!(rt; inbox.take_body(&mut source, 11)?, BodyEnd::Cut);
    assert!(rt; inbox.unread() == b"hello, you".as_slice());
    Ok(())
}

#[test]
fn a_body_is_passed_on(rt: HostRuntime) -> Result<(), Fail> {
    let mut source = source_of(rt.alloc(), b"hello, you", 3)?;
    let mut inbox = Inbox::new(rt.alloc(), ALLOWANCE)?;
    let mut feed = ByteFeed::new(rt.alloc());
    assert_eq!(rt; inbox.pass_body(&mut source, 5, &mut feed)?, BodyEnd::Whole);
    assert!(rt; feed.bytes() == b"hello".as_slice());
    assert!(rt; inbox.unread() == b",".as_slice());
    assert_eq!(rt; inbox.pass_body(&mut source, 6, &mut feed)?, BodyEnd::Cut);
    assert!(rt; feed.bytes() == b"hello, you".as_slice());
    Ok(())
}

#[test]
fn a_fault_inside_a_body(rt: HostRuntime) -> Result<(), Fail> {
    let fails = vec![in rt.alloc(); 2u64]?;
    let mut source = MemSource::new(b"hello".to_vec(rt.alloc())?, fails, 3);
    let mut inbox = Inbox::new(rt.alloc(), ALLOWANCE)?;
    assert!(rt; inbox.take_body(&mut source, 5) == Err(Stopped::Fault));
    assert!(rt; inbox.unread() == b"hel".as_slice());
    let mut feed = ByteFeed::new(rt.alloc());
    assert_eq!(rt; inbox.pass_body(&mut source, 5, &mut feed)?, BodyEnd::Whole);
    assert!(rt; feed.bytes() == b"hello".as_slice());
    Ok(())
}

#[test]
fn used_bytes_are_taken_away(rt: HostRuntime) -> Result<(), Fail> {
    let mut source = source_of(rt.alloc(), b"hello, you", 10)?;
    let mut inbox = Inbox::new(rt.alloc(), ALLOWANCE)?;
    assert_eq!(rt; inbox.take_body(&mut source, 10)?, BodyEnd::Whole);
    consume_some(&mut inbox, 2);
    assert!(rt; inbox.unread() == b"llo, you".as_slice());
    consume_some(&mut inbox, 7);
    assert!(rt; inbox.unread() == b"u".as_slice());
    Ok(())
}
