//! Sinks and sources over memory that fail at listed calls, a buffer in front of a sink, and feeds of text.

use lg_base::{
    BufferedFeed, ByteFeed, CalmSink, CalmSource, CountFeed, Feed, MemSink, MemSource,
    OutputBuffer, ReadEnd, SinkFeed, Stop, feed_json_text, feed_number, read_all, write_whole,
};
use std::test::Fail;

#[test]
fn a_number_and_a_text_are_fed(rt: HostRuntime) -> Result<(), Fail> {
    let mut feed = ByteFeed::new(rt.alloc());
    feed_number(-170141183460469231731687303715884105728, &mut feed)
        .ok()
        .ok_or("number")?;
    feed_json_text(b"a\"b\\c\x08\x09\x0a\x0c\x0d\x1f/\x7f\xc3\xa9", &mut feed)
        .ok()
        .ok_or("text")?;
    let wanted =
        b"-170141183460469231731687303715884105728\"a\\\"b\\\\c\\b\\t\\n\\f\\r\\u001f/\x7f\xc3\xa9\"";
    assert!(rt; feed.bytes() == wanted.as_slice());
    assert_eq!(rt; feed.into_bytes().len(), wanted.len());
    Ok(())
}

#[test]
fn what_is_fed_is_counted(rt: HostRuntime) -> Result<(), Fail> {
    let mut count = CountFeed::new();
    feed_json_text(b"abc", &mut count).ok().ok_or("count")?;
    assert_eq!(rt; count.number(), 5);
    Ok(())
}

#[test]
fn a_sink_without_room_fails(rt: HostRuntime) -> Result<(), Fail> {
    let mut calm = CalmSink::new(rt.alloc(), 8)?;
    assert_eq!(rt; SinkFeed::new(&mut calm).piece(b"12345"), Ok(()));
    assert_eq!(rt; write_whole(&mut calm, b"6789"), Err(Stop));
    assert!(rt; calm.written() == b"12345678".as_slice());
    Ok(())
}

#[test]
fn the_third_write_fails(rt: HostRuntime) -> Result<(), Fail> {
    let fails = vec![in rt.alloc(); 3u64]?;
    let mut sink = MemSink::new(rt.alloc(), fails, 2, 100)?;
    assert_eq!(rt; write_whole(&mut sink, b"abcdefg"), Err(Stop));
    assert!(rt; sink.written() == b"abcd".as_slice());
    Ok(())
}

fn feed_through(sink: &mut MemSink, buffer: &mut OutputBuffer) -> Result<(), Stop> {
    let mut feed = BufferedFeed::new(sink, buffer);
    feed.piece(b"abc")?;
    feed.piece(b"defgh")?;
    feed.flush()
}

#[test]
fn a_buffer_waits_in_front_of_a_sink(rt: HostRuntime) -> Result<(), Fail> {
    let mut sink = MemSink::new(rt.alloc(), Vec::new(rt.alloc()), 3, 100)?;
    let mut buffer = OutputBuffer::new(rt.alloc())?;
    assert_eq!(rt; feed_through(&mut sink, &mut buffer), Ok(()));
    assert!(rt; sink.written() == b"abcdefgh".as_slice());
    Ok(())
}

#[test]
fn a_source_is_read_to_its_end(rt: HostRuntime) -> Result<(), Fail> {
    let mut source = CalmSource::new(b"abcdefgh".to_vec(rt.alloc())?, 3);
    let read = read_all(rt.alloc(), &mut source, 8).ok().ok_or("read")?;
    assert!(rt; read.as_slice() == b"abcdefgh".as_slice());
    Ok(())
}

#[test]
fn a_source_has_a_byte_too_many(rt: HostRuntime) -> Result<(), Fail> {
    let mut source = CalmSource::new(b"abcdefghi".to_vec(rt.alloc())?, 3);
    assert_eq!(rt;
        read_all(rt.alloc(), &mut source, 8).err(),
        Some(ReadEnd::Limit)
    );
    Ok(())
}

#[test]
fn the_second_read_fails(rt: HostRuntime) -> Result<(), Fail> {
    let fails = vec![in rt.alloc(); 2u64]?;
    let mut source = MemSource::new(b"abcdefgh".to_vec(rt.alloc())?, fails, 3);
    assert_eq!(rt;
        read_all(rt.alloc(), &mut source, 8).err(),
        Some(ReadEnd::Fault)
    );
    let rest = read_all(rt.alloc(), &mut source, 8).ok().ok_or("rest")?;
    assert!(rt; rest.as_slice() == b"defgh".as_slice());
    Ok(())
}
