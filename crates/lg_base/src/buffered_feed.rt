//! A feed over a borrowed sink with a buffer of bounded size between, so that small pieces make few writes.

ghost use Rattle.std.specs.Prelude.{◌≡◌, ◌≤◌, ◌<◌, ◌+◌, [], length, drop, IfOk};
ghost use Rattle.lg_base.specs.Growth.{Gives};
ghost use Rattle.lg_base.specs.Buffering.{Ahead, PassesOn};
ghost use Rattle.lg_base.specs.Waiting.{waiting, AheadOf};

use crate::feed::{Feed, Stop};
use crate::output_buffer::{OutputBuffer, ROOM};
use crate::sink::{Failed, Sink};
use crate::sink_feed::write_whole;

/// Feeds a sink through a buffer: what was fed is what the sink holds, followed by what waits. Each stop is a fault of
/// the sink.
#[derive(Drop)]
pub struct BufferedFeed<'a, K: Sink> {
    sink: &'a mut K,
    buffer: &'a mut OutputBuffer,
}

impl<'a, K: Sink> BufferedFeed<'a, K> {
    /// A feed of this sink. What the sink holds already counts as fed.
    pub fn new(sink: &'a mut K, buffer: &'a mut OutputBuffer) -> BufferedFeed<'a, K>
        ensures same_reference { result.sink.ghost_name ≡ sink.entry.ghost_name }
        ensures sink { result.sink.now ≡ sink.old }
        ensures buffer { result.buffer.now ≡ buffer.old }
    {
        BufferedFeed { sink, buffer }
    }

    /// Writes what waits.
    pub fn flush(&mut self) -> Result<(), Stop>
        ensures passed { PassesOn (K.written self.old.sink.now) (K.written self.new.sink.now) (waiting self.old.buffer.now) (waiting self.new.buffer.now) (K.faults self.old.sink.now) (K.faults self.new.sink.now) result }
        ensures same_reference { self.new.sink.ghost_name ≡ self.old.sink.ghost_name }
        ensures empty { IfOk result (λ _. waiting self.new.buffer.now ≡ []) }
    {
        write_waiting(self.sink, self.buffer)
    }
}

/// Writes the waiting bytes, in as many writes as the sink needs.
fn write_waiting<K: Sink>(sink: &mut K, buffer: &mut OutputBuffer) -> Result<(), Stop>
    ensures passed { PassesOn (K.written sink.old) (K.written sink.new) (waiting buffer.old) (waiting buffer.new) (K.faults sink.old) (K.faults sink.new) result }
    ensures empty { IfOk result (λ _. waiting buffer.new ≡ []) }
    ensures room { IfOk result (λ _. buffer.new.end ≡ 0) }
{
    write_from(sink, &buffer.bytes[..buffer.end], &mut buffer.start)?;
    buffer.start = 0;
    buffer.end = 0;
    Ok(())
}

/// Writes the bytes from a place on, and moves the place past what was written.
fn write_from<K: Sink>(sink: &mut K, bytes: &[u8], start: &mut usize) -> Result<(), Stop>
    requires { start.old ≤ length bytes.now }
    ensures within { start.new ≤ length bytes.now }
    ensures whole { IfOk result (λ _. length bytes.now ≤ start.new) }
    ensures passed { PassesOn (K.written sink.old) (K.written sink.new) (drop start.old bytes.now) (drop start.new bytes.now) (K.faults sink.old) (K.faults sink.new) result }
{
    'writing: while *start < bytes.len() {
        match sink.write(&bytes[*start..]) {
            Ok(count) => *start += count,
            Err(Failed) => return Err(Stop),
        }
    }
    Ok(())
}

impl<'a, K: Sink> Feed for BufferedFeed<'a, K> {
    ghost fed = { λ f m. Ahead (K.written f.sink.now) (waiting f.buffer.now) m };

    ghost stops = { λ f. K.faults f.sink.now };

    ghost lent = { λ f. f.sink.ghost_name };

    fn piece(&mut self, bytes: &[u8]) -> Result<(), Stop> {
        give_buffered(self.sink, self.buffer, bytes)
    }
}

/// Puts the bytes behind those that wait; writes where there is no room for them.
fn give_buffered<K: Sink>(sink: &mut K, buffer: &mut OutputBuffer, bytes: &[u8]) -> Result<(), Stop>
    ensures { Gives (AheadOf K.written) (λ p. K.faults p.0) (λ _. 0) (sink.old, buffer.old) (sink.new, buffer.new) bytes.now result }
{
    match make_room(sink, buffer, bytes.len()) {
        Ok(()) => {}
        Err(Stop) => return Err(Stop),
    }
    if bytes.len() > ROOM {
        return write_whole(sink, bytes);
    }
    buffer.append(bytes);
    Ok(())
}

/// Writes what waits where there is no room for so many bytes behind it.
fn make_room<K: Sink>(sink: &mut K, buffer: &mut OutputBuffer, count: usize) -> Result<(), Stop>
    ensures passed { PassesOn (K.written sink.old) (K.written sink.new) (waiting buffer.old) (waiting buffer.new) (K.faults sink.old) (K.faults sink.new) result }
    ensures small { IfOk result (λ _. count ≤ 65536 → buffer.new.end + count ≤ 65536) }
    ensures large { IfOk result (λ _. 65536 < count → waiting buffer.new ≡ []) }
{
    if count > ROOM || buffer.end > ROOM - count {
        write_waiting(sink, buffer)
    } else {
        Ok(())
    }
}
