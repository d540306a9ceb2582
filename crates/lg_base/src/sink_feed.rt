//! A feed over a borrowed sink.

ghost use Rattle.std.specs.Prelude.{◌≡◌};
ghost use Rattle.lg_base.specs.Told.{Told};
ghost use Rattle.lg_base.specs.Feeding.{Writes};

use crate::feed::{Feed, Stop};
use crate::sink::{Failed, Sink};

/// Feeds a sink: what was fed is what the sink holds. Each stop is a fault of the sink.
#[derive(Drop)]
pub struct SinkFeed<'a, K: Sink> {
    sink: &'a mut K,
}

impl<'a, K: Sink> SinkFeed<'a, K> {
    /// A feed of this sink. What the sink holds already counts as fed.
    pub fn new(sink: &'a mut K) -> SinkFeed<'a, K>
        ensures same_reference { result.sink.ghost_name ≡ sink.entry.ghost_name }
        ensures sink { result.sink.now ≡ sink.old }
    {
        SinkFeed { sink }
    }
}

impl<'a, K: Sink> Feed for SinkFeed<'a, K> {
    ghost fed = { λ f m. Told (K.written f.sink.now) m };

    ghost stops = { λ f. K.faults f.sink.now };

    ghost lent = { λ f. f.sink.ghost_name };

    fn piece(&mut self, bytes: &[u8]) -> Result<(), Stop> {
        write_whole(self.sink, bytes)
    }
}

/// Writes all the bytes, in as many writes as the sink needs.
pub fn write_whole<K: Sink>(sink: &mut K, bytes: &[u8]) -> Result<(), Stop>
    ensures { Writes K.Sink sink.old sink.new bytes.now result }
{
    let mut start = 0;
    'writing: while start < bytes.len() {
        match sink.write(&bytes[start..]) {
            Ok(count) => start += count,
            Err(Failed) => return Err(Stop),
        }
    }
    Ok(())
}
