//! Bodies passed on as they come.

ghost use Rattle.std.specs.Prelude.{◌≤◌};

use crate::body_end::BodyEnd;
use crate::inbox::Inbox;
use crate::stopped::Stopped;
use lg_base::{Feed, Source};

impl Inbox {
    ghost use Rattle.lg_inlet.specs.Bodies.{PassesBody};

    /// Passes the next so many bytes to a feed as they come, and keeps none of them.
    pub fn pass_body<S: Source, F: Feed>(
        &mut self,
        source: &mut S,
        size: u64,
        to: &mut F,
    ) -> Result<BodyEnd, Stopped>
        ensures passes { PassesBody S.Source F.Feed source.old source.new to.old to.new self.old self.new size result }
        ensures later { S.faults source.old ≤ S.faults source.new }
    {
        let mut wanted = size;
        'passing: loop {
            let part = wanted.min(self.unread().len() as u64) as usize;
            let fed = to.piece(&self.unread()[..part]);
            self.consume(part);
            wanted -= part as u64;
            if fed.is_err() {
                return Err(Stopped::Full);
            }
            if wanted == 0 {
                return Ok(BodyEnd::Whole);
            }
            match self.read_more(source) {
                Ok(count) => {
                    if count == 0 {
                        return Ok(BodyEnd::Cut);
                    }
                }
                Err(stopped) => return Err(stopped),
            }
        }
    }
}
