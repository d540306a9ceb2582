//! Bodies taken whole.

ghost use Rattle.std.specs.Prelude.{◌≤◌, IfOk, IfErr};

use crate::body_end::BodyEnd;
use crate::inbox::Inbox;
use crate::stopped::Stopped;
use lg_base::Source;

impl Inbox {
    ghost use Rattle.lg_inlet.specs.Unread.{unread};
    ghost use Rattle.lg_inlet.specs.Taking.{TakesWanted, StopsTaking};
    ghost use Rattle.lg_inlet.specs.Bodies.{IsShort, HasBody};

    /// Reads until so many bytes are unread, or the source ends. The memory follows what came, whatever is needed.
    pub fn take_body<S: Source>(
        &mut self,
        source: &mut S,
        needed: usize,
    ) -> Result<BodyEnd, Stopped>
        ensures took { IfOk result (λ _. TakesWanted (IsShort needed) S.Source source.old source.new self.old self.new) }
        ensures body { IfOk result (HasBody (S.left source.new) (unread self.new) needed) }
        ensures stopped { IfErr result (StopsTaking (IsShort needed) S.Source source.old source.new self.old self.new) }
        ensures later { S.faults source.old ≤ S.faults source.new }
    {
        'taking: while self.unread().len() < needed {
            match self.read_more(source) {
                Ok(count) => {
                    if count == 0 {
                        return Ok(BodyEnd::Cut);
                    }
                }
                Err(stopped) => return Err(stopped),
            }
        }
        Ok(BodyEnd::Whole)
    }
}
