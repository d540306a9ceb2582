//! Heads found in the bytes that come.

ghost use Rattle.std.specs.Prelude.{◌≡◌, ◌≢◌, ◌≤◌, ℕ, List, length, Option, IfOk, IfErr};
ghost use Rattle.lg_base.specs.Told.{IsAtEnd};
ghost use Rattle.lg_heads.specs.Scanning.{place_of, HasCounted, HasNoHead, HasStopped};
ghost use Rattle.lg_heads.specs.Verdicts.{IsOpen};
ghost use Rattle.lg_inlet.specs.Finding.{IsFound, IsLook};

use crate::found::Found;
use crate::inbox::Inbox;
use crate::stopped::Stopped;
use lg_base::Source;
use lg_heads::{HeadScan, Seen, Verdict, judge};

impl Inbox {
    ghost use Rattle.lg_heads.specs.Verdicts.{IsOpen, WantsMore};
    ghost use Rattle.lg_inlet.specs.Unread.{unread};
    ghost use Rattle.lg_inlet.specs.Taking.{TakesWanted, StopsTaking};

    /// Finds the next head at the front of the unread bytes, and reads as long as there is neither a whole head nor a
    /// limit passed. The head stays unread.
    pub fn find_head<S: Source>(&mut self, source: &mut S) -> Result<Found, Stopped>
        ensures took { IfOk result (λ _. TakesWanted WantsMore S.Source source.old source.new self.old self.new) }
        ensures found { IfOk result (IsFound (S.left source.new) (unread self.new)) }
        ensures stopped { IfErr result (StopsTaking IsOpen S.Source source.old source.new self.old self.new) }
        ensures later { S.faults source.old ≤ S.faults source.new }
    {
        let mut scan = HeadScan::new();
        let mut next_look = 0;
        'finding: loop {
            let bytes = self.unread();
            let seen = scan.advance(bytes);
            match look(bytes, &scan, seen, &mut next_look) {
                Verdict::Whole(head) => return Ok(Found::Whole(head)),
                Verdict::Bad => return Ok(Found::Bad),
                Verdict::Long => return Ok(Found::Long),
                Verdict::Open => {}
            }
            let Seen::All = seen else {
                continue 'finding;
            };
            match self.read_more(source) {
                Ok(count) => {
                    if count == 0 {
                        return Ok(found_at_end(self.unread(), &scan));
                    }
                }
                Err(stopped) => return found_or_stopped(self.unread(), &scan, stopped),
            }
        }
    }
}

/// Judges what the scan has looked at, where it stopped by itself or has twice the bytes of the last look; so all looks
/// at a head together take time in proportion to its bytes.
fn look(bytes: &[u8], scan: &HeadScan, seen: Seen, next_look: &mut usize) -> Verdict
    requires counted { HasCounted scan.now bytes.now }
    requires stopped { HasStopped scan.now bytes.now seen }
    ensures verdict { IsLook bytes.now scan.now result }
    ensures open { result ≡ Verdict.Open → seen ≢ Seen.Full }
{
    if let Seen::All = seen
        && scan.at() < *next_look
    {
        return Verdict::Open;
    }
    *next_look = scan.at().saturating_mul(2);
    judge(bytes, scan, seen)
}

/// What stands at the front where no more bytes come, and the scan has looked at all the bytes. A head that isn't whole
/// yet answers why no more come, and so does want of memory.
fn found_or_stopped(bytes: &[u8], scan: &HeadScan, stopped: Stopped) -> Result<Found, Stopped>
    requires counted { HasCounted scan.now bytes.now }
    requires all { place_of scan.now ≡ length bytes.now }
    requires none { HasNoHead scan.now bytes.now }
    ensures found { (left : Option (List ℕ)) → IfOk result (IsFound left bytes.now) }
    ensures memory { IfOk result (λ _. stopped ≢ Stopped.NoMemory) }
    ensures same { IfErr result (λ why. why ≡ stopped) }
    ensures open { stopped ≢ Stopped.NoMemory → IfErr result (λ _. IsOpen bytes.now) }
{
    if let Stopped::NoMemory = stopped {
        return Err(stopped);
    }
    match judge(bytes, scan, Seen::All) {
        Verdict::Whole(head) => Ok(Found::Whole(head)),
        Verdict::Bad => Ok(Found::Bad),
        Verdict::Long => Ok(Found::Long),
        Verdict::Open => Err(stopped),
    }
}

/// What stands at the front where the source has ended, and the scan has looked at all the bytes.
fn found_at_end(bytes: &[u8], scan: &HeadScan) -> Found
    requires counted { HasCounted scan.now bytes.now }
    requires all { place_of scan.now ≡ length bytes.now }
    requires none { HasNoHead scan.now bytes.now }
    ensures { (left : Option (List ℕ)) → IsAtEnd left → IsFound left bytes.now result }
{
    match judge(bytes, scan, Seen::All) {
        Verdict::Whole(head) => Found::Whole(head),
        Verdict::Bad => Found::Bad,
        Verdict::Long => Found::Long,
        Verdict::Open if bytes.is_empty() => Found::Closed,
        Verdict::Open => Found::Cut,
    }
}
