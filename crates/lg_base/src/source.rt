//! Sources: where bytes are read from.

ghost use Rattle.std.specs.Prelude.{◌≡◌, ℕ, ◌<◌, ◌≤◌, List, length, take, Option, IfOk, OnErr};
ghost use Rattle.lg_base.specs.Growth.{HasCause};
ghost use Rattle.lg_base.specs.Told.{given, IsAtEnd};

use crate::sink::Failed;

/// Where bytes are read from: a file, a terminal, a socket, or memory.
pub trait Source {
    /// The bytes that are still to come, where the source tells them.
    ghost left: { Self → Option (List ℕ) };

    /// How many reads have failed; never falls.
    ghost faults: { Self → ℕ };

    /// Puts some of the bytes to come at the slice's beginning and tells how many; none of them into a slice that
    /// isn't empty is the end.
    fn read(&mut self, into: &mut [u8]) -> Result<usize, Failed>
        ensures bound { IfOk result (λ n. n ≤ length into.new) }
        ensures bytes { IfOk result (λ n. left self.old ≡ given (take n into.new) (left self.new)) }
        ensures end { IfOk result (λ n. n ≡ 0 → 0 < length into.old → IsAtEnd (left self.old)) }
        ensures failed { OnErr result (left self.new ≡ left self.old) }
        ensures cause { HasCause (faults self.old) (faults self.new) result };
}
