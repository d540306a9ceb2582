//! Sinks: where bytes are written to.

ghost use Rattle.std.specs.Prelude.{◌≡◌, ℕ, ◌<◌, ◌≤◌, List, length, take, Option, IfOk, OnErr};
ghost use Rattle.lg_base.specs.Growth.{HasCause};
ghost use Rattle.lg_base.specs.Told.{added};

/// A read or a write of the outside world failed.
#[derive(Clone, Copy, PartialEq, Eq, Debug)]
pub struct Failed;

/// Where bytes are written to: a file, a terminal, a socket, or memory.
pub trait Sink {
    /// The bytes that the sink has taken, where it tells them.
    ghost written: { Self → Option (List ℕ) };

    /// How many writes have failed; never falls.
    ghost faults: { Self → ℕ };

    /// Takes some front of the piece, at least a byte of one that isn't empty, and tells how many bytes it took.
    fn write(&mut self, piece: &[u8]) -> Result<usize, Failed>
        ensures bound { IfOk result (λ n. n ≤ length piece.now) }
        ensures some { IfOk result (λ n. 0 < length piece.now → 0 < n) }
        ensures bytes { IfOk result (λ n. written self.new ≡ added (written self.old) (take n piece.now)) }
        ensures failed { OnErr result (written self.new ≡ written self.old) }
        ensures cause { HasCause (faults self.old) (faults self.new) result };
}
