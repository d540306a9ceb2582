//! Sources over memory.

ghost use Rattle.std.specs.Prelude.{◌≡◌, ◌≤◌, ◌<◌, ◌+◌, Some, length, take, drop, IfOk, OnErr};
ghost use Rattle.lg_base.specs.Growth.{HasCause};
ghost use Rattle.lg_base.specs.Told.{given, IsAtEnd};

use crate::sink::Failed;
use crate::source::Source;

/// A source over bytes in memory that never fails.
#[derive(Drop)]
pub struct CalmSource {
    bytes: Vec<u8>,
    taken: usize,
    piece: usize,
    ghost within: { taken ≤ length bytes.items },
    ghost some: { 0 < piece },
}

impl CalmSource {
    /// A source of these bytes, which gives at most `piece` bytes a read.
    pub fn new(bytes: Vec<u8>, piece: usize) -> CalmSource
        requires { 0 < piece }
        ensures { ⟦<CalmSource as Source>⟧.left result ≡ Some bytes.items }
    {
        CalmSource {
            bytes,
            taken: 0,
            piece,
        }
    }
}

impl Source for CalmSource {
    ghost left = { λ s. Some (drop s.taken s.bytes.items) };

    ghost faults = { λ _. 0 };

    fn read(&mut self, into: &mut [u8]) -> Result<usize, Failed> {
        let count = give_piece(&self.bytes[self.taken..], into, self.piece);
        self.taken += count;
        Ok(count)
    }
}

/// A source over bytes in memory that fails at the listed reads, which count from 1.
#[derive(Drop)]
pub struct MemSource {
    bytes: Vec<u8>,
    taken: usize,
    piece: usize,
    fails: Vec<u64>,
    reads: u64,
    faults: u64,
    ghost within: { taken ≤ length bytes.items },
    ghost some: { 0 < piece },
}

impl MemSource {
    /// A source of these bytes, which gives at most `piece` bytes a read.
    pub fn new(bytes: Vec<u8>, fails: Vec<u64>, piece: usize) -> MemSource
        requires { 0 < piece }
        ensures left { ⟦<MemSource as Source>⟧.left result ≡ Some bytes.items }
        ensures faults { ⟦<MemSource as Source>⟧.faults result ≡ 0 }
    {
        MemSource {
            bytes,
            taken: 0,
            piece,
            fails,
            reads: 0,
            faults: 0,
        }
    }
}

impl Source for MemSource {
    ghost left = { λ s. Some (drop s.taken s.bytes.items) };

    ghost faults = { λ s. s.faults };

    fn read(&mut self, into: &mut [u8]) -> Result<usize, Failed> {
        self.reads = self.reads.saturating_add(1);
        if self.fails.contains(&self.reads) {
            self.faults = self.faults.saturating_add(1);
            return Err(Failed);
        }
        let count = give_piece(&self.bytes[self.taken..], into, self.piece);
        self.taken += count;
        Ok(count)
    }
}

/// Copies the first bytes that are left, at most `piece` of them, and tells how many.
fn give_piece(left: &[u8], into: &mut [u8], piece: usize) -> usize
    requires { 0 < piece }
    ensures within { result ≤ length left.now }
    ensures bound { result ≤ length into.new }
    ensures copied { take result into.new ≡ take result left.now }
    ensures end { result ≡ 0 → 0 < length into.old → length left.now ≡ 0 }
{
    let count = piece.min(into.len()).min(left.len());
    into[..count].copy_from_slice(&left[..count]);
    count
}
