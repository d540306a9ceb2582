//! Sinks over memory. They take all their memory when they are made.

ghost use Rattle.std.specs.Prelude.{◌≡◌, ◌≤◌, ◌<◌, ◌++◌, [], Some, length, take, IfOk, OnErr, vec_capacity};
ghost use Rattle.lg_base.specs.Growth.{HasCause};
ghost use Rattle.lg_base.specs.Told.{added};

use crate::sink::{Failed, Sink};
use std::alloc::{AllocError as NoMemory, Global};

/// A sink over memory that fails only where its room is used up.
#[derive(Drop)]
pub struct CalmSink {
    bytes: Vec<u8>,
    room: usize,
    faults: u64,
    ghost has_room: { room ≤ vec_capacity bytes },
}

impl CalmSink {
    /// A sink with room for so many bytes, which holds nothing.
    pub fn new(alloc: Global, room: usize) -> Result<CalmSink, NoMemory>
        ensures written { IfOk result (λ s. ⟦<CalmSink as Sink>⟧.written s ≡ Some []) }
        ensures faults { IfOk result (λ s. ⟦<CalmSink as Sink>⟧.faults s ≡ 0) }
        ensures room { IfOk result (λ s. s.room ≡ room) }
    {
        let bytes = Vec::with_capacity(alloc, room)?;
        Ok(CalmSink {
            bytes,
            room,
            faults: 0,
        })
    }

    /// What was written.
    pub fn written(&self) -> &[u8]
        ensures { ⟦<CalmSink as Sink>⟧.written self.now ≡ Some result.now }
    {
        self.bytes.as_slice()
    }
}

impl Sink for CalmSink {
    ghost written = { λ s. Some s.bytes.items };

    ghost faults = { λ s. s.faults };

    fn write(&mut self, piece: &[u8]) -> Result<usize, Failed>
        ensures bound { IfOk result (λ n. n ≤ length piece.now) }
        ensures some { IfOk result (λ n. 0 < length piece.now → 0 < n) }
        ensures bytes { IfOk result (λ n. Some self.new.bytes.items ≡ added (Some self.old.bytes.items) (take n piece.now)) }
        ensures failed { OnErr result (Some self.new.bytes.items ≡ Some self.old.bytes.items) }
        ensures cause { HasCause self.old.faults self.new.faults result }
        ensures full { OnErr result (self.old.room ≤ length self.old.bytes.items) }
        ensures room { self.new.room ≡ self.old.room }
    {
        match take_piece(&mut self.bytes, self.room, piece, piece.len()) {
            Ok(count) => Ok(count),
            Err(Failed) => {
                self.faults = self.faults.saturating_add(1);
                Err(Failed)
            }
        }
    }
}

/// A sink over memory that takes at most so many bytes a write, and fails at the listed writes, which count from 1, and
/// where its room is used up.
#[derive(Drop)]
pub struct MemSink {
    bytes: Vec<u8>,
    room: usize,
    piece: usize,
    fails: Vec<u64>,
    writes: u64,
    faults: u64,
    ghost has_room: { room ≤ vec_capacity bytes },
    ghost some: { 0 < piece },
}

impl MemSink {
    /// A sink with room for so many bytes, which holds nothing.
    pub fn new(
        alloc: Global,
        fails: Vec<u64>,
        piece: usize,
        room: usize,
    ) -> Result<MemSink, NoMemory>
        requires { 0 < piece }
        ensures written { IfOk result (λ s. ⟦<MemSink as Sink>⟧.written s ≡ Some []) }
        ensures faults { IfOk result (λ s. ⟦<MemSink as Sink>⟧.faults s ≡ 0) }
    {
        let bytes = Vec::with_capacity(alloc, room)?;
        Ok(MemSink {
            bytes,
            room,
            piece,
            fails,
            writes: 0,
            faults: 0,
        })
    }

    /// What was written.
    pub fn written(&self) -> &[u8]
        ensures { ⟦<MemSink as Sink>⟧.written self.now ≡ Some result.now }
    {
        self.bytes.as_slice()
    }

    /// Whether the next write is one that fails.
    fn fails_now(&mut self) -> bool
        ensures { (self.new.bytes.items ≡ self.old.bytes.items) × (self.new.faults ≡ self.old.faults) }
    {
        self.writes = self.writes.saturating_add(1);
        self.fails.contains(&self.writes)
    }
}

impl Sink for MemSink {
    ghost written = { λ s. Some s.bytes.items };

    ghost faults = { λ s. s.faults };

    fn write(&mut self, piece: &[u8]) -> Result<usize, Failed> {
        let taken = if self.fails_now() {
            Err(Failed)
        } else {
            take_piece(&mut self.bytes, self.room, piece, self.piece)
        };
        match taken {
            Ok(count) => Ok(count),
            Err(Failed) => {
                self.faults = self.faults.saturating_add(1);
                Err(Failed)
            }
        }
    }
}

/// Puts the first bytes of the piece, at most so many, behind the bytes, as far as there is room.
fn take_piece(bytes: &mut Vec<u8>, room: usize, piece: &[u8], most: usize) -> Result<usize, Failed>
    requires room { room ≤ vec_capacity bytes.old }
    requires some { 0 < length piece.now → 0 < most }
    ensures bound { IfOk result (λ n. n ≤ length piece.now) }
    ensures some { IfOk result (λ n. 0 < length piece.now → 0 < n) }
    ensures bytes { IfOk result (λ n. bytes.new.items ≡ bytes.old.items ++ take n piece.now) }
    ensures failed { OnErr result (bytes.new.items ≡ bytes.old.items) }
    ensures full { OnErr result (room ≤ length bytes.old.items) }
    ensures room { room ≤ vec_capacity bytes.new }
{
    if piece.is_empty() {
        return Ok(0);
    }
    if room <= bytes.len() {
        return Err(Failed);
    }
    let count = most.min(piece.len()).min(room - bytes.len());
    match bytes.extend_from_slice(&piece[..count]) {
        Ok(()) => Ok(count),
        Err(_) => unreachable!(),
    }
}
