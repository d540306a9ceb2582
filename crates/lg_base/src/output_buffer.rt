//! The bytes that wait in front of a sink.

ghost use Rattle.std.specs.Prelude.{◌≡◌, ◌≤◌, ◌+◌, [], ◌++◌, length, take, drop, IfOk};

use std::alloc::{AllocError as NoMemory, Global};

/// How many bytes wait in front of a sink at most.
pub const ROOM: usize = 65536;

/// The bytes that wait in front of a sink: those from `start` up to `end`. It takes all its memory when it is made.
#[derive(Drop)]
pub struct OutputBuffer {
    pub(crate) bytes: Vec<u8>,
    pub(crate) start: usize,
    pub(crate) end: usize,
    ghost room: { length bytes.items ≡ 65536 },
    ghost within: { start ≤ end },
    ghost inside: { end ≤ 65536 },
}

impl OutputBuffer {
    /// A buffer in which nothing waits.
    pub fn new(alloc: Global) -> Result<OutputBuffer, NoMemory>
        ensures { IfOk result (λ b. drop b.start (take b.end b.bytes.items) ≡ []) }
    {
        let mut bytes = Vec::new(alloc);
        bytes.resize(ROOM, 0)?;
        Ok(OutputBuffer {
            bytes,
            start: 0,
            end: 0,
        })
    }

    /// Puts the bytes behind those that wait.
    pub(crate) fn append(&mut self, bytes: &[u8])
        requires { self.old.end + length bytes.now ≤ 65536 }
        ensures { drop self.new.start (take self.new.end self.new.bytes.items) ≡ drop self.old.start (take self.old.end self.old.bytes.items) ++ bytes.now }
    {
        let after = self.end + bytes.len();
        copy_into(self.bytes.as_mut_slice(), self.end, bytes);
        self.end = after;
    }
}

/// Copies the bytes to the place.
fn copy_into(to: &mut [u8], place: usize, bytes: &[u8])
    requires { place + length bytes.now ≤ length to.old }
    ensures front { take (place + length bytes.now) to.new ≡ take place to.old ++ bytes.now }
    ensures len { length to.new ≡ length to.old }
{
    to[place..place + bytes.len()].copy_from_slice(bytes);
}
