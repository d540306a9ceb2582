//! The bytes that came from a source and aren't used yet.

ghost use Rattle.std.specs.Prelude.{◌≡◌, ◌<◌, ◌≤◌, length, drop, Some, IfOk, IfErr, []};

use crate::reading::append_read;
use crate::stopped::Stopped;
use lg_base::{NoMemory, Source};
use std::alloc::Global;

/// How many bytes a read asks for at most.
const CHUNK: usize = 65536;

/// Bytes that came from a source. They are kept until they are used, so the memory follows what came.
#[derive(Drop)]
pub struct Inbox {
    /// The bytes; those before `start` are used.
    bytes: Vec<u8>,
    start: usize,
    /// How many more bytes may be taken.
    allowance: u64,
    /// Where a read puts its bytes.
    chunk: Vec<u8>,
    ghost within: { start ≤ length bytes.items },
    ghost some: { 0 < length chunk.items },
}

impl Inbox {
    ghost use Rattle.lg_inlet.specs.Unread.{unread, allowance_of};
    ghost use Rattle.lg_inlet.specs.Taking.{TakesOnce, StopsReading};

    /// An inbox that holds nothing and may take so many bytes.
    pub fn new(alloc: Global, allowance: u64) -> Result<Inbox, NoMemory>
        ensures unread { IfOk result (λ inbox. unread inbox ≡ []) }
        ensures allowance { IfOk result (λ inbox. allowance_of inbox ≡ allowance) }
    {
        let chunk = vec![in alloc; 0u8; CHUNK]?;
        Ok(Inbox {
            bytes: Vec::new(alloc),
            start: 0,
            allowance,
            chunk,
        })
    }

    /// The bytes that aren't used yet.
    pub fn unread(&self) -> &[u8]
        ensures { result.now ≡ unread self.now }
    {
        &self.bytes[self.start..]
    }

    /// Takes the first bytes away. What is left moves to the front only where no more bytes move than were used since
    /// it last did.
    pub fn consume(&mut self, count: usize)
        requires { count ≤ length (unread self.old) }
        ensures unread { unread self.new ≡ drop count (unread self.old) }
        ensures allowance { allowance_of self.new ≡ allowance_of self.old }
    {
        self.start += count;
        if self.start < self.bytes.len() - self.start {
            return;
        }
        self.move_to_front();
    }

    /// Moves the unread bytes to the front, and gives memory back that they don't need.
    fn move_to_front(&mut self)
        ensures unread { unread self.new ≡ unread self.old }
        ensures allowance { allowance_of self.new ≡ allowance_of self.old }
    {
        let count = self.bytes.len() - self.start;
        self.bytes.copy_within(self.start.., 0);
        self.bytes.truncate(count);
        self.start = 0;
        self.bytes.shrink_to(2 * CHUNK);
    }

    /// Reads once, and puts what came behind the unread bytes. Answers how many bytes that were.
    pub(crate) fn read_more<S: Source>(&mut self, source: &mut S) -> Result<usize, Stopped>
        ensures took { IfOk result (TakesOnce S.Source source.old source.new self.old self.new) }
        ensures stopped { IfErr result (StopsReading S.Source source.old source.new self.old self.new) }
        ensures later { S.faults source.old ≤ S.faults source.new }
    {
        if self.allowance == 0 {
            return Err(Stopped::Spent);
        }
        let most = self.allowance.min(CHUNK as u64) as usize;
        self.chunk.truncate(most);
        match append_read(source, self.chunk.as_mut_slice(), &mut self.bytes) {
            Ok(count) => {
                self.allowance -= count as u64;
                Ok(count)
            }
            Err(stopped) => Err(stopped),
        }
    }
}
