//! Marks: which call appended an event.

use crate::records::Event;
use lg_base::NoMemory;
use lg_containers::Duplicate;
use std::alloc::Global;

/// A call, by its caller and by the number of its line or of its message.
#[derive(Clone, Copy, PartialEq, Eq)]
pub struct Mark {
    pub caller: u32,
    pub line: u64,
}

/// An event with the mark of the call that appended it.
#[derive(Drop)]
pub struct Marked {
    pub event: Event,
    /// The mark of the call, and none for the event that every list begins with.
    pub mark: Option<Mark>,
    /// How many events of the same call follow.
    pub following: u64,
}

impl Duplicate for Mark {
    fn copy(&self, _alloc: Global) -> Result<Mark, NoMemory> {
        Ok(*self)
    }
}

impl Duplicate for Marked {
    fn copy(&self, alloc: Global) -> Result<Marked, NoMemory> {
        Ok(Marked {
            event: self.event.copy(alloc)?,
            mark: self.mark.copy(alloc)?,
            following: self.following,
        })
    }
}
