//! Answers: what became of a line of a script, or of a message.

use crate::replies::Reply;
use lg_base::NoMemory;
use lg_containers::Duplicate;
use std::alloc::Global;

/// What became of a call.
#[derive(Drop)]
pub struct Answer {
    /// How many events there were before it.
    pub front: u64,
    /// How many events it appended.
    pub events: u64,
    pub reply: Reply,
}

impl Duplicate for Answer {
    fn copy(&self, alloc: Global) -> Result<Answer, NoMemory> {
        Ok(Answer {
            front: self.front,
            events: self.events,
            reply: self.reply.copy(alloc)?,
        })
    }
}
