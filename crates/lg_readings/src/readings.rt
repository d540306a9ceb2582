//! An entry that was read of a line of a log.

use lg_base::NoMemory;
use lg_containers::Duplicate;
use lg_types::Entry;
use std::alloc::Global;

/// An entry that was read of a line of a log, with the line's log form.
#[derive(Drop)]
pub struct ReadEntry {
    pub entry: Entry,
    /// 1 or 2.
    pub form: u8,
}

impl Duplicate for ReadEntry {
    fn copy(&self, alloc: Global) -> Result<ReadEntry, NoMemory> {
        Ok(ReadEntry {
            entry: self.entry.copy(alloc)?,
            form: self.form,
        })
    }
}

/// What an entry records, by the type of its line.
#[derive(Clone, Copy, PartialEq, Eq)]
pub enum EntryType {
    NewTransaction,
    SetMetadata,
    Reverted,
    DeleteMetadata,
}
