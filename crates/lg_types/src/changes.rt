//! Changes of metadata.

use lg_base::NoMemory;
use lg_containers::{Duplicate, Meta, Text};
use std::alloc::Global;

/// What one entry does to the metadata of one target.
#[derive(Drop)]
pub enum MetaChange {
    /// Each name gets its value, in place of one that it has.
    Set(Meta),
    /// The name is taken out.
    Drop(Text),
}

impl Duplicate for MetaChange {
    fn copy(&self, alloc: Global) -> Result<MetaChange, NoMemory> {
        match self {
            MetaChange::Set(metadata) => Ok(MetaChange::Set(metadata.copy(alloc)?)),
            MetaChange::Drop(name) => Ok(MetaChange::Drop(name.copy(alloc)?)),
        }
    }
}
