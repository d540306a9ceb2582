//! Copies, which may want memory.

ghost use Rattle.std.specs.Prelude.{◌≡◌, IfOk};

use crate::fault::NoMemory;
use lg_base::{Amount, Volumes};
use std::alloc::Global;

/// What can be copied. A copy equals its source.
pub trait Duplicate: Drop {
    /// A copy that equals the value, unless memory is wanting.
    fn copy(&self, alloc: Global) -> Result<Self, NoMemory>
        ensures { IfOk result (λ copied. copied ≡ self.now) };
}

impl Duplicate for bool {
    fn copy(&self, _alloc: Global) -> Result<bool, NoMemory> {
        Ok(*self)
    }
}

impl Duplicate for u8 {
    fn copy(&self, _alloc: Global) -> Result<u8, NoMemory> {
        Ok(*self)
    }
}

impl Duplicate for u64 {
    fn copy(&self, _alloc: Global) -> Result<u64, NoMemory> {
        Ok(*self)
    }
}

impl Duplicate for u128 {
    fn copy(&self, _alloc: Global) -> Result<u128, NoMemory> {
        Ok(*self)
    }
}

impl Duplicate for i64 {
    fn copy(&self, _alloc: Global) -> Result<i64, NoMemory> {
        Ok(*self)
    }
}

impl Duplicate for i128 {
    fn copy(&self, _alloc: Global) -> Result<i128, NoMemory> {
        Ok(*self)
    }
}

impl Duplicate for [u8; 32] {
    fn copy(&self, _alloc: Global) -> Result<[u8; 32], NoMemory> {
        Ok(*self)
    }
}

impl Duplicate for Amount {
    fn copy(&self, _alloc: Global) -> Result<Amount, NoMemory> {
        Ok(*self)
    }
}

impl Duplicate for Volumes {
    fn copy(&self, _alloc: Global) -> Result<Volumes, NoMemory> {
        Ok(*self)
    }
}

impl<T: Duplicate> Duplicate for Option<T> {
    fn copy(&self, alloc: Global) -> Result<Option<T>, NoMemory> {
        match self {
            None => Ok(None),
            Some(item) => Ok(Some(item.copy(alloc)?)),
        }
    }
}

impl<A: Duplicate, B: Duplicate> Duplicate for (A, B) {
    fn copy(&self, alloc: Global) -> Result<(A, B), NoMemory> {
        Ok((self.0.copy(alloc)?, self.1.copy(alloc)?))
    }
}

/// Copies of the items, in their order.
pub fn copy_items<T: Duplicate>(alloc: Global, items: &[T]) -> Result<Vec<T>, NoMemory>
    ensures { IfOk result (λ copied. copied.items ≡ items.now) }
{
    let mut copied = Vec::with_capacity(alloc, items.len())?;
    for item in items {
        copied.push(item.copy(alloc)?)?;
    }
    Ok(copied)
}
