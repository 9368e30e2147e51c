//! Copies of values that may hold memory.

ghost use Rattle.std.specs.Prelude.{◌≡◌, IfOk};

use crate::memory::OutOfMemory;
use std::alloc::Global;

/// A copy of a value that may hold memory.
pub trait Copied: Sized {
    /// An equal value. Refuses only for want of memory.
    fn copy(&self) -> Result<Self, OutOfMemory>
        ensures { IfOk result (λ copy. copy ≡ self.now) };

    /// Equal values in the same order, one by one where a type has no quicker way. Refuses only for want of memory.
    fn copy_all(alloc: Global, values: &[Self]) -> Result<Vec<Self>, OutOfMemory>
    where
        Self: Drop,
        ensures { IfOk result (λ copies. copies.items ≡ values.now) }
    {
        let mut copies = Vec::with_capacity(alloc, values.len())?;
        for value in values {
            copies.push(value.copy()?)?;
        }
        Ok(copies)
    }
}

impl Copied for bool {
    fn copy(&self) -> Result<bool, OutOfMemory> {
        Ok(*self)
    }

    fn copy_all(alloc: Global, values: &[bool]) -> Result<Vec<bool>, OutOfMemory> {
        Ok(Vec::from_slice(alloc, values)?)
    }
}

impl Copied for u8 {
    fn copy(&self) -> Result<u8, OutOfMemory> {
        Ok(*self)
    }

    fn copy_all(alloc: Global, values: &[u8]) -> Result<Vec<u8>, OutOfMemory> {
        Ok(Vec::from_slice(alloc, values)?)
    }
}

impl Copied for u32 {
    fn copy(&self) -> Result<u32, OutOfMemory> {
        Ok(*self)
    }

    fn copy_all(alloc: Global, values: &[u32]) -> Result<Vec<u32>, OutOfMemory> {
        Ok(Vec::from_slice(alloc, values)?)
    }
}

impl Copied for u64 {
    fn copy(&self) -> Result<u64, OutOfMemory> {
        Ok(*self)
    }

    fn copy_all(alloc: Global, values: &[u64]) -> Result<Vec<u64>, OutOfMemory> {
        Ok(Vec::from_slice(alloc, values)?)
    }
}
