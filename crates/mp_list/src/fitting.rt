//! Numbers that do not fit the width in which they are kept.

ghost use Rattle.std.specs.Prelude.{◌≡◌, ◌≤◌, ◌^◌, OnErr, IfOk};

use crate::memory::OutOfMemory;

/// What is answered where a number does not fit the width in which it is kept: the same as where it cannot be kept for
/// want of memory.
pub fn does_not_fit() -> OutOfMemory {
    OutOfMemory
}

/// A number in 32 bits. A greater one does not fit.
pub fn to_u32(number: usize) -> Result<u32, OutOfMemory>
    ensures ok { IfOk result (λ kept. kept ≡ number) }
    ensures err { OnErr result (2 ^ 32 ≤ number) }
{
    match u32::try_from(number) {
        Ok(kept) => Ok(kept),
        Err(_) => Err(does_not_fit()),
    }
}
