//! Sums of counts that are kept in 32 bits.

ghost use Rattle.std.specs.Prelude.{◌≡◌, ◌+◌, ◌≤◌, ◌^◌, IfOk, OnErr};

use list_base::small;
use std::alloc::AllocError;

/// A count and more. 2^32 or more are refused. Constant time.
pub fn more(count: u32, by: usize) -> Result<u32, AllocError>
    ensures sum { IfOk result (λ n. n ≡ count + by) }
    ensures err { OnErr result (2 ^ 32 ≤ count + by) }
{
    match small((count as usize).saturating_add(by)) {
        Some(n) => Ok(n),
        None => Err(AllocError),
    }
}
