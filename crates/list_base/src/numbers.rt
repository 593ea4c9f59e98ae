//! The limit of numbers that are kept in 32 bits, in one place.

ghost use Rattle.std.specs.Prelude.{◌≡◌, ◌<◌, ◌≤◌, ◌^◌, IfOk, MatchOption, OnErr, OnOk};

use std::alloc::AllocError;

/// The number in 32 bits; none where it is 2^32 or more. Takes no memory and constant time.
pub fn small(n: usize) -> Option<u32>
    ensures { MatchOption result (2 ^ 32 ≤ n) (λ m. m ≡ n) }
{
    match u32::try_from(n) {
        Ok(number) => Some(number),
        Err(_) => None,
    }
}

/// The number in 32 bits; want of memory where it is 2^32 or more. Takes no memory and constant
/// time.
pub fn number(n: usize) -> Result<u32, AllocError>
    ensures ok { IfOk result (λ m. m ≡ n) }
    ensures few { OnOk result (n < 2 ^ 32) }
    ensures err { OnErr result (2 ^ 32 ≤ n) }
{
    match small(n) {
        Some(m) => Ok(m),
        None => Err(AllocError),
    }
}
