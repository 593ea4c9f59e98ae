//! A count of bytes that stops at its type's end.

ghost use Rattle.std.specs.Prelude.{◌≡◌, ◌+◌, ◌-◌, ◌^◌, min};
ghost use Rattle.lvs_outside.specs.Token.{count_of};

use crate::token::{Count, none, raise};
use std::snapshot::Snapshot;

#[derive(Drop)]
pub struct Tally {
    pub taken: Snapshot<Count>,
    pub total: u64,
    ghost is_total: { total ≡ min (count_of taken.value) (2 ^ 64 - 1) },
}

impl Tally {
    pub fn new() -> Tally
        ensures { count_of result.taken.value ≡ 0 }
    {
        Tally {
            taken: none(),
            total: 0,
        }
    }

    // Counts so many bytes more.
    pub fn add(&mut self, bytes: usize)
        ensures { count_of self.new.taken.value ≡ count_of self.old.taken.value + bytes }
    {
        raise(&mut self.taken, bytes);
        self.total = self.total.saturating_add(bytes as u64);
    }

    pub fn total(&self) -> u64
        ensures { result ≡ min (count_of self.now.taken.value) (2 ^ 64 - 1) }
    {
        self.total
    }
}
