//! A sink in memory, with calls that are to fail.

ghost use Rattle.std.specs.Prelude.{◌≡◌, ◌+◌, ◌<◌, ℕ, List};

use crate::schedule::Schedule;
use crate::token::{Count, none, raise};
use crate::{Failed, Sink};
use std::alloc::Global;
use std::snapshot::Snapshot;

/// Summary bytes in memory, and the calls of `Sink` that are to fail, by number from 1. It tells
/// everything.
///
/// A growth that is refused is a fault. Calls have numbers up to 2^64 - 2.
#[derive(Drop)]
pub struct MemorySink {
    bytes: Vec<u8>,
    write_calls: Snapshot<Count>,
    schedule: Schedule,
}

impl MemorySink {
    ghost use Rattle.std.specs.Prelude.{◌≡◌, []};
    ghost use Rattle.lvs_outside.specs.Store.{Holds};
    ghost use Rattle.lvs_outside.specs.Summary.{SinkIsFresh};
    ghost use Rattle.lvs_outside.specs.MemoryStore.{memory_sink, sink_schedule};

    /// No bytes, and the numbers of the calls that are to fail.
    pub fn new(alloc: Global, failing: Vec<u64>) -> MemorySink
        ensures fresh { SinkIsFresh (memory_sink result) }
        ensures told { (memory_sink result).told ≡ Holds [] }
        ensures failing { (sink_schedule result).failing.items ≡ failing.items }
        ensures calls { (sink_schedule result).calls ≡ 0 }
        ensures refused { (sink_schedule result).refused ≡ 0 }
    {
        MemorySink {
            bytes: Vec::new(alloc),
            write_calls: none(),
            schedule: Schedule::new(failing),
        }
    }

    /// The bytes taken so far.
    pub fn bytes(&self) -> &[u8]
        ensures { (memory_sink self.now).told ≡ Holds result.now }
    {
        self.bytes.as_slice()
    }

    /// The growths refused so far. The count of faults is this number plus the number of listed
    /// calls that were reached.
    pub fn refused(&self) -> u64
        ensures { result ≡ (sink_schedule self.now).refused }
    {
        self.schedule.refused
    }
}

impl Sink for MemorySink {
    ghost use Rattle.lvs_outside.specs.Summary.{SinkHasRoom, Takes};
    ghost use Rattle.lvs_outside.specs.Schedule.{IsNumbered};
    ghost use Rattle.lvs_outside.specs.MemoryStore.{memory_sink, sink_schedule};

    ghost state = { memory_sink };

    fn write(&mut self, piece: &[u8]) -> Result<usize, Failed>
        requires { SinkHasRoom (memory_sink self.old) }
        ensures takes { Takes (memory_sink self.old) (memory_sink self.new) piece.now result }
        ensures numbered { IsNumbered (sink_schedule self.old) (sink_schedule self.new) result }
    {
        raise(&mut self.write_calls, 1);
        if self.schedule.reach() {
            return Err(Failed);
        }
        match self.bytes.extend_from_slice(piece) {
            Ok(()) => Ok(piece.len()),
            Err(_) => {
                self.schedule.refuse();
                Err(Failed)
            }
        }
    }
}
