//! Standard output as a sink, which tells nothing of what it took.

ghost use Rattle.std.specs.Prelude.{◌≡◌, ◌+◌, ℕ};

use crate::counted::is_empty_take;
use crate::token::{Count, none, raise};
use crate::{Failed, Sink};
use std::snapshot::Snapshot;

/// Standard output. It tells nothing of the bytes taken.
#[derive(Drop)]
pub struct StdoutSink<'a, R: Print> {
    rt: &'a R,
    write_calls: Snapshot<Count>,
    faults: u64,
    empty_takes: u64,
}

impl<'a, R: Print> StdoutSink<'a, R> {
    ghost use Rattle.lvs_outside.specs.Summary.{SinkIsFresh};
    ghost use Rattle.lvs_outside.specs.FileStore.{sink_of};

    /// The runtime's standard output.
    pub fn new(rt: &'a R) -> StdoutSink<'a, R>
        ensures { SinkIsFresh (sink_of result) }
    {
        StdoutSink {
            rt,
            write_calls: none(),
            faults: 0,
            empty_takes: 0,
        }
    }
}

impl<R: Print> Sink for StdoutSink<'_, R> {
    ghost use Rattle.lvs_outside.specs.FileStore.{sink_of};

    ghost state = { sink_of };

    fn write(&mut self, piece: &[u8]) -> Result<usize, Failed> {
        raise(&mut self.write_calls, 1);
        match self.rt.write_some(piece) {
            Ok(count) => {
                if is_empty_take(piece, count) {
                    self.empty_takes += 1;
                }
                Ok(count)
            }
            Err(_) => {
                self.faults += 1;
                Err(Failed)
            }
        }
    }
}
