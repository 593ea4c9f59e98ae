//! A depot in memory that takes nothing of what is written.

ghost use Rattle.std.specs.Prelude.{◌≡◌, ◌+◌, ◌<◌, ℕ, List};

use crate::counted::is_empty_take;
use crate::token::{Count, none, raise};
use crate::{Depot, Failed, MemoryDepot};
use std::alloc::{AllocError, Global};
use std::snapshot::Snapshot;

/// Files in memory behind a depot whose `write` takes nothing and answers 0. It tells everything.
#[derive(Drop)]
pub struct IdleDepot {
    inner: MemoryDepot,
    empty_takes: Snapshot<Count>,
}

impl IdleDepot {
    ghost use Rattle.std.specs.Prelude.{OnOk, OnErr};
    ghost use Rattle.lvs_outside.specs.Store.{IsFresh};
    ghost use Rattle.lvs_outside.specs.MemoryStore.{HasNoFiles, Puts, Stays};
    ghost use Rattle.lvs_outside.specs.IdleStore.{idle_store};

    /// No files.
    pub fn new(alloc: Global) -> IdleDepot
        ensures fresh { IsFresh (idle_store result) }
        ensures files { HasNoFiles (idle_store result) }
    {
        IdleDepot {
            inner: MemoryDepot::new(alloc, Vec::new(alloc)),
            empty_takes: none(),
        }
    }

    /// Makes the path's file these bytes, and closes what was open. It is no call of `Depot`.
    pub fn put(&mut self, alloc: Global, path: &str, bytes: &[u8]) -> Result<(), AllocError>
        ensures ok { OnOk result (Puts (idle_store self.old) (idle_store self.new) path.now
            bytes.now) }
        ensures err { OnErr result (Stays (idle_store self.old) (idle_store self.new)) }
    {
        self.inner.put(alloc, path, bytes)
    }
}

impl Depot for IdleDepot {
    ghost use Rattle.std.specs.Prelude.{length, IfOk};
    ghost use Rattle.lvs_outside.specs.Store.{HasRoom, IsReading, IsWriting, OpensRead, Reads};
    ghost use Rattle.lvs_outside.specs.Store.{StartsWrite, Writes, Finishes};
    ghost use Rattle.lvs_outside.specs.IdleStore.{idle_store};

    ghost state = { idle_store };

    fn open_read(&mut self, path: &str) -> Result<bool, Failed> {
        self.inner.open_read(path)
    }

    fn read(&mut self, buf: &mut [u8]) -> Result<usize, Failed> {
        self.inner.read(buf)
    }

    fn start_write(&mut self, path: &str) -> Result<(), Failed> {
        self.inner.start_write(path)
    }

    fn write(&mut self, piece: &[u8]) -> Result<usize, Failed>
        requires room { HasRoom (idle_store self.old) }
        requires open { IsWriting (idle_store self.old).opened }
        ensures writes { Writes (idle_store self.old) (idle_store self.new) piece.now result }
        ensures idle { IfOk result (λ n. n ≡ 0) }
    {
        self.inner.write(&[])?;
        if is_empty_take(piece, 0) {
            raise(&mut self.empty_takes, 1);
        }
        Ok(0)
    }

    fn finish_write(&mut self) -> Result<(), Failed> {
        self.inner.finish_write()
    }
}
