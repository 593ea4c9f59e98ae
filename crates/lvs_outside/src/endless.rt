//! A depot whose files have no end.

ghost use Rattle.std.specs.Prelude.{◌≡◌, ◌+◌, ℕ, List, []};

use crate::file::Handle;
use crate::token::{Bytes, Count, bytes_token, none, raise};
use crate::{Depot, Failed};
use std::snapshot::Snapshot;

/// Each path has a file of NULs without an end, and each write is taken whole and forgotten.
///
/// It tells nothing. No call fails, answers that a file is absent, or takes nothing of a piece, and
/// none takes memory.
#[derive(Drop)]
pub struct EndlessDepot {
    handle: Handle<()>,
    path: Snapshot<Bytes>,
    moved: Snapshot<Count>,
    write_calls: Snapshot<Count>,
    unfinished: Snapshot<Count>,
}

impl EndlessDepot {
    ghost use Rattle.lvs_outside.specs.Store.{Closes, IsFresh};
    ghost use Rattle.lvs_outside.specs.EndlessStore.{endless_store};

    /// Files without an end, none of which is open.
    pub fn new() -> EndlessDepot
        ensures { IsFresh (endless_store result) }
    {
        EndlessDepot {
            handle: Handle::Closed,
            path: bytes_token(b""),
            moved: none(),
            write_calls: none(),
            unfinished: none(),
        }
    }

    // Closes what is open: a file that was being written is left unfinished.
    fn close(&mut self)
        ensures closed { Closes (endless_store self.old) (endless_store self.new) }
        ensures handle { self.new.handle ≡ Handle.Closed }
    {
        if let Handle::Writing(()) = &self.handle {
            raise(&mut self.unfinished, 1);
        }
        self.handle = Handle::Closed;
    }
}

impl Depot for EndlessDepot {
    ghost use Rattle.std.specs.Prelude.{length, replicate, Ok, true, IsOk};
    ghost use Rattle.lvs_outside.specs.Store.{IsReading, IsWriting, OpensRead, Reads};
    ghost use Rattle.lvs_outside.specs.Store.{StartsWrite, Writes, Finishes};
    ghost use Rattle.lvs_outside.specs.EndlessStore.{endless_store};

    ghost state = { endless_store };

    fn open_read(&mut self, path: &str) -> Result<bool, Failed>
        ensures opens { OpensRead (endless_store self.old) (endless_store self.new) path.now result }
        ensures there { result ≡ Ok true }
    {
        self.close();
        self.handle = Handle::Reading(());
        self.path = bytes_token(path.as_bytes());
        self.moved = none();
        Ok(true)
    }

    fn read(&mut self, buf: &mut [u8]) -> Result<usize, Failed>
        requires { IsReading (endless_store self.old).opened }
        ensures reads { Reads (endless_store self.old) (endless_store self.new) buf.old buf.new
            result }
        ensures whole { result ≡ Ok (length buf.old) }
        ensures bytes { buf.new ≡ replicate (length buf.old) 0 }
    {
        buf.fill(0);
        raise(&mut self.moved, buf.len());
        Ok(buf.len())
    }

    fn start_write(&mut self, path: &str) -> Result<(), Failed>
        ensures starts { StartsWrite (endless_store self.old) (endless_store self.new) path.now
            result }
        ensures never_fails { IsOk result }
    {
        raise(&mut self.write_calls, 1);
        self.close();
        self.handle = Handle::Writing(());
        self.path = bytes_token(path.as_bytes());
        self.moved = none();
        Ok(())
    }

    fn write(&mut self, piece: &[u8]) -> Result<usize, Failed>
        requires { IsWriting (endless_store self.old).opened }
        ensures writes { Writes (endless_store self.old) (endless_store self.new) piece.now result }
        ensures whole { result ≡ Ok (length piece.now) }
    {
        raise(&mut self.write_calls, 1);
        raise(&mut self.moved, piece.len());
        Ok(piece.len())
    }

    fn finish_write(&mut self) -> Result<(), Failed>
        requires { IsWriting (endless_store self.old).opened }
        ensures finishes { Finishes (endless_store self.old) (endless_store self.new) result }
        ensures never_fails { IsOk result }
    {
        self.handle = Handle::Closed;
        Ok(())
    }
}
