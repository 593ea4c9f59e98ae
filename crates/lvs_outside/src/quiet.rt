//! A depot and a sink that keep only how many bytes they took.

ghost use Rattle.std.specs.Prelude.{◌≡◌, ◌+◌, ℕ, List, IsTrue};
ghost use Rattle.lvs_outside.specs.LentFiles.{told_lent, is_access, one_if_written};
ghost use Rattle.lvs_outside.specs.Token.{bytes_of, count_of, paths_of};

use crate::entries::copy_next;
use crate::lent::{Access, Lent, drop_lent, lent_bytes, put_lent};
use crate::tally::Tally;
use crate::token::{Bytes, Count, Paths, add_path, bytes_token, no_paths, none, raise};
use crate::{Depot, Failed, Sink};
use std::alloc::{AllocError, Global};
use std::snapshot::Snapshot;

/// Files that were lent for reading, behind a depot and a sink that take every write whole and keep
/// only the number of bytes.
///
/// It tells the files lent and none that is written. Nothing is kept of a written file: `open_read`
/// answers false of its path, whether that was lent before or not, until it is lent again.
///
/// No call answers `Failed`, and none but `lend` takes memory. `lend`, `open_read` and
/// `start_write` go over the list of all paths lent.
#[derive(Drop)]
pub struct QuietDepot<'a> {
    lent: Vec<Lent<'a>>,
    written_paths: Snapshot<Paths>,
    path: Snapshot<Bytes>,
    access: Access<'a>,
    ghost in_place: { IsTrue (is_access
        (told_lent lent.items (paths_of written_paths.value) (bytes_of path.value)) access) },
    moved: Snapshot<Count>,
    absent: Snapshot<Count>,
    last_absent: Snapshot<Bytes>,
    write_calls: Snapshot<Count>,
    unfinished: Snapshot<Count>,
    sends: Snapshot<Count>,
    tally: Tally,
}

// Closes what is open: a file that was being written is left unfinished.
fn close(access: &mut Access<'_>, unfinished: &mut Snapshot<Count>)
    ensures access { access.new ≡ Access.Closed }
    ensures unfinished { count_of unfinished.new.value ≡ count_of unfinished.old.value
        + one_if_written access.old }
{
    if let Access::Writing = access {
        raise(unfinished, 1);
    }
    *access = Access::Closed;
}

impl<'a> QuietDepot<'a> {
    ghost use Rattle.std.specs.Prelude.{◌-◌, ◌^◌, min, OnOk, OnErr};
    ghost use Rattle.lvs_outside.specs.Store.{IsFresh};
    ghost use Rattle.lvs_outside.specs.Summary.{SinkIsFresh};
    ghost use Rattle.lvs_outside.specs.MemoryStore.{HasNoFiles, Puts};
    ghost use Rattle.lvs_outside.specs.QuietStore.{quiet_store, quiet_sink, taken_by};

    /// No files, and no bytes taken. `alloc` is what `lend` takes memory from.
    pub fn new(alloc: Global) -> QuietDepot<'a>
        ensures fresh { IsFresh (quiet_store result) }
        ensures files { HasNoFiles (quiet_store result) }
        ensures sink { SinkIsFresh (quiet_sink result) }
        ensures taken { taken_by result ≡ 0 }
    {
        QuietDepot {
            lent: Vec::new(alloc),
            written_paths: no_paths(),
            path: bytes_token(b""),
            access: Access::Closed,
            moved: none(),
            absent: none(),
            last_absent: bytes_token(b""),
            write_calls: none(),
            unfinished: none(),
            sends: none(),
            tally: Tally::new(),
        }
    }

    /// Makes the path's file these bytes, and closes what was open. It is no call of `Depot`. Only
    /// a path that wasn't lent before takes memory: one entry of the list.
    pub fn lend(&mut self, path: &'a str, bytes: &'a [u8]) -> Result<(), AllocError>
        ensures ok { OnOk result (Puts (quiet_store self.old) (quiet_store self.new) path.now
            bytes.now) }
        ensures err { OnErr result (quiet_store self.new ≡ quiet_store self.old) }
        ensures sink { quiet_sink self.new ≡ quiet_sink self.old }
        ensures taken { taken_by self.new ≡ taken_by self.old }
    {
        put_lent(&mut self.lent, path, bytes)?;
        close(&mut self.access, &mut self.unfinished);
        Ok(())
    }

    /// The bytes taken so far by the writes of files and of summaries, or 2^64 - 1 where they are
    /// more.
    pub fn written(&self) -> u64
        ensures { result ≡ min (taken_by self.now) (2 ^ 64 - 1) }
    {
        self.tally.total()
    }
}

impl Depot for QuietDepot<'_> {
    ghost use Rattle.std.specs.Prelude.{◌<◌, length, IsOk};
    ghost use Rattle.lvs_outside.specs.Store.{Untold, IsReading, IsWriting, OpensRead, Reads};
    ghost use Rattle.lvs_outside.specs.Store.{StartsWrite, Writes, Finishes};
    ghost use Rattle.lvs_outside.specs.QuietStore.{quiet_store, quiet_sink, taken_by, is_held};

    ghost state = { quiet_store };

    fn open_read(&mut self, path: &str) -> Result<bool, Failed>
        ensures opens { OpensRead (quiet_store self.old) (quiet_store self.new) path.now result }
        ensures answer { result ≡ Ok (is_held ((quiet_store self.old).file path.now)) }
        ensures sink { quiet_sink self.new ≡ quiet_sink self.old }
        ensures taken { taken_by self.new ≡ taken_by self.old }
    {
        close(&mut self.access, &mut self.unfinished);
        match lent_bytes(self.lent.as_slice(), path) {
            Some(bytes) => {
                self.path = bytes_token(path.as_bytes());
                self.access = Access::Reading(bytes, 0);
                Ok(true)
            }
            None => {
                raise(&mut self.absent, 1);
                self.last_absent = bytes_token(path.as_bytes());
                Ok(false)
            }
        }
    }

    fn read(&mut self, buf: &mut [u8]) -> Result<usize, Failed>
        requires open { IsReading (quiet_store self.old).opened }
        requires buffer { 0 < length buf.old }
        ensures reads { Reads (quiet_store self.old) (quiet_store self.new) buf.old buf.new
            result }
        ensures never_fails { IsOk result }
        ensures sink { quiet_sink self.new ≡ quiet_sink self.old }
        ensures taken { taken_by self.new ≡ taken_by self.old }
    {
        let Access::Reading(bytes, at) = self.access else {
            unreachable!()
        };
        let count = copy_next(bytes, at, buf);
        self.access = Access::Reading(bytes, at + count);
        Ok(count)
    }

    fn start_write(&mut self, path: &str) -> Result<(), Failed>
        ensures starts { StartsWrite (quiet_store self.old) (quiet_store self.new) path.now result }
        ensures never_fails { IsOk result }
        ensures untold { (quiet_store self.new).file path.now ≡ Untold }
        ensures sink { quiet_sink self.new ≡ quiet_sink self.old }
        ensures taken { taken_by self.new ≡ taken_by self.old }
    {
        raise(&mut self.write_calls, 1);
        close(&mut self.access, &mut self.unfinished);
        drop_lent(&mut self.lent, path);
        add_path(&mut self.written_paths, path);
        self.path = bytes_token(path.as_bytes());
        self.access = Access::Writing;
        self.moved = none();
        Ok(())
    }

    fn write(&mut self, piece: &[u8]) -> Result<usize, Failed>
        requires { IsWriting (quiet_store self.old).opened }
        ensures writes { Writes (quiet_store self.old) (quiet_store self.new) piece.now result }
        ensures whole { result ≡ Ok (length piece.now) }
        ensures sink { quiet_sink self.new ≡ quiet_sink self.old }
        ensures taken { taken_by self.new ≡ taken_by self.old + length piece.now }
    {
        raise(&mut self.write_calls, 1);
        raise(&mut self.moved, piece.len());
        self.tally.add(piece.len());
        Ok(piece.len())
    }

    fn finish_write(&mut self) -> Result<(), Failed>
        requires { IsWriting (quiet_store self.old).opened }
        ensures finishes { Finishes (quiet_store self.old) (quiet_store self.new) result }
        ensures never_fails { IsOk result }
        ensures sink { quiet_sink self.new ≡ quiet_sink self.old }
        ensures taken { taken_by self.new ≡ taken_by self.old }
    {
        self.access = Access::Closed;
        Ok(())
    }
}

impl Sink for QuietDepot<'_> {
    ghost use Rattle.std.specs.Prelude.{length};
    ghost use Rattle.lvs_outside.specs.Summary.{Takes};
    ghost use Rattle.lvs_outside.specs.QuietStore.{quiet_store, quiet_sink, taken_by};

    ghost state = { quiet_sink };

    fn write(&mut self, piece: &[u8]) -> Result<usize, Failed>
        ensures takes { Takes (quiet_sink self.old) (quiet_sink self.new) piece.now result }
        ensures whole { result ≡ Ok (length piece.now) }
        ensures files { quiet_store self.new ≡ quiet_store self.old }
        ensures taken { taken_by self.new ≡ taken_by self.old + length piece.now }
    {
        raise(&mut self.sends, 1);
        self.tally.add(piece.len());
        Ok(piece.len())
    }
}
