//! A depot in memory, with calls that are to fail.

ghost use Rattle.std.specs.Prelude.{◌≡◌, ◌+◌, ◌<◌, ℕ, List, IsTrue};
ghost use Rattle.lvs_outside.specs.Entries.{is_in_place};
ghost use Rattle.lvs_outside.specs.Token.{bytes_of};

use crate::entries::{Entry, Place, append, close, copy_next, find, set_file};
use crate::schedule::Schedule;
use crate::token::{Bytes, Count, bytes_token, none, raise};
use crate::{Depot, Failed};
use std::alloc::{AllocError, Global};
use std::snapshot::Snapshot;

/// Files in memory, and the calls that are to fail, by number from 1 over all calls of `Depot` on
/// it. It tells everything.
///
/// A growth that is refused in `start_write` or `write` is a fault. Calls have numbers up to 2^64 -
/// 2.
#[derive(Drop)]
pub struct MemoryDepot {
    alloc: Global,
    files: Vec<Entry>,
    path: Snapshot<Bytes>,
    place: Place,
    ghost in_place: { IsTrue (is_in_place files.items (bytes_of path.value) place) },
    written: Snapshot<Count>,
    absent: u64,
    last_absent: Snapshot<Bytes>,
    write_calls: Snapshot<Count>,
    unfinished: Snapshot<Count>,
    schedule: Schedule,
}

impl MemoryDepot {
    ghost use Rattle.std.specs.Prelude.{◌≡◌, List, ℕ, OnOk, OnErr, MatchOption};
    ghost use Rattle.lvs_outside.specs.Store.{NoFile, Holds, IsFresh};
    ghost use Rattle.lvs_outside.specs.MemoryStore.{memory_store, schedule_of, HasNoFiles, Puts};
    ghost use Rattle.lvs_outside.specs.MemoryStore.{Stays};

    /// No files, and the numbers of the calls that are to fail.
    pub fn new(alloc: Global, failing: Vec<u64>) -> MemoryDepot
        ensures fresh { IsFresh (memory_store result) }
        ensures files { HasNoFiles (memory_store result) }
        ensures failing { (schedule_of result).failing.items ≡ failing.items }
        ensures calls { (schedule_of result).calls ≡ 0 }
        ensures refused { (schedule_of result).refused ≡ 0 }
    {
        MemoryDepot {
            alloc,
            files: Vec::new(alloc),
            path: bytes_token(b""),
            place: Place::Closed,
            written: none(),
            absent: 0,
            last_absent: bytes_token(b""),
            write_calls: none(),
            unfinished: none(),
            schedule: Schedule::new(failing),
        }
    }

    /// Makes the path's file these bytes, and closes what was open. It is no call of `Depot`.
    pub fn put(&mut self, alloc: Global, path: &str, bytes: &[u8]) -> Result<(), AllocError>
        ensures ok { OnOk result (Puts (memory_store self.old) (memory_store self.new) path.now
            bytes.now) }
        ensures err { OnErr result (Stays (memory_store self.old) (memory_store self.new)) }
        ensures schedule { schedule_of self.new ≡ schedule_of self.old }
    {
        let bytes = Vec::from_slice(alloc, bytes)?;
        set_file(alloc, &mut self.files, path, bytes)?;
        close(&mut self.place, &mut self.unfinished);
        Ok(())
    }

    /// The path's bytes, or None exactly where no file has the path.
    pub fn file(&self, path: &str) -> Option<&[u8]>
        ensures { MatchOption result ((memory_store self.now).file path.now ≡ NoFile)
            (λ b. (memory_store self.now).file path.now ≡ Holds b.now) }
    {
        let number = find(self.files.as_slice(), path)?;
        Some(self.files[number].bytes.as_slice())
    }

    /// The growths refused so far. The count of faults is this number plus the number of listed
    /// calls that were reached.
    pub fn refused(&self) -> u64
        ensures { result ≡ (schedule_of self.now).refused }
    {
        self.schedule.refused
    }
}

impl Depot for MemoryDepot {
    ghost use Rattle.std.specs.Prelude.{◌≡◌, ◌<◌, length};
    ghost use Rattle.lvs_outside.specs.Store.{HasRoom, IsReading, IsWriting, OpensRead, Reads};
    ghost use Rattle.lvs_outside.specs.Store.{StartsWrite, Writes, Finishes};
    ghost use Rattle.lvs_outside.specs.Schedule.{IsNumbered};
    ghost use Rattle.lvs_outside.specs.MemoryStore.{memory_store, schedule_of};

    ghost state = { memory_store };

    fn open_read(&mut self, path: &str) -> Result<bool, Failed>
        requires { HasRoom (memory_store self.old) }
        ensures opens { OpensRead (memory_store self.old) (memory_store self.new) path.now result }
        ensures numbered { IsNumbered (schedule_of self.old) (schedule_of self.new) result }
        ensures refused { (schedule_of self.new).refused ≡ (schedule_of self.old).refused }
    {
        close(&mut self.place, &mut self.unfinished);
        if self.schedule.reach() {
            return Err(Failed);
        }
        match find(self.files.as_slice(), path) {
            Some(number) => {
                self.path = bytes_token(path.as_bytes());
                self.place = Place::Reading(number, 0);
                Ok(true)
            }
            None => {
                self.absent += 1;
                self.last_absent = bytes_token(path.as_bytes());
                Ok(false)
            }
        }
    }

    fn read(&mut self, buf: &mut [u8]) -> Result<usize, Failed>
        requires room { HasRoom (memory_store self.old) }
        requires open { IsReading (memory_store self.old).opened }
        requires buffer { 0 < length buf.old }
        ensures reads { Reads (memory_store self.old) (memory_store self.new) buf.old buf.new
            result }
        ensures numbered { IsNumbered (schedule_of self.old) (schedule_of self.new) result }
        ensures refused { (schedule_of self.new).refused ≡ (schedule_of self.old).refused }
    {
        let Place::Reading(number, at) = self.place else {
            unreachable!()
        };
        if self.schedule.reach() {
            return Err(Failed);
        }
        let count = copy_next(self.files[number].bytes.as_slice(), at, buf);
        self.place = Place::Reading(number, at + count);
        Ok(count)
    }

    fn start_write(&mut self, path: &str) -> Result<(), Failed>
        requires { HasRoom (memory_store self.old) }
        ensures starts { StartsWrite (memory_store self.old) (memory_store self.new) path.now
            result }
        ensures numbered { IsNumbered (schedule_of self.old) (schedule_of self.new) result }
    {
        raise(&mut self.write_calls, 1);
        close(&mut self.place, &mut self.unfinished);
        if self.schedule.reach() {
            return Err(Failed);
        }
        match set_file(self.alloc, &mut self.files, path, Vec::new(self.alloc)) {
            Ok(number) => {
                self.path = bytes_token(path.as_bytes());
                self.place = Place::Writing(number);
                self.written = none();
                Ok(())
            }
            Err(_) => {
                self.schedule.refuse();
                Err(Failed)
            }
        }
    }

    fn write(&mut self, piece: &[u8]) -> Result<usize, Failed>
        requires room { HasRoom (memory_store self.old) }
        requires open { IsWriting (memory_store self.old).opened }
        ensures writes { Writes (memory_store self.old) (memory_store self.new) piece.now result }
        ensures numbered { IsNumbered (schedule_of self.old) (schedule_of self.new) result }
    {
        let Place::Writing(number) = self.place else {
            unreachable!()
        };
        raise(&mut self.write_calls, 1);
        if self.schedule.reach() {
            return Err(Failed);
        }
        match append(&mut self.files, number, piece) {
            Ok(()) => {
                raise(&mut self.written, piece.len());
                Ok(piece.len())
            }
            Err(_) => {
                self.schedule.refuse();
                Err(Failed)
            }
        }
    }

    fn finish_write(&mut self) -> Result<(), Failed>
        requires room { HasRoom (memory_store self.old) }
        requires open { IsWriting (memory_store self.old).opened }
        ensures finishes { Finishes (memory_store self.old) (memory_store self.new) result }
        ensures numbered { IsNumbered (schedule_of self.old) (schedule_of self.new) result }
        ensures refused { (schedule_of self.new).refused ≡ (schedule_of self.old).refused }
    {
        if self.schedule.reach() {
            return Err(Failed);
        }
        self.place = Place::Closed;
        Ok(())
    }
}
