//! The store over std's files.

ghost use Rattle.std.specs.Prelude.{◌≡◌, ◌+◌, ◌≤◌, ℕ, List, [], length, drop, IfOk, OnErr};

use crate::counted::is_empty_take;
use crate::token::{Bytes, Count, bytes_token, none, raise};
use crate::{Depot, Failed};
use std::fs::OpenFile;
use std::io::{Read, Write};
use std::rt::Files;
use std::snapshot::Snapshot;
use std::{fs, io};

// The most bytes of one read.
const PIECE: usize = 4096;

/// What is open, and what it is held by.
#[derive(Drop)]
pub enum Handle<F> {
    Closed,
    Reading(F),
    Writing(F),
}

// Reads into the buffer's front by way of a piece of its own: what is behind the bytes read, and all
// of the buffer where the read failed, stays whatever the file does with the piece.
fn read_front<F: Read>(file: &mut F, buf: &mut [u8]) -> Result<usize, Failed>
    ensures fits { IfOk result (λ n. n ≤ length buf.new) }
    ensures behind { IfOk result (λ n. drop n buf.new ≡ drop n buf.old) }
    ensures err { OnErr result (buf.new ≡ buf.old) }
{
    let mut piece = [0u8; PIECE];
    let room = buf.len().min(PIECE);
    match file.read(&mut piece[..room]) {
        Ok(count) => {
            buf[..count].copy_from_slice(&piece[..count]);
            Ok(count)
        }
        Err(_) => Err(Failed),
    }
}

// Hands on all that was written, and answers whether the system has it: an error that the system
// holds back until the file is closed comes here. A pipe or a device, which has no such call, has it.
fn is_handed_on<F: Write + OpenFile>(file: &mut F) -> bool {
    if file.flush().is_err() {
        return false;
    }
    match file.sync_data() {
        Ok(()) => true,
        Err(e) => e.kind() == io::ErrorKind::InvalidInput,
    }
}

/// The files of the system. It tells nothing of their contents. A read takes at most 4,096 bytes. A
/// file is finished once the system has it: what the disk refused late is a fault too.
#[derive(Drop)]
pub struct FileDepot<'a, R: Files> {
    rt: &'a R,
    handle: Handle<R::File>,
    path: Snapshot<Bytes>,
    moved: Snapshot<Count>,
    absent: u64,
    last_absent: Snapshot<Bytes>,
    write_calls: Snapshot<Count>,
    unfinished: Snapshot<Count>,
    faults: u64,
    empty_takes: u64,
}

impl<'a, R: Files> FileDepot<'a, R> {
    ghost use Rattle.std.specs.Prelude.{◌≡◌};
    ghost use Rattle.lvs_outside.specs.Store.{Closes, IsFresh};
    ghost use Rattle.lvs_outside.specs.FileStore.{store_of};

    /// The runtime's files, by their paths.
    pub fn new(rt: &'a R) -> FileDepot<'a, R>
        ensures { IsFresh (store_of result) }
    {
        FileDepot {
            rt,
            handle: Handle::Closed,
            path: bytes_token(b""),
            moved: none(),
            absent: 0,
            last_absent: bytes_token(b""),
            write_calls: none(),
            unfinished: none(),
            faults: 0,
            empty_takes: 0,
        }
    }

    // Closes what is open: a file that was being written is left unfinished.
    fn close(&mut self)
        ensures closed { Closes (store_of self.old) (store_of self.new) }
        ensures handle { self.new.handle ≡ Handle.Closed }
    {
        if let Handle::Writing(_) = &self.handle {
            raise(&mut self.unfinished, 1);
        }
        self.handle = Handle::Closed;
    }
}

impl<R: Files> Depot for FileDepot<'_, R> {
    ghost use Rattle.lvs_outside.specs.FileStore.{store_of};

    ghost state = { store_of };

    fn open_read(&mut self, path: &str) -> Result<bool, Failed> {
        self.close();
        match fs::open(self.rt, path) {
            Ok(file) => {
                self.handle = Handle::Reading(file);
                self.path = bytes_token(path.as_bytes());
                self.moved = none();
                Ok(true)
            }
            Err(e) if e.kind() == io::ErrorKind::NotFound => {
                self.absent += 1;
                self.last_absent = bytes_token(path.as_bytes());
                Ok(false)
            }
            Err(_) => {
                self.faults += 1;
                Err(Failed)
            }
        }
    }

    fn read(&mut self, buf: &mut [u8]) -> Result<usize, Failed> {
        if let Handle::Reading(file) = &mut self.handle {
            if let Ok(count) = read_front(file, buf) {
                raise(&mut self.moved, count);
                return Ok(count);
            }
        }
        self.faults += 1;
        Err(Failed)
    }

    fn start_write(&mut self, path: &str) -> Result<(), Failed> {
        raise(&mut self.write_calls, 1);
        self.close();
        match fs::create(self.rt, path) {
            Ok(file) => {
                self.handle = Handle::Writing(file);
                self.path = bytes_token(path.as_bytes());
                self.moved = none();
                Ok(())
            }
            Err(_) => {
                self.faults += 1;
                Err(Failed)
            }
        }
    }

    fn write(&mut self, piece: &[u8]) -> Result<usize, Failed> {
        raise(&mut self.write_calls, 1);
        if let Handle::Writing(file) = &mut self.handle {
            if let Ok(count) = file.write(piece) {
                raise(&mut self.moved, count);
                if is_empty_take(piece, count) {
                    self.empty_takes += 1;
                }
                return Ok(count);
            }
        }
        self.faults += 1;
        Err(Failed)
    }

    fn finish_write(&mut self) -> Result<(), Failed> {
        if let Handle::Writing(file) = &mut self.handle {
            if is_handed_on(file) {
                self.handle = Handle::Closed;
                return Ok(());
            }
        }
        self.faults += 1;
        Err(Failed)
    }
}
