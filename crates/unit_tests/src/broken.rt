//! A system that fails where it is told, with any kind of error, and takes short writes.

use std::alloc::Allocator;
use std::fmt::Display;
use std::fs::{Metadata, OpenFile, OpenOptions};
use std::io;
use std::io::{ErrorKind, Read, Seek, SeekFrom, Write};
use std::rt::Files;

/// What fails: no call, or one of a file. `Short` is a file that takes two bytes of each write, and
/// is no fault.
#[derive(Clone, Copy, Debug, PartialEq, Eq)]
pub enum Fault {
    None,
    Short,
    Open,
    Read,
    Write,
    Flush,
    Sync,
}

/// A file without a byte.
#[derive(Drop)]
pub struct BrokenFile {
    fault: Fault,
    kind: ErrorKind,
}

/// A system that has each file, and the kind of error that its calls fail with.
#[derive(Drop)]
pub struct Broken {
    pub fault: Fault,
    pub kind: ErrorKind,
}

fn refused<T>() -> io::Result<T> {
    Err(io::Error::from(ErrorKind::Unsupported))
}

// Fails where the call is the one that is to fail.
fn fails(call: Fault, fault: Fault, kind: ErrorKind) -> io::Result<()> {
    if call == fault {
        return Err(io::Error::from(kind));
    }
    Ok(())
}

impl Read for BrokenFile {
    fn read(&mut self, buf: &mut [u8]) -> io::Result<usize> {
        buf.fill(0xFF);
        fails(Fault::Read, self.fault, self.kind)?;
        Ok(0)
    }
}

impl Write for BrokenFile {
    fn write(&mut self, buf: &[u8]) -> io::Result<usize> {
        fails(Fault::Write, self.fault, self.kind)?;
        if self.fault == Fault::Short {
            return Ok(buf.len().min(2));
        }
        Ok(buf.len())
    }

    fn flush(&mut self) -> io::Result<()> {
        fails(Fault::Flush, self.fault, self.kind)
    }
}

impl Seek for BrokenFile {
    fn seek(&mut self, _to: SeekFrom) -> io::Result<u64> {
        refused()
    }
}

impl OpenFile for BrokenFile {
    fn metadata(&self) -> io::Result<Metadata> {
        refused()
    }

    fn set_len(&self, _size: u64) -> io::Result<()> {
        refused()
    }

    fn sync_all(&self) -> io::Result<()> {
        refused()
    }

    fn sync_data(&self) -> io::Result<()> {
        fails(Fault::Sync, self.fault, self.kind)
    }
}

impl Files for Broken {
    type File = BrokenFile;

    type Dir = BrokenFile;

    fn open_file(&self, _how: &OpenOptions, _path: &str) -> io::Result<BrokenFile> {
        fails(Fault::Open, self.fault, self.kind)?;
        Ok(BrokenFile {
            fault: self.fault,
            kind: self.kind,
        })
    }

    fn open_dir(&self, _path: &str) -> io::Result<BrokenFile> {
        refused()
    }

    fn metadata(&self, _path: &str) -> io::Result<Metadata> {
        refused()
    }

    fn symlink_metadata(&self, _path: &str) -> io::Result<Metadata> {
        refused()
    }

    fn copy(&self, _from: &str, _to: &str) -> io::Result<u64> {
        refused()
    }

    fn rename(&self, _from: &str, _to: &str) -> io::Result<()> {
        refused()
    }

    fn remove_file(&self, _path: &str) -> io::Result<()> {
        refused()
    }

    fn create_dir(&self, _path: &str) -> io::Result<()> {
        refused()
    }

    fn remove_dir(&self, _path: &str) -> io::Result<()> {
        refused()
    }

    fn remove_dir_all<B: Allocator>(&self, _alloc: B, _path: &str) -> io::Result<()> {
        refused()
    }
}

/// A standard output that takes so many bytes of each piece, or fails.
#[derive(Drop)]
pub struct Mouth {
    pub takes: Option<usize>,
}

impl Print for Mouth {
    fn print<D: Display + Drop>(&self, _value: D) -> io::Result<()> {
        refused()
    }

    fn println<D: Display + Drop>(&self, _value: D) -> io::Result<()> {
        refused()
    }

    fn write_all(&self, _bytes: &[u8]) -> io::Result<()> {
        refused()
    }

    fn write_some(&self, bytes: &[u8]) -> io::Result<usize> {
        match self.takes {
            Some(count) => Ok(bytes.len().min(count)),
            None => Err(io::Error::from(ErrorKind::Unsupported)),
        }
    }
}
