//! The loops over a depot and a sink: a read, a write or a take may stop short anywhere.

ghost use Rattle.std.specs.Prelude.{◌≡◌, List, []};
ghost use Rattle.lvs_outside.specs.Store.{Store, HasRoom, IsReading, IsWriting, Writes, counted};
ghost use Rattle.lvs_outside.specs.Summary.{SinkState, SinkHasRoom, Takes, counted_sink};
ghost use Rattle.lvs_outside.specs.Loops.{ReadsRest, AppendsWhole, WritesFile, SendsWhole};
ghost use Rattle.lvs_outside.specs.declared.loops.ReadFault.TheVariants.{NoMemory};

use crate::{Counted, Depot, Failed, Sink};
use std::alloc::AllocError;
use thiserror::Error;

/// Why a file wasn't read whole.
#[derive(Clone, Copy, Debug, PartialEq, Eq, Error)]
pub enum ReadFault {
    /// A read failed.
    #[error("a read failed")]
    Failed,
    /// More than `LIMIT` bytes were read.
    #[error("the file is too long")]
    TooLong,
    /// No memory was left for the bytes.
    #[error("no memory")]
    NoMemory,
}

impl From<AllocError> for ReadFault {
    ghost from_gives = { λ _ e. e ≡ NoMemory };

    fn from(_: AllocError) -> Self {
        ReadFault::NoMemory
    }
}

impl From<Failed> for ReadFault {
    ghost use Rattle.std.specs.Prelude.{◌≡◌};
    ghost use Rattle.lvs_outside.specs.declared.loops.ReadFault.TheVariants.{Failed as FailedRead};

    ghost from_gives = { λ _ e. e ≡ FailedRead };

    fn from(_: Failed) -> Self {
        ReadFault::Failed
    }
}

/// The most bytes of a file that are taken: 2^28.
pub const LIMIT: usize = 268_435_456;

/// Reads the file that is open for reading into `bytes`, from where it stands to its end or until
/// more than `LIMIT` bytes were read, in pieces of at most 4,096 bytes.
pub fn read_rest<D: Depot>(depot: &mut D, bytes: &mut Vec<u8>) -> Result<(), ReadFault>
    requires room { HasRoom (D.state depot.old) }
    requires open { IsReading (D.state depot.old).opened }
    requires fresh { bytes.old.items ≡ [] }
    ensures { ReadsRest (D.state depot.old) (D.state depot.new) bytes.new.items result }
{
    let mut buf = [0u8; 4096];
    while bytes.len() <= LIMIT {
        let count = depot.read(&mut buf)?;
        if count == 0 {
            return Ok(());
        }
        bytes.extend_from_slice(&buf[..count])?;
    }
    Err(ReadFault::TooLong)
}

// One write, in which an empty take is a fault.
fn write_some<D: Depot>(depot: &mut D, piece: &[u8]) -> Result<usize, Failed>
    requires room { HasRoom (D.state depot.old) }
    requires open { IsWriting (D.state depot.old).opened }
    ensures { Writes (counted (D.state depot.old)) (counted (D.state depot.new)) piece.now result }
{
    Depot::write(&mut Counted::new(depot), piece)
}

// One write to a sink, in which an empty take is a fault.
fn take_some<S: Sink>(out: &mut S, piece: &[u8]) -> Result<usize, Failed>
    requires { SinkHasRoom (S.state out.old) }
    ensures { Takes (counted_sink (S.state out.old)) (counted_sink (S.state out.new)) piece.now
        result }
{
    Sink::write(&mut Counted::new(out), piece)
}

/// Appends the whole text to the file that is open for writing. An empty take is a fault.
pub fn write_whole<D: Depot>(depot: &mut D, text: &[u8]) -> Result<(), Failed>
    requires room { HasRoom (D.state depot.old) }
    requires open { IsWriting (D.state depot.old).opened }
    ensures { AppendsWhole (counted (D.state depot.old)) (counted (D.state depot.new)) text.now
        result }
{
    let mut rest = text;
    while !rest.is_empty() {
        let count = write_some(depot, rest)?;
        rest = &rest[count..];
    }
    Ok(())
}

/// Makes the path's file this text. An empty take is a fault.
pub fn write_file<D: Depot>(depot: &mut D, path: &str, text: &[u8]) -> Result<(), Failed>
    requires { HasRoom (D.state depot.old) }
    ensures { WritesFile (counted (D.state depot.old)) (counted (D.state depot.new)) path.now
        text.now result }
{
    depot.start_write(path)?;
    write_whole(depot, text)?;
    depot.finish_write()
}

/// Sends the whole text. An empty take is a fault.
pub fn write_all<S: Sink>(out: &mut S, text: &[u8]) -> Result<(), Failed>
    requires { SinkHasRoom (S.state out.old) }
    ensures { SendsWhole (counted_sink (S.state out.old)) (counted_sink (S.state out.new)) text.now
        result }
{
    let mut rest = text;
    while !rest.is_empty() {
        let count = take_some(out, rest)?;
        rest = &rest[count..];
    }
    Ok(())
}
