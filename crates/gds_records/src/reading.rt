//! The next record of a stream.

ghost use Rattle.std.specs.Prelude.{◌≡◌, ◌≤◌, length, MatchResult};
ghost use Rattle.gds_records.specs.Records.{IsNext, IsFramingFault, OneReadingLaw, is_listed};

use crate::kinds;
use byteorder::{BigEndian, ByteOrder};
use thiserror::Error;

/// A record's kind and form, and where its data lies in the bytes that it was read from.
#[derive(Clone, Copy, Debug)]
pub struct Record {
    pub kind: u8,
    pub form: u8,
    pub start: usize,
    pub end: usize,
}

/// What is wrong with a record's frame, and where the record begins.
#[derive(Clone, Copy, Debug, Error)]
pub enum RecordFault {
    #[error("too few bytes for the record at offset {0}")]
    Truncated(usize),
    #[error("the length of the record at offset {0} is below 4 or odd")]
    BadLength(usize),
    #[error("the kind of the record at offset {0} is unknown")]
    UnknownType(usize),
}

/// Whether the format has records of the kind.
fn is_known(kind: u8) -> bool
    ensures { result ≡ is_listed kind }
{
    kinds::ALL.iter().any(|known| *known == kind)
}

/// The record that begins at the place, or the first thing wrong with its frame: fewer than four
/// bytes, a length
/// below 4 or odd, fewer bytes than the length, an unknown kind. It reads four bytes and copies
/// none.
pub fn next_record(bytes: &[u8], place: usize) -> Result<Record, RecordFault>
    requires { place ≤ length bytes.now }
    ensures { MatchResult result (λ r. IsNext bytes.now place r)
        (λ e. IsFramingFault bytes.now place e) }
{
    let rest = &bytes[place..];
    if rest.len() < 4 {
        return Err(RecordFault::Truncated(place));
    }
    let len = usize::from(BigEndian::read_u16(rest));
    if len < 4 || len % 2 != 0 {
        return Err(RecordFault::BadLength(place));
    }
    if rest.len() < len {
        return Err(RecordFault::Truncated(place));
    }
    let kind = rest[2];
    if !is_known(kind) {
        return Err(RecordFault::UnknownType(place));
    }
    Ok(Record {
        kind,
        form: rest[3],
        start: place + 4,
        end: place + len,
    })
}

/// Bytes can be read as records in one way alone: of two record lists that they start with, one
/// goes on from the other.
pub fn one_reading()
    ensures { OneReadingLaw }
{}
