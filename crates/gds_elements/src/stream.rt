//! Records taken one after another.

ghost use Rattle.std.specs.Prelude.{◌≡◌, ◌<◌, ◌+◌, ◌-◌, ◌^◌, ◌≤◌, [], length, IfOk, IfSome, IfNone};
ghost use Rattle.std.specs.Prelude.{OnOk, OnErr};
ghost use Rattle.gds_records.specs.Records.{IsRecord, Records, NoRecords};
ghost use Rattle.gds_elements.specs.Data.{points_of};
ghost use Rattle.gds_elements.specs.Reading.{GoesOn, Runs, Stands, Steps, Takes, rec, taken_cells};
ghost use Rattle.gds_elements.specs.declared.stream.TakeError.TheVariants.{NoMemory};

use crate::faults::{BAD_DATA, WRONG_ORDER, content_fault, is_plain, is_unfinished};
use crate::library::GdsFault;
use crate::points::points;
use crate::reader::Reader;
use gds_grammar::{Place, follow};
use gds_records::{RecordFault, kinds, next_record};
use geo_base::Point;
use std::alloc::{AllocError, Global};

const BAD_LENGTH: u8 = 2;

const UNKNOWN_KIND: u8 = 3;

/// Why a record isn't taken.
#[derive(Drop)]
pub enum TakeError {
    Fault(u8),
    NoMemory,
}

impl From<AllocError> for TakeError {
    ghost from_gives = { λ _ e. e ≡ NoMemory };

    fn from(_e: AllocError) -> TakeError {
        TakeError::NoMemory
    }
}

/// Where a reader stands behind the records that it took: the place in the grammar, their number
/// and bytes, the last
/// one's kind, whether it was ENDLIB, and what they say.
#[derive(Drop)]
pub struct Stream {
    pub place: Place,
    pub count: u64,
    pub offset: u64,
    pub last: u8,
    pub ended: bool,
    pub kept: Reader,
}

/// The points of an XY, none of another record.
fn points_in(alloc: Global, kind: u8, body: &[u8]) -> Result<Vec<Point>, AllocError>
    ensures { IfOk result (λ v. kind ≡ 0x10 → v.items ≡ points_of body.now) }
{
    if kind == kinds::XY {
        return points(alloc, body);
    }
    Ok(Vec::new(alloc))
}

impl Stream {
    /// A reader that has taken nothing.
    pub(crate) fn new(alloc: Global) -> Stream
        ensures start { Stands NoRecords result }
        ensures count { result.count ≡ 0 }
        ensures offset { result.offset ≡ 0 }
        ensures taken { taken_cells result.kept.taken.value ≡ [] }
    {
        Stream {
            place: Place::Start,
            count: 0,
            offset: 0,
            last: 0,
            ended: false,
            kept: Reader::new(alloc),
        }
    }

    /// Takes the next record.
    fn take(&mut self, alloc: Global, kind: u8, form: u8, body: &[u8]) -> Result<(), TakeError>
        requires count { self.old.count < 2 ^ 64 - 1 }
        requires offset { self.old.offset + length body.now + 4 < 2 ^ 64 }
        ensures reading { (before : Records) → Stands before self.old → IsRecord
            (rec kind form body.now) → Takes before (rec kind form body.now) result self.new }
        ensures count { OnOk result (self.new.count ≡ self.old.count + 1) }
        ensures offset { OnOk result (self.new.offset ≡ self.old.offset + (length body.now + 4)) }
        ensures still { OnErr result ((self.new.count ≡ self.old.count) × (self.new.offset
            ≡ self.old.offset)) }
        ensures taken { OnOk result (self.new.kept.taken ≡ self.old.kept.taken) }
    {
        let Some(place) = follow(self.place, kind) else {
            return Err(TakeError::Fault(WRONG_ORDER));
        };
        if is_unfinished(&self.kept.element, self.last, kind) {
            return Err(TakeError::Fault(BAD_DATA));
        }
        if !is_plain(kind, form, body) {
            return Err(TakeError::Fault(BAD_DATA));
        }
        let points = points_in(alloc, kind, body)?;
        if let Some(number) = content_fault(&self.kept.element, kind, body, &points) {
            return Err(TakeError::Fault(number));
        }
        self.kept.take_record(alloc, kind, body, points)?;
        self.place = place;
        self.count += 1;
        self.offset += body.len() as u64 + 4;
        self.last = kind;
        self.ended = kind == kinds::ENDLIB;
        Ok(())
    }

    /// Takes the record at the place, where it is there whole, and says where it ends.
    fn step(&mut self, alloc: Global, bytes: &[u8], at: usize) -> Result<Option<usize>, GdsFault>
        requires within { at ≤ length bytes.now }
        requires count { self.old.count < 2 ^ 64 - 1 }
        requires offset { self.old.offset + (length bytes.now - at) + 4 < 2 ^ 64 }
        ensures reading { (before : Records) → Stands before self.old
            → Steps before bytes.now at result self.new }
        ensures on { IfOk result (λ o. IfSome o (λ end. GoesOn at end
            (length bytes.now) self.old self.new)) }
        ensures still { IfOk result (λ o. IfNone o ((self.new.count ≡ self.old.count)
            × (self.new.offset ≡ self.old.offset))) }
        ensures failed { OnErr result ((self.new.count ≡ self.old.count) × (self.new.offset
            ≡ self.old.offset)) }
        ensures taken { OnOk result (self.new.kept.taken ≡ self.old.kept.taken) }
    {
        let (index, offset) = (self.count, self.offset);
        let record = match next_record(bytes, at) {
            Ok(record) => record,
            Err(RecordFault::Truncated(_)) => return Ok(None),
            Err(RecordFault::BadLength(_)) => {
                return Err(GdsFault::Bad {
                    number: BAD_LENGTH,
                    index,
                    offset,
                });
            }
            Err(RecordFault::UnknownType(_)) => {
                return Err(GdsFault::Bad {
                    number: UNKNOWN_KIND,
                    index,
                    offset,
                });
            }
        };
        let body = &bytes[record.start..record.end];
        match self.take(alloc, record.kind, record.form, body) {
            Ok(()) => Ok(Some(record.end)),
            Err(TakeError::Fault(number)) => Err(GdsFault::Bad {
                number,
                index,
                offset,
            }),
            Err(TakeError::NoMemory) => Err(GdsFault::NoMemory),
        }
    }

    /// Takes each whole record of the bytes, up to ENDLIB, and says where the last of them ends.
    pub(crate) fn run(&mut self, alloc: Global, bytes: &[u8]) -> Result<usize, GdsFault>
        requires count { self.old.count ≤ self.old.offset }
        requires offset { self.old.offset + length bytes.now < 2 ^ 63 }
        ensures within { IfOk result (λ at. at ≤ length bytes.now) }
        ensures count { self.new.count ≤ self.new.offset }
        ensures offset { IfOk result (λ at. self.new.offset ≡ self.old.offset + at) }
        ensures room { self.new.offset ≤ self.old.offset + length bytes.now }
        ensures reading { (before : Records) → Stands before self.old
            → Runs before bytes.now result self.new }
        ensures taken { OnOk result (self.new.kept.taken ≡ self.old.kept.taken) }
    {
        let mut at = 0;
        while !self.ended {
            match self.step(alloc, bytes, at)? {
                Some(end) => at = end,
                None => return Ok(at),
            }
        }
        Ok(at)
    }
}
