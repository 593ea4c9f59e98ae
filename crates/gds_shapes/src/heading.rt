//! What stands before a library's cells.

ghost use Rattle.std.specs.Prelude.{◌≡◌, ◌++◌, OnOk, [], ◌∷◌};
ghost use Rattle.std.specs.List.{flat_map};
ghost use Rattle.gds_records.specs.Records.{record_bytes};
ghost use Rattle.gds_shapes.specs.Data.{IsShort, bare, numbers, string};
ghost use Rattle.gds_shapes.specs.Stream.{header, heading_seen};
ghost use Rattle.gds_records.specs.Kinds.{BGNSTR, STRNAME, ENDSTR, ENDLIB};

use crate::records::{NONE, NUMBERS, REALS, write_string};
use gds_records::{kinds, write_record};
use std::alloc::{AllocError, Global};

/// The data of a library's HEADER, BGNLIB, LIBNAME and UNITS.
#[derive(Clone, Copy)]
pub struct Heading<'a> {
    pub version: [u8; 2],
    pub dates: [u8; 24],
    pub name: &'a [u8],
    pub units: [u8; 16],
}

/// Appends what stands before the cells. The name has at most 65,530 bytes. An `Err` is want of
/// memory; then a part may be appended.
pub fn write_heading(alloc: Global, out: &mut Vec<u8>, heading: &Heading) -> Result<(), AllocError>
    requires { IsShort heading.now.name.now }
    ensures { OnOk result (out.new.items ≡ out.old.items ++ flat_map record_bytes (header
        (heading_seen heading.now))) }
{
    write_record(out, kinds::HEADER, NUMBERS, &heading.version)?;
    write_record(out, kinds::BGNLIB, NUMBERS, &heading.dates)?;
    write_string(alloc, out, kinds::LIBNAME, heading.name)?;
    write_record(out, kinds::UNITS, REALS, &heading.units)
}

/// Appends the beginning of a cell: its dates and its name, of at most 65,530 bytes.
pub fn write_cell_start(
    alloc: Global,
    out: &mut Vec<u8>,
    dates: &[u8; 24],
    name: &[u8],
) -> Result<(), AllocError>
    requires { IsShort name.now }
    ensures { OnOk result (out.new.items ≡ out.old.items ++ flat_map record_bytes
        (numbers BGNSTR dates.now ∷ string STRNAME name.now ∷ [])) }
{
    write_record(out, kinds::BGNSTR, NUMBERS, dates)?;
    write_string(alloc, out, kinds::STRNAME, name)
}

/// Appends the end of a cell.
pub fn write_cell_end(out: &mut Vec<u8>) -> Result<(), AllocError>
    ensures { OnOk result (out.new.items ≡ out.old.items ++ record_bytes (bare ENDSTR)) }
{
    write_record(out, kinds::ENDSTR, NONE, &[])
}

/// Appends the end of a library.
pub fn write_end(out: &mut Vec<u8>) -> Result<(), AllocError>
    ensures { OnOk result (out.new.items ≡ out.old.items ++ record_bytes (bare ENDLIB)) }
{
    write_record(out, kinds::ENDLIB, NONE, &[])
}
