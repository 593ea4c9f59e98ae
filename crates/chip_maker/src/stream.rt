//! The stream of a chip.

ghost use Rattle.std.specs.Prelude.{◌≡◌, ◌≤◌, length, IfOk};
ghost use Rattle.chip_maker.specs.Stream.{stream_of};

use crate::cells::{write_inverter, write_rows, write_top};
use crate::inverters::{Kind, Row};
use gds_shapes::{Heading, write_end, write_heading};
use std::alloc::{AllocError, Global};

// Version 600, no dates, and a database unit of a nanometre.
const HEADING: Heading = Heading {
    version: [0x02, 0x58],
    dates: [0; 24],
    name: b"CHIP",
    units: [
        0x3E, 0x41, 0x89, 0x37, 0x4B, 0xC6, 0xA7, 0xF0, 0x39, 0x44, 0xB8, 0x2F, 0xA0, 0x9B, 0x5A,
        0x54,
    ],
};

/// The layout of a chip of these rows, at most 1,000.
pub fn stream_bytes(alloc: Global, rows: &[Row]) -> Result<Vec<u8>, AllocError>
    requires { length rows.now ≤ 1000 }
    ensures { IfOk result (λ stream. stream.items ≡ stream_of rows.now) }
{
    let mut out = Vec::new(alloc);
    write_heading(alloc, &mut out, &HEADING)?;
    write_inverter(alloc, &mut out, Kind::Plain)?;
    write_inverter(alloc, &mut out, Kind::Wide)?;
    write_rows(alloc, &mut out, rows)?;
    write_top(alloc, &mut out, rows)?;
    write_end(&mut out)?;
    Ok(out)
}
