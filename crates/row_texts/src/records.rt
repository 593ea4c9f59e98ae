//! Records of a GDSII stream (GDSII Stream Format, Release 6).

use crate::fields::RowFault;
use gds_records::write_record;
use std::alloc::Global;

/// HEADER, BGNLIB, LIBNAME `L`, with dates.
pub const HEAD: [u8; 40] = [
    0x00, 0x06, 0x00, 0x02, 0x02, 0x58, 0x00, 0x1C, 0x01, 0x02, 0x07, 0xEA, 0, 11, 0, 27, 0, 6, 0,
    15, 0, 59, 0x07, 0xEA, 0, 11, 0, 27, 0, 7, 0, 25, 0, 1, 0x00, 0x06, 0x02, 0x06, b'L', 0,
];

/// The data of UNITS for a nanometre.
pub const UNITS: [u8; 16] = [
    0x3E, 0x41, 0x89, 0x37, 0x4B, 0xC6, 0xA7, 0xF0, 0x39, 0x44, 0xB8, 0x2F, 0xA0, 0x9B, 0x5A, 0x54,
];

/// The dates of a cell.
pub const DATES: [u8; 24] = [
    0x07, 0xE9, 0, 1, 0, 2, 0, 3, 0, 4, 0, 5, 0x07, 0xE9, 0, 12, 0, 31, 0, 23, 0, 59, 0, 58,
];

/// A record of a kind, a form and these data.
pub fn push_record(out: &mut Vec<u8>, kind: u8, form: u8, data: &[u8]) -> Result<(), RowFault> {
    if data.len() % 2 != 0 || data.len() > 65530 {
        return Err(RowFault::Unclear);
    }
    write_record(out, kind, form, data)?;
    Ok(())
}

/// A record with a string, ended by a NUL where its length is odd.
pub fn push_string(
    alloc: Global,
    out: &mut Vec<u8>,
    kind: u8,
    text: &[u8],
) -> Result<(), RowFault> {
    let mut data = text.to_vec(alloc)?;
    if data.len() % 2 == 1 {
        data.push(0)?;
    }
    push_record(out, kind, 0x06, &data)
}

/// A record of one number of 16 bits.
pub fn push_short(out: &mut Vec<u8>, kind: u8, number: u16) -> Result<(), RowFault> {
    push_record(out, kind, 0x02, &number.to_be_bytes())
}

/// A record of one number of 32 bits.
pub fn push_long(out: &mut Vec<u8>, kind: u8, number: i32) -> Result<(), RowFault> {
    push_record(out, kind, 0x03, &number.to_be_bytes())
}

// The most points that one record holds.
const A_RECORD: usize = 8191;

/// XY, as often as it takes.
pub fn push_points(
    alloc: Global,
    out: &mut Vec<u8>,
    points: &[(i32, i32)],
) -> Result<(), RowFault> {
    for part in points.chunks(A_RECORD) {
        let mut data = Vec::new(alloc);
        for (x, y) in part {
            data.extend_from_slice(&x.to_be_bytes())?;
            data.extend_from_slice(&y.to_be_bytes())?;
        }
        push_record(out, 0x10, 0x03, &data)?;
    }
    Ok(())
}

/// The first record of an element, its layer, and the record of this kind with its type.
pub fn begin_element(
    out: &mut Vec<u8>,
    start: u8,
    kind: u8,
    layer: (u16, u16),
) -> Result<(), RowFault> {
    push_record(out, start, 0, &[])?;
    push_short(out, 0x0D, layer.0)?;
    push_short(out, kind, layer.1)
}

/// ENDEL.
pub fn end_element(out: &mut Vec<u8>) -> Result<(), RowFault> {
    push_record(out, 0x11, 0, &[])
}
