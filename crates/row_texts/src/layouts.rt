//! Layouts as text, a line a thing, and the GDSII stream of each.

use crate::elements::{
    points_of, push_array, push_outline, push_path, push_place, push_rectangles, push_start,
    push_text,
};
use crate::fields::{Fields, RowFault, push_hexadecimal};
use crate::records::{DATES, HEAD, UNITS, push_record};
use std::alloc::Global;
use std::str;

// BOUNDARY and DATATYPE, BOX and BOXTYPE.
const OUTLINE: (u8, u8) = (0x08, 0x0E);

const BLOCK: (u8, u8) = (0x2D, 0x2E);

// A line of a cell: an element, or bytes in hexadecimal digits as they stand in the stream.
fn push_element(
    alloc: Global,
    out: &mut Vec<u8>,
    word: &str,
    fields: &mut Fields<'_>,
) -> Result<(), RowFault> {
    match word {
        "rect" => push_rectangles(alloc, out, fields),
        "outline" => push_outline(alloc, out, fields, OUTLINE),
        "box" => push_outline(alloc, out, fields, BLOCK),
        "path" => push_path(alloc, out, fields),
        "text" => push_text(alloc, out, fields),
        "place" => push_place(alloc, out, fields),
        "array" => push_array(alloc, out, fields),
        "bytes" => push_bytes(out, fields.rest()),
        _ => Err(RowFault::Unclear),
    }
}

fn push_bytes(out: &mut Vec<u8>, words: &[u8]) -> Result<(), RowFault> {
    for word in words.split(|b| *b == b' ') {
        push_hexadecimal(out, word)?;
    }
    Ok(())
}

// `NAME COUNT x,y ..`: so many cells NAME1, NAME2, .., each with the one before at these points.
fn push_chain(alloc: Global, out: &mut Vec<u8>, fields: &mut Fields<'_>) -> Result<(), RowFault> {
    let Ok(name) = str::from_utf8(fields.word()) else {
        return Err(RowFault::Unclear);
    };
    let count = fields.number()?;
    let points = points_of(alloc, fields.rest())?;
    for number in 0..count {
        let before = format!(in alloc; "{name}{number}")?;
        let cell = format!(in alloc; "{name}{}", number.wrapping_add(1))?;
        push_start(alloc, out, &DATES, cell.as_bytes())?;
        push_places(alloc, out, before.as_str(), &points)?;
        push_record(out, 0x07, 0, &[])?;
    }
    Ok(())
}

// The cell of a name at each of these points.
fn push_places(
    alloc: Global,
    out: &mut Vec<u8>,
    name: &str,
    points: &[(i32, i32)],
) -> Result<(), RowFault> {
    for (x, y) in points {
        let line = format!(in alloc; "{name} {x} {y}")?;
        push_place(alloc, out, &mut Fields::of(line.as_bytes()))?;
    }
    Ok(())
}

// Adds what a line says to a stream in which a cell is open or none; whether one is open now.
fn push_line(
    alloc: Global,
    out: &mut Vec<u8>,
    line: &[u8],
    is_open: bool,
) -> Result<bool, RowFault> {
    let mut fields = Fields::of(line);
    let word = str::from_utf8(fields.word()).unwrap_or("");
    match word {
        "" | "#" | "units" | "change" | "zeros" | "size" => Ok(is_open),
        "cell" | "chain" => {
            if is_open {
                push_record(out, 0x07, 0, &[])?;
            }
            if word == "chain" {
                push_chain(alloc, out, &mut fields)?;
                return Ok(false);
            }
            push_start(alloc, out, &DATES, fields.word())?;
            Ok(true)
        }
        _ => {
            push_element(alloc, out, word, &mut fields)?;
            Ok(is_open)
        }
    }
}

// Bytes in place of those from one place up to another.
fn splice(
    alloc: Global,
    out: &mut Vec<u8>,
    from: usize,
    upto: usize,
    put: &[u8],
) -> Result<(), RowFault> {
    let rest = out.get(upto..).unwrap_or(&[]).to_vec(alloc)?;
    out.truncate(from);
    out.extend_from_slice(put)?;
    out.extend_from_slice(&rest)?;
    Ok(())
}

fn place(fields: &mut Fields<'_>) -> Result<usize, RowFault> {
    usize::try_from(fields.number()?).map_err(|_| RowFault::Unclear)
}

// A line that changes the whole stream: `units` its unit, `change FROM UPTO BYTES` a part of it,
// `zeros COUNT` what stands behind it; or says its size.
fn change_by(alloc: Global, out: &mut Vec<u8>, line: &[u8]) -> Result<(), RowFault> {
    let mut fields = Fields::of(line);
    let mut put = Vec::new(alloc);
    match str::from_utf8(fields.word()).unwrap_or("") {
        "units" => {
            push_bytes(&mut put, fields.rest())?;
            splice(alloc, out, 44, 60, &put)
        }
        "change" => {
            let (from, upto) = (place(&mut fields)?, place(&mut fields)?);
            push_bytes(&mut put, fields.rest())?;
            splice(alloc, out, from, upto, &put)
        }
        "zeros" => {
            for _ in 0..fields.number()? {
                out.push(0)?;
            }
            Ok(())
        }
        "size" if place(&mut fields)? != out.len() => Err(RowFault::Unclear),
        _ => Ok(()),
    }
}

/// The GDSII stream of a layout: `cell NAME`, and behind it the lines of what stands in the cell,
/// whose elements have their records in the order of the format. A line that changes the stream as
/// a whole does so when all others are read, in the order of the text.
pub fn stream_of(alloc: Global, text: &[u8]) -> Result<Vec<u8>, RowFault> {
    let mut out = HEAD.to_vec(alloc)?;
    push_record(&mut out, 0x03, 0x05, &UNITS)?;
    let mut is_open = false;
    for line in text.split(|b| *b == b'\n') {
        is_open = push_line(alloc, &mut out, line, is_open)?;
    }
    if is_open {
        push_record(&mut out, 0x07, 0, &[])?;
    }
    push_record(&mut out, 0x04, 0, &[])?;
    for line in text.split(|b| *b == b'\n') {
        change_by(alloc, &mut out, line)?;
    }
    Ok(out)
}
