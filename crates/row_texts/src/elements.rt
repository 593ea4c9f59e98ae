//! The elements of a cell, each from a line.

use crate::fields::{Fields, RowFault, pair_of, short, unescape};
use crate::records::{
    begin_element, end_element, push_long, push_points, push_record, push_short, push_string,
};
use std::alloc::Global;

/// The points that a line ends with.
pub fn points_of(alloc: Global, words: &[u8]) -> Result<Vec<(i32, i32)>, RowFault> {
    let mut points = Vec::new(alloc);
    for word in words.split(|b| *b == b' ') {
        if !word.is_empty() {
            points.push(pair_of(word, b',')?)?;
        }
    }
    Ok(points)
}

// An outline of these points, round to the first one.
fn push_closed(
    alloc: Global,
    out: &mut Vec<u8>,
    kinds: (u8, u8),
    layer: (u16, u16),
    points: &[(i32, i32)],
) -> Result<(), RowFault> {
    let mut round = points.to_vec(alloc)?;
    if let [first, ..] = points {
        round.push(*first)?;
    }
    begin_element(out, kinds.0, kinds.1, layer)?;
    push_points(alloc, out, &round)?;
    end_element(out)
}

/// `LAYER x,y x,y ..`: an outline, as the element of these kinds.
pub fn push_outline(
    alloc: Global,
    out: &mut Vec<u8>,
    fields: &mut Fields<'_>,
    kinds: (u8, u8),
) -> Result<(), RowFault> {
    let layer = fields.layer()?;
    let points = points_of(alloc, fields.rest())?;
    push_closed(alloc, out, kinds, layer, &points)
}

// The corners of a rectangle so often moved by a step, from the lower left one up.
fn corners(corners: [i32; 4], step: (i32, i32), times: i32) -> [(i32, i32); 4] {
    let (right, up) = (step.0.wrapping_mul(times), step.1.wrapping_mul(times));
    let (x1, x2) = (
        corners[0].wrapping_add(right),
        corners[2].wrapping_add(right),
    );
    let (y1, y2) = (corners[1].wrapping_add(up), corners[3].wrapping_add(up));
    [(x1, y1), (x1, y2), (x2, y2), (x2, y1)]
}

/// `LAYER x1 y1 x2 y2`, and where it stands several times `COUNT dx,dy`: a rectangle.
pub fn push_rectangles(
    alloc: Global,
    out: &mut Vec<u8>,
    fields: &mut Fields<'_>,
) -> Result<(), RowFault> {
    let layer = fields.layer()?;
    let rect = [
        fields.number()?,
        fields.number()?,
        fields.number()?,
        fields.number()?,
    ];
    let (count, step) = if fields.is_done() {
        (1, (0, 0))
    } else {
        (fields.number()?, fields.pair(b',')?)
    };
    for times in 0..count {
        push_closed(alloc, out, (0x08, 0x0E), layer, &corners(rect, step, times))?;
    }
    Ok(())
}

/// `LAYER WIDTH x,y x,y ..`: a path; before its points `type TYPE`, and `ends BEGIN END`.
pub fn push_path(
    alloc: Global,
    out: &mut Vec<u8>,
    fields: &mut Fields<'_>,
) -> Result<(), RowFault> {
    begin_element(out, 0x09, 0x0E, fields.layer()?)?;
    let width = fields.number()?;
    if fields.takes(b"type") {
        push_short(out, 0x21, short(fields.number()?)?)?;
    }
    push_long(out, 0x0F, width)?;
    if fields.takes(b"ends") {
        push_long(out, 0x30, fields.number()?)?;
        push_long(out, 0x31, fields.number()?)?;
    }
    let points = points_of(alloc, fields.rest())?;
    push_points(alloc, out, &points)?;
    end_element(out)
}

/// `LAYER x y TEXT`: a text, whose letters are those behind the blank, as `unescape` reads them.
pub fn push_text(
    alloc: Global,
    out: &mut Vec<u8>,
    fields: &mut Fields<'_>,
) -> Result<(), RowFault> {
    begin_element(out, 0x0C, 0x16, fields.layer()?)?;
    let at = (fields.number()?, fields.number()?);
    push_points(alloc, out, &[at])?;
    let mut text = Vec::new(alloc);
    unescape(&mut text, fields.rest())?;
    push_string(alloc, out, 0x19, &text)?;
    end_element(out)
}

// STRANS and ANGLE of the turn that a line ends with: by quarters, mirrored first where it begins
// with M. Neither stands for R0, and no ANGLE for M0.
fn push_turn(out: &mut Vec<u8>, turn: &[u8]) -> Result<(), RowFault> {
    let (mirror, quarters) = match turn {
        b"" | b"R0" => return Ok(()),
        [b'R', quarters @ ..] => (0, quarters),
        [b'M', quarters @ ..] => (0x80, quarters),
        _ => return Err(RowFault::Unclear),
    };
    push_record(out, 0x1A, 0x01, &[mirror, 0])?;
    let [first, second, third] = match quarters {
        b"0" => return Ok(()),
        b"90" => [0x42, 0x5A, 0],
        b"180" => [0x42, 0xB4, 0],
        b"270" => [0x43, 0x10, 0xE0],
        _ => return Err(RowFault::Unclear),
    };
    push_record(out, 0x1C, 0x05, &[first, second, third, 0, 0, 0, 0, 0])
}

// The name of a cell.
fn push_name(alloc: Global, out: &mut Vec<u8>, kind: u8, word: &[u8]) -> Result<(), RowFault> {
    let mut name = Vec::new(alloc);
    unescape(&mut name, word)?;
    push_string(alloc, out, kind, &name)
}

/// BGNSTR and STRNAME of a cell of this name.
pub fn push_start(
    alloc: Global,
    out: &mut Vec<u8>,
    dates: &[u8],
    name: &[u8],
) -> Result<(), RowFault> {
    push_record(out, 0x05, 0x02, dates)?;
    push_name(alloc, out, 0x06, name)
}

/// `NAME x y`, or `NAME x y TURN`: one placement.
pub fn push_place(
    alloc: Global,
    out: &mut Vec<u8>,
    fields: &mut Fields<'_>,
) -> Result<(), RowFault> {
    push_record(out, 0x0A, 0, &[])?;
    push_name(alloc, out, 0x12, fields.word())?;
    let at = (fields.number()?, fields.number()?);
    push_turn(out, fields.word())?;
    push_points(alloc, out, &[at])?;
    end_element(out)
}

// A point so many steps from another.
fn stepped(from: (i32, i32), step: (i32, i32), count: u16) -> (i32, i32) {
    let count = i32::from(count);
    let (right, up) = (step.0.wrapping_mul(count), step.1.wrapping_mul(count));
    (from.0.wrapping_add(right), from.1.wrapping_add(up))
}

/// `NAME x y COLUMNS ROWS dx,dy dx,dy`, or with a turn behind it: an array, with the steps of its
/// columns and of its rows.
pub fn push_array(
    alloc: Global,
    out: &mut Vec<u8>,
    fields: &mut Fields<'_>,
) -> Result<(), RowFault> {
    push_record(out, 0x0B, 0, &[])?;
    push_name(alloc, out, 0x12, fields.word())?;
    let at = (fields.number()?, fields.number()?);
    let (columns, rows) = (short(fields.number()?)?, short(fields.number()?)?);
    let (right, up) = (fields.pair(b',')?, fields.pair(b',')?);
    push_turn(out, fields.word())?;
    let ([a, b], [c, d]) = (columns.to_be_bytes(), rows.to_be_bytes());
    push_record(out, 0x13, 0x02, &[a, b, c, d])?;
    let ends = [at, stepped(at, right, columns), stepped(at, up, rows)];
    push_points(alloc, out, &ends)?;
    end_element(out)
}
