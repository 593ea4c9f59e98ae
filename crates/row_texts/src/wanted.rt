//! What is wanted of a run, and where it is something else.

use crate::fields::{Fields, RowFault};
use crate::layouts::stream_of;
use crate::rows::{Row, section_text};
use crate::sections::body_text;
use std::alloc::{AllocError, Global};
use std::rt::Files;

/// What a run left: its status, its line, and the files s, n and p.
pub struct Ran {
    pub code: u8,
    pub line: Vec<u8>,
    pub shapes: Option<Vec<u8>>,
    pub netlist: Option<Vec<u8>>,
    pub report: Option<Vec<u8>>,
}

// Written out, so that its owners drop it by one call.
impl Drop for Ran {
    fn drop(self) {
        let Ran {
            code: _,
            line: _,
            shapes: _,
            netlist: _,
            report: _,
        } = self;
    }
}

/// Where the files of a run lie.
#[derive(Clone, Copy, PartialEq, Eq)]
pub enum Place {
    /// In memory: l the layout, r the rules, c the schematic.
    Memory,
    /// In the rows' folder.
    Folder,
}

// Adds that something isn't as it is wanted, and what was found.
fn tell(out: &mut Vec<u8>, what: &[u8], found: &[u8]) -> Result<(), AllocError> {
    out.extend_from_slice(what)?;
    out.extend_from_slice(b" is, not as wanted:\n")?;
    out.extend_from_slice(found)
}

// Tells of a file that isn't as it is wanted: its text, or how long a stream is.
fn tell_file<R: AllocGlobal>(
    rt: &R,
    out: &mut Vec<u8>,
    what: &[u8],
    wanted: &[u8],
    found: &[u8],
) -> Result<(), AllocError> {
    if !matches!(what, b"shapes") {
        return tell(out, what, found);
    }
    let sizes = format!(in rt.alloc(); "{} bytes for {}\n", found.len(), wanted.len())?;
    tell(out, what, sizes.as_bytes())
}

fn compare<R: AllocGlobal>(
    rt: &R,
    out: &mut Vec<u8>,
    what: &[u8],
    wanted: &[u8],
    found: &Option<Vec<u8>>,
) -> Result<(), AllocError> {
    match found {
        Some(bytes) if bytes.as_slice() == wanted => Ok(()),
        Some(bytes) => tell_file(rt, out, what, wanted, bytes),
        None => tell(out, what, b"absent\n"),
    }
}

// Compares a file with what the row says of it; it says nothing of a file that isn't there, or, of
// a run that is refused, that it isn't.
fn compare_file<R: Files + AllocGlobal>(
    rt: &R,
    out: &mut Vec<u8>,
    row: &Row<'_>,
    what: &[u8],
    found: &Option<Vec<u8>>,
) -> Result<(), RowFault> {
    let Some(section) = row.find(what) else {
        return Ok(());
    };
    if matches!(section.rest, b"none") {
        if found.is_some() {
            tell(out, what, b"there\n")?;
        }
        return Ok(());
    }
    let mut wanted = section_text(rt, section)?;
    if matches!(what, b"shapes") {
        wanted = stream_of(rt.alloc(), &wanted)?;
    }
    compare(rt, out, what, &wanted, found)?;
    Ok(())
}

/// The status that is wanted: 0 where nothing is said.
pub fn status_of(row: &Row<'_>) -> Result<i32, RowFault> {
    match row.find(b"status") {
        Some(section) => Fields::of(section.rest).number(),
        None => Ok(0),
    }
}

// Compares what the sink took with the row's line, and the lines below it.
fn compare_line(
    alloc: Global,
    out: &mut Vec<u8>,
    row: &Row<'_>,
    line: &[u8],
) -> Result<(), AllocError> {
    let Some(section) = row.find(b"line") else {
        return Ok(());
    };
    let mut wanted = section.rest.to_vec(alloc)?;
    if !wanted.is_empty() {
        wanted.push(b'\n')?;
    }
    body_text(&mut wanted, section.body)?;
    if wanted.as_slice() == line {
        Ok(())
    } else {
        tell(out, b"line", line)
    }
}

// No file is started by a run in memory that is refused.
fn compare_none(out: &mut Vec<u8>, ran: &Ran) -> Result<(), AllocError> {
    if ran.shapes.is_some() || ran.netlist.is_some() || ran.report.is_some() {
        tell(out, b"a file", b"there\n")?;
    }
    Ok(())
}

/// Adds each difference of what a run left from what the row wants.
pub fn compare_all<R: Files + AllocGlobal>(
    rt: &R,
    out: &mut Vec<u8>,
    row: &Row<'_>,
    place: Place,
    ran: &Ran,
) -> Result<(), RowFault> {
    if i32::from(ran.code) != status_of(row)? {
        let code = format!(in rt.alloc(); "{}\n", ran.code)?;
        tell(out, b"status", code.as_bytes())?;
    }
    compare_line(rt.alloc(), out, row, &ran.line)?;
    compare_file(rt, out, row, b"shapes", &ran.shapes)?;
    compare_file(rt, out, row, b"netlist", &ran.netlist)?;
    compare_file(rt, out, row, b"report", &ran.report)?;
    if ran.code == 2 && place == Place::Memory {
        compare_none(out, ran)?;
    }
    Ok(())
}
