//! Outlines whose points stand in several records.

use crate::streams::{BOUNDARY, CELL, END, HEAD, bytes};
use gds_elements::{GdsFault, Library, ShapeForm, read_library};
use std::alloc::{AllocError, Global};
use std::test::Fail;

// So many records of so many points each, all of them the origin.
fn push_origins(out: &mut Vec<u8>, records: usize, points: u16) -> Result<(), AllocError> {
    for _ in 0..records {
        let size = points.saturating_mul(8).saturating_add(4);
        out.extend_from_slice(&size.to_be_bytes())?;
        out.extend_from_slice(&[0x10, 3])?;
        for _ in 0..points {
            out.extend_from_slice(&[0; 8])?;
        }
    }
    Ok(())
}

// How many points the only shape of the library has.
fn count_of(library: &Library) -> Option<usize> {
    let shape = library.cells.first()?.shapes.first()?;
    match &shape.form {
        ShapeForm::Boundary(points) => Some(points.len()),
        _ => None,
    }
}

// The boundary of all of these, read.
fn read_origins(alloc: Global, rows: &[(usize, u16)]) -> Result<Library, GdsFault> {
    let mut stream = bytes(alloc, &[HEAD, CELL, BOUNDARY])?;
    for (records, points) in rows {
        push_origins(&mut stream, *records, *points)?;
    }
    stream.extend_from_slice(&bytes(alloc, &["00041100", END])?)?;
    read_library(alloc, &stream)
}

/// So many records of so many points each, and how many points the outline has.
static MOST: [(&[(usize, u16)], usize); 2] = [
    (&[(122, 8191), (1, 698)], 1_000_000),
    (&[(1_000_000, 1)], 1_000_000),
];

// A million points in 123 records, and in as many records.
#[test]
fn most_points(rt: HostRuntime) -> Result<(), Fail> {
    let alloc = rt.alloc();
    for (rows, count) in &MOST {
        let library = read_origins(alloc, rows)?;
        assert!(rt; count_of(&library) == Some(*count));
    }
    Ok(())
}

/// One point more, in a record of its own and in the last: the record and its offset.
static MORE: [(&[(usize, u16)], u64, u64); 2] = [
    (&[(122, 8191), (1, 698), (1, 1)], 132, 8_000_602),
    (&[(122, 8191), (1, 699)], 131, 7_995_014),
];

fn is_refused(alloc: Global, rows: &[(usize, u16)], record: u64, place: u64) -> bool {
    match read_origins(alloc, rows) {
        Err(
            GdsFault::Bad {
                number: 14,
                index,
                offset,
            },
        ) => index == record && offset == place,
        _ => false,
    }
}

#[test]
fn too_many_points(rt: HostRuntime) {
    for (rows, record, place) in &MORE {
        assert!(rt; is_refused(rt.alloc(), rows, *record, *place), "{record}");
    }
}
