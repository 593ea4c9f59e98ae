//! What no clause says: streams and their libraries.

ghost use Rattle.std.specs.Prelude.{◌≤◌, length};

use crate::streams::{BOUNDARY, CELL, END, FULL, HEAD, KLAYOUT, PATH, PLAIN, STORED, bytes};
use crate::written::written;
use gds_elements::{GdsFault, LibraryReader, read_library};
use gds_records::{kinds, write_record};
use std::alloc::Global;
use std::test::Fail;

const STORED_LIBRARY: &str = "library 76
cell 65
1/0 boundary 0 0 0 10 10 10 10 0 0 0
2/0 boundary 5 5 5 15 15 15 15 5 5 5
";

const FULL_LIBRARY: &str = "library 76
cell 65
1/0 boundary 0 0 0 10 10 10 10 0 0 0
1/0 path 3 5 -2 by 0 0 20 0
1/0 box 0 0 10 10
1/0 text 1 2 by 65 98
M90 7 -8, 1 columns by 0 0, 1 rows by 0 0 of 66
M90 100 200, 3 columns by 10 0, 2 rows by 0 20 of 66
";

const PLAIN_LIBRARY: &str = "library 76
cell 65
1/0 boundary 0 0 0 10 10 10 10 0 0 0
1/0 path 0 0 0 by 0 0 20 0
1/0 boundary 0 0 0 10 0 10 0 0 0 0
1/0 text 1 2 by 65 66
R0 7 -8, 1 columns by 0 0, 1 rows by 0 0 of 66
R0 100 200, 3 columns by 10 0, 2 rows by 0 20 of 66
";

const KLAYOUT_LIBRARY: &str = "library 76 73 66
cell 83 85 66
1/0 boundary 0 0 0 10 10 10 10 0 0 0
cell 84 79 80
1/0 boundary 0 0 0 300 100 300 100 100 200 100 200 0 0 0
1/0 boundary 50 50 50 250 400 250 400 50 50 50
2/5 path 20 20 20 by 0 0 500 0 500 200
2/5 text 10 20 by 105 110
M90 100 200, 1 columns by 0 0, 1 rows by 0 0 of 83 85 66
R180 -60 30, 3 columns by -20 0, 2 rows by 0 -30 of 83 85 66
";

const HEADER: &str = "00060002 0258";

const BGNLIB: &str = "001C0102 000000000000000000000000000000000000000000000000";

const LIBNAME: &str = "00060206 4C00";

const UNITS: &str = "00140305 3E4189374BC6A7F0 3944B82FA09B5A54";

const BEFORE: &str = "00061F06 4C4C 00042006 00062202 0003";

const BEHIND: &str = "00062306 4100 00063602 0000 00063706 4100 00043800";

/// Streams, and the libraries that they are.
static LIBRARIES: [(&[&str], &str); 11] = [
    (&[STORED], STORED_LIBRARY),
    // Each element with each of its parts, and without them.
    (&[HEAD, CELL, FULL, END], FULL_LIBRARY),
    (&[HEAD, CELL, PLAIN, END], PLAIN_LIBRARY),
    (&[KLAYOUT], KLAYOUT_LIBRARY),
    (&[HEAD, "00040400"], "library 76\n"),
    // REFLIBS, FONTS and GENERATIONS before the name, ATTRTABLE, FORMAT, MASK and ENDMASKS behind
    // it, and the other way round.
    (
        &[HEADER, BGNLIB, BEFORE, LIBNAME, BEHIND, UNITS, "00040400"],
        "library 76\n",
    ),
    (
        &[HEADER, BGNLIB, BEHIND, LIBNAME, BEFORE, UNITS, "00040400"],
        "library 76\n",
    ),
    // Outlines whose points stand in several records.
    (
        &[
            HEAD,
            CELL,
            BOUNDARY,
            "001C1003 00000000 00000000 00000000 0000000A 0000000A 0000000A \
            00141003 0000000A 00000000 00000000 00000000",
            "00041100",
            END,
        ],
        "library 76\ncell 65\n1/0 boundary 0 0 0 10 10 10 10 0 0 0\n",
    ),
    (
        &[
            HEAD,
            CELL,
            BOUNDARY,
            "002C1003 00000000 00000000 00000000 0000000A 0000000A 0000000A 0000000A 00000000 \
            00000000 00000000 \
            002C1003 00000000 00000000 00000000 0000000A 0000000A 0000000A 0000000A 00000000 \
            00000000 00000000 00062B020001 00062C066162",
            "00041100",
            END,
        ],
        "library 76\ncell 65\n1/0 boundary 0 0 0 10 10 10 10 0 0 0 0 0 0 10 10 10 10 0 0 0\n",
    ),
    (
        &[
            HEAD,
            CELL,
            PATH,
            "00141003 00000000 00000000 00000005 00000000 \
            00141003 00000005 00000000 00000009 00000000",
            "00041100",
            END,
        ],
        "library 76\ncell 65\n1/0 path 0 0 0 by 0 0 5 0 5 0 9 0\n",
    ),
    (
        &[
            HEAD,
            CELL,
            PATH,
            "000C1003 00000005 00000005 000C1003 00000005 00000005 000C1003 00000005 00000009",
            "00041100",
            END,
        ],
        "library 76\ncell 65\n1/0 path 0 0 0 by 5 5 5 5 5 9\n",
    ),
];

fn whole(alloc: Global, stream: &[u8]) -> Result<String, GdsFault> {
    Ok(written(alloc, &read_library(alloc, stream)?)?)
}

// The library of a stream in two pieces.
fn cut(alloc: Global, stream: &[u8], at: usize) -> Result<String, GdsFault>
    requires { at ≤ length stream.now }
{
    let (piece, behind) = stream.split_at(at);
    let mut reader = LibraryReader::new(alloc);
    reader.feed(alloc, piece)?;
    reader.feed(alloc, behind)?;
    Ok(written(alloc, &reader.finish()?)?)
}

// The library of a stream that comes byte by byte.
fn bytewise(alloc: Global, stream: &[u8]) -> Result<String, GdsFault> {
    let mut reader = LibraryReader::new(alloc);
    for byte in stream {
        reader.feed(alloc, &[*byte])?;
    }
    Ok(written(alloc, &reader.finish()?)?)
}

#[test]
fn libraries(rt: HostRuntime) -> Result<(), Fail> {
    let alloc = rt.alloc();
    for (texts, wanted) in &LIBRARIES {
        let stream = bytes(alloc, texts)?;
        assert!(rt; whole(alloc, &stream)?.as_str() == *wanted);
        assert!(rt; bytewise(alloc, &stream)?.as_str() == *wanted);
    }
    Ok(())
}

#[test]
fn cut_anywhere(rt: HostRuntime) -> Result<(), Fail> {
    let alloc = rt.alloc();
    let stream = bytes(alloc, &[STORED])?;
    assert!(rt; stream.len() == 230);
    for at in 0..=stream.len() {
        let found = cut(alloc, &stream, at)?;
        assert!(rt; found.as_str() == STORED_LIBRARY, "cut at {at}");
    }
    Ok(())
}

#[test]
fn nothing_behind_the_end(rt: HostRuntime) -> Result<(), Fail> {
    let alloc = rt.alloc();
    let mut stream = bytes(alloc, &[STORED])?;
    stream.extend_from_slice(&[0; 2048])?;
    assert!(rt; whole(alloc, &stream)?.as_str() == STORED_LIBRARY);
    Ok(())
}

#[test]
fn header(rt: HostRuntime) -> Result<(), Fail> {
    let alloc = rt.alloc();
    let stored = bytes(alloc, &[STORED])?;
    let library = read_library(alloc, &stored)?;
    assert!(rt; library.version == [0x02, 0x58]);
    assert!(rt; library.dates == [0; 24]);
    assert!(rt; Some(library.units.as_slice()) == stored.get(44..60));
    Ok(())
}

#[test]
fn written_record(rt: HostRuntime) -> Result<(), Fail> {
    let alloc = rt.alloc();
    let mut stream = bytes(alloc, &[])?;
    write_record(&mut stream, kinds::LAYER, 2, &[0, 7])?;
    assert!(rt; stream.as_slice() == [0, 6, 0x0D, 2, 0, 7].as_slice());
    Ok(())
}
