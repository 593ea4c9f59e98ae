//! Layouts read in pieces.

ghost use Rattle.std.specs.Prelude.{◌≤◌, ◌<◌, length};

use crate::layouts::{front, stream};
use crate::listing::told;
use cell_graph::LinkFault;
use gds_elements::GdsFault;
use gds_layout::{Layout, LayoutFault, LayoutReader, read_layout};
use geo_base::LayerKey;
use net_names::Name;
use std::alloc::Global;
use std::test::Fail;

/// The layers 1/0 and 2/0.
const KEYS: [LayerKey; 2] = [
    LayerKey {
        layer: 1,
        datatype: 0,
    },
    LayerKey {
        layer: 2,
        datatype: 0,
    },
];

/// Two squares in one cell.
const SQUARES: &str = "cell A
rect 1 0 0 10 10
rect 2 5 5 15 15
";

/// The same, the second with a slanted edge.
const SLANTED: &str = "cell A
rect 1 0 0 10 10
rect 2 5 5 15 15
change 201 202 10
";

/// A reference to a cell that isn't there.
const MISSING: &str = "cell A
place B 0 0
";

/// Each layout's cells, and what is read of them.
static LAYOUTS: [(&str, &str); 2] = [
    (
        SQUARES,
        "unit 1000 top 0
name 65
hull 0 0 15 15
1/0 0 0 10 10
2/0 5 5 15 15
",
    ),
    // Each element's square is that of its origin, one to the right and two up.
    (
        "cell K
rect 1 2 1 3 2
cell T
array K 100 200 3 2 10,0 0,20 M90
rect 2 0 0 5 5
",
        "unit 1000 top 1
name 75
hull 2 1 3 2
1/0 2 1 3 2
name 84
hull 0 0 122 223
2/0 0 0 5 5
cell 0 M90 100 200, 3 columns by 10 0, 2 rows by 0 20
",
    ),
];

// A reader that was fed the bytes in pieces of this size, the last one shorter.
fn fed(alloc: Global, bytes: &[u8], size: usize) -> Result<LayoutReader, LayoutFault>
    requires { 0 < size }
{
    let mut reader = LayoutReader::new(alloc);
    let mut rest = bytes;
    while !rest.is_empty() {
        let (piece, behind) = rest.split_at(usize::min(size, rest.len()));
        reader.feed(alloc, piece)?;
        rest = behind;
    }
    Ok(reader)
}

fn in_pieces(alloc: Global, bytes: &[u8], size: usize) -> Result<Layout, LayoutFault>
    requires { 0 < size }
{
    fed(alloc, bytes, size)?.finish(alloc, None)
}

fn cut(alloc: Global, bytes: &[u8], at: usize) -> Result<Layout, LayoutFault>
    requires { at ≤ length bytes.now }
{
    let (piece, behind) = bytes.split_at(at);
    let mut reader = LayoutReader::new(alloc);
    reader.feed(alloc, piece)?;
    reader.feed(alloc, behind)?;
    reader.finish(alloc, None)
}

// What is read of a layout.
fn text_of(alloc: Global, layout: Result<Layout, LayoutFault>) -> Result<String, LayoutFault> {
    Ok(told(alloc, &layout?, &KEYS)?)
}

// Whole, cut at each place, and in pieces of one size.
#[test]
fn read_in_pieces(rt: HostRuntime) -> Result<(), Fail> {
    let alloc = rt.alloc();
    for (cells, wanted) in &LAYOUTS {
        let stream = stream(alloc, cells)?;
        let whole = text_of(alloc, read_layout(alloc, &stream, None))?;
        assert_eq!(rt; whole.as_str(), *wanted);
        for at in 0..=stream.len() {
            let found = text_of(alloc, cut(alloc, &stream, at))?;
            assert!(rt; found.as_str() == *wanted, "{at}");
        }
        for size in [1, 2, 3, 1000] {
            let found = text_of(alloc, in_pieces(alloc, &stream, size))?;
            assert!(rt; found.as_str() == *wanted, "{size}");
        }
    }
    Ok(())
}

/// The number of a fault of the stream, its record and its offset.
type Place = (u8, u64, u64);

fn place_of(fault: &LayoutFault) -> Option<Place> {
    match fault {
        LayoutFault::Gds(
            GdsFault::Bad {
                number,
                index,
                offset,
            },
        ) => Some((*number, *index, *offset)),
        _ => None,
    }
}

// The place of an answer's fault.
fn fault_of<T: Drop>(answer: Result<T, LayoutFault>) -> Option<Place> {
    place_of(&answer.err()?)
}

/// Where each record of the two squares' stream ends.
static ENDS: [usize; 18] = [
    6, 34, 40, 60, 88, 94, 98, 104, 110, 154, 158, 162, 168, 174, 218, 222, 226, 230,
];

// The fault of so many first bytes of that stream: too few, in the record that they end in.
fn cut_place(at: usize) -> Place {
    let mut place: Place = (1, 0, 0);
    for end in &ENDS {
        if *end <= at {
            place = (1, place.1.saturating_add(1), *end as u64);
        }
    }
    place
}

// Whether the stream's first bytes have that fault, whole and in pieces.
fn is_cut(alloc: Global, stream: &[u8], at: usize) -> bool {
    let wanted = Some(cut_place(at));
    let bytes = front(stream, at);
    if fault_of(read_layout(alloc, bytes, None)) != wanted {
        return false;
    }
    for size in [1, 7, 1000] {
        if fault_of(in_pieces(alloc, bytes, size)) != wanted {
            return false;
        }
    }
    true
}

#[test]
fn cuts_of_the_stream(rt: HostRuntime) -> Result<(), Fail> {
    let alloc = rt.alloc();
    let squares = stream(alloc, SQUARES)?;
    assert_eq!(rt; squares.len(), 230);
    for at in 0..230 {
        assert!(rt; is_cut(alloc, &squares, at), "{at}");
    }
    Ok(())
}

// A slanted edge, and a missing cell in a stream without an end: the stream's fault comes first.
#[test]
fn faults_in_pieces(rt: HostRuntime) -> Result<(), Fail> {
    let alloc = rt.alloc();
    let slanted = stream(alloc, SLANTED)?;
    let missing = stream(alloc, MISSING)?;
    assert_eq!(rt; missing.len(), 128);
    for size in [1, 2, 3, 1000] {
        let first = fault_of(in_pieces(alloc, front(&slanted, 230), size));
        assert!(rt; first == Some((6, 14, 174)), "{size}");
        let second = fault_of(in_pieces(alloc, front(&missing, 124), size));
        assert!(rt; second == Some((1, 11, 124)), "{size}");
    }
    Ok(())
}

// A fault is told as soon as its record is whole, with the 218th byte, and not for too few bytes.
#[test]
fn told_with_its_record(rt: HostRuntime) -> Result<(), Fail> {
    let alloc = rt.alloc();
    let slanted = stream(alloc, SLANTED)?;
    for at in 0..=230usize {
        let mut reader = LayoutReader::new(alloc);
        let answer = reader.feed(alloc, front(&slanted, at));
        assert!(rt; answer.is_err() == (at >= 218), "{at}");
    }
    Ok(())
}

// More bytes, and the end, answer the same fault again.
#[test]
fn kept_fault(rt: HostRuntime) -> Result<(), Fail> {
    let alloc = rt.alloc();
    let slanted = stream(alloc, SLANTED)?;
    assert_eq!(rt; slanted.len(), 230);
    let mut reader = LayoutReader::new(alloc);
    let first = fault_of(reader.feed(alloc, &slanted));
    let second = fault_of(reader.feed(alloc, &[0, 4]));
    let third = fault_of(reader.finish(alloc, None));
    let wanted = Some((6, 14, 174));
    assert!(rt; first == wanted && second == wanted && third == wanted);
    Ok(())
}

// A fault of the links: its number and its first cell's name.
fn link_of(fault: &LayoutFault) -> (u8, &[u8]) {
    match fault {
        LayoutFault::Link(LinkFault::DuplicateCell(name)) => (20, name.bytes()),
        LayoutFault::Link(LinkFault::NoSuchCell(name)) => (21, name.bytes()),
        LayoutFault::Link(LinkFault::Cycle(name)) => (22, name.bytes()),
        LayoutFault::Link(LinkFault::TopUnclear(name, _)) => (23, name.bytes()),
        LayoutFault::Link(LinkFault::NoTop) => (24, &[]),
        LayoutFault::Link(LinkFault::CoordinateRange(name)) => (25, name.bytes()),
        LayoutFault::Link(LinkFault::TooManyCells) => (26, &[]),
        LayoutFault::Link(LinkFault::TooDeep(name)) => (27, name.bytes()),
        _ => (0, &[]),
    }
}

/// Cells that can't be linked, the name of the top or nothing, and their fault.
static UNLINKED: [(&str, &str, u8, &str); 7] = [
    ("", "", 24, ""),
    ("cell A\n", "B", 24, ""),
    ("cell A\ncell A\n", "", 20, "A"),
    (MISSING, "", 21, "B"),
    ("cell A\nplace B 0 0\ncell B\nplace A 0 0\n", "", 22, "A"),
    ("cell A\ncell B\n", "", 23, "A"),
    // A cell that stands there twice is told before a missing one.
    ("cell A\nplace B 0 0\ncell C\ncell C\n", "", 20, "C"),
];

// Whether the answer is this fault of the links.
fn is_fault(answer: Result<Layout, LayoutFault>, number: u8, name: &str) -> bool {
    match answer {
        Ok(_) => false,
        Err(fault) => {
            let (found, cell) = link_of(&fault);
            found == number && cell == name.as_bytes()
        }
    }
}

// The layout of this top of a stream in pieces of this size, or what the end answers.
fn ended(
    alloc: Global,
    stream: &[u8],
    size: usize,
    top: &str,
) -> Result<Result<Layout, LayoutFault>, LayoutFault>
    requires { 0 < size }
{
    let top = Name::from_bytes(alloc, top.as_bytes())?;
    let reader = fed(alloc, stream, size)?;
    Ok(reader.finish(alloc, top.as_ref()))
}

// A fault of the links comes from the end alone, whatever the pieces.
#[test]
fn links_at_the_end(rt: HostRuntime) -> Result<(), Fail> {
    let alloc = rt.alloc();
    for (cells, top, number, name) in &UNLINKED {
        let stream = stream(alloc, cells)?;
        for size in [1, 1000] {
            let answer = ended(alloc, &stream, size, top)?;
            assert!(rt; is_fault(answer, *number, name), "{number} {size}");
        }
    }
    Ok(())
}
