//! Calls of the outside that fail, and the numbers of how a run ends.

use crate::commands::{EXTRACT, Failing, Inputs, RUN, SHAPES, drawing, run_of};
use crate::layouts::{COMMON, MOS, OVERLAP, T, T_NETLIST, T_SCHEMATIC, front, stream};
use lvs_run::{Refusal, Status};
use row_texts::Ran;
use std::alloc::{AllocError, Global};
use std::process::Abort;
use std::sync::Wait;
use std::test::Fail;
use std::thread::Threads;

// How many bytes a file has.
fn size_of(file: &Option<Vec<u8>>) -> Option<usize> {
    match file {
        Some(bytes) => Some(bytes.len()),
        None => None,
    }
}

// What stands of a file whose start, write and finish are the call of a number and the next two,
// where the call of another number failed.
fn left_of(first: u64, failed: u64, whole: usize) -> Option<usize> {
    if failed <= first {
        return None;
    }
    if failed == first.saturating_add(1) {
        return Some(0);
    }
    Some(whole)
}

// Whether a run failed, said nothing, and left so many bytes of the shapes file and the netlist.
fn has_left(ran: &Ran, shapes: Option<usize>, netlist: Option<usize>) -> bool {
    let is_silent = ran.code == 4 && ran.line.is_empty();
    is_silent && size_of(&ran.shapes) == shapes && size_of(&ran.netlist) == netlist
}

// Whether the run left what stands where a call failed, by the number of the shapes file's start.
fn has_failed(ran: &Ran, first: u64, failed: u64, sizes: [usize; 3]) -> bool {
    let (second, third) = (first.saturating_add(3), first.saturating_add(6));
    let [shapes, netlist, report] = sizes;
    let shapes = left_of(first, failed, shapes);
    let netlist = left_of(second, failed, netlist);
    has_left(ran, shapes, netlist) && size_of(&ran.report) == left_of(third, failed, report)
}

// Runs the words with one call of the depot, or else of the sink, that fails.
fn failed<R: Threads + Wait + Sync>(
    rt: &R,
    alloc: Global,
    words: &[&str],
    depot: u64,
    sink: u64,
) -> Result<Ran, AllocError> {
    let layout = stream(alloc, T)?;
    let inputs = Inputs {
        layout: &layout,
        rules: MOS,
        schematic: T_SCHEMATIC,
    };
    run_of(rt, alloc, inputs, words, Failing { depot, sink })
}

// Each call of the depot fails in turn, then the sink's: an input has its open and two reads, a
// file its start, write and finish.
fn each_call<R: Abort + Threads + Wait + Sync>(
    rt: &R,
    alloc: Global,
    words: &[&str],
    inputs: u64,
    sizes: [usize; 3],
    files: u64,
) -> Result<(), AllocError> {
    let first = inputs.saturating_mul(3).saturating_add(1);
    let last = files.saturating_mul(3).saturating_add(first);
    for depot in 1..last {
        let ran = failed(rt, alloc, words, depot, 0)?;
        assert!(rt; has_failed(&ran, first, depot, sizes), "call {depot}");
    }
    let whole = failed(rt, alloc, words, last, 0)?;
    assert!(rt; whole.code == 0);
    let silent = failed(rt, alloc, words, 0, 1)?;
    let [shapes, netlist, _] = sizes;
    assert!(rt; has_left(&silent, Some(shapes), Some(netlist)));
    Ok(())
}

/// The bytes of a stream of the cell `T` without shapes.
const EMPTY: usize = 102;

#[test]
fn each_call_fails(rt: HostRuntime) -> Result<(), Fail> {
    let alloc = rt.alloc();
    let netlist = T_NETLIST.len();
    each_call(&rt, alloc, &EXTRACT, 2, [EMPTY, netlist, 0], 2)?;
    each_call(&rt, alloc, &RUN, 3, [EMPTY, netlist, 93], 3)?;
    Ok(())
}

/// The number of a depot's call that fails, and of the sink's, the status, and how many bytes of the
/// shapes file are written. The depot has two opens with two reads each, then start, write and
/// finish of that file.
static FAILS: [(u64, u64, u8, Option<usize>); 11] = [
    (1, 0, 4, None),
    (2, 0, 4, None),
    (3, 0, 4, None),
    (4, 0, 4, None),
    (5, 0, 4, None),
    (6, 0, 4, None),
    (7, 0, 4, None),
    (8, 0, 4, Some(0)),
    (9, 0, 4, Some(166)),
    (10, 0, 0, Some(166)),
    (0, 1, 4, Some(166)),
];

// Whether a run left so many of these bytes, or no file.
fn has_front(run: &Ran, whole: &[u8], written: Option<usize>) -> bool {
    match (&run.shapes, written) {
        (None, None) => true,
        (Some(found), Some(length)) => found.as_slice() == front(whole, length),
        _ => false,
    }
}

#[test]
fn each_call_of_shapes_fails(rt: HostRuntime) -> Result<(), Fail> {
    let alloc = rt.alloc();
    let layout = stream(alloc, OVERLAP)?;
    let wanted = stream(alloc, "cell A\nrect 10 5 5 10 10\n")?;
    for (depot, sink, code, written) in &FAILS {
        let (depot, sink) = (*depot, *sink);
        let failing = Failing { depot, sink };
        let run = run_of(&rt, alloc, drawing(&layout, COMMON), &SHAPES, failing)?;
        let is_so = run.code == *code && run.line.is_empty() == (*code == 4);
        assert!(rt; is_so, "{depot} {sink}");
        assert!(rt; has_front(&run, &wanted, *written), "{depot} {sink}");
    }
    Ok(())
}

#[test]
fn codes(rt: HostRuntime) {
    let statuses = [
        Status::Good,
        Status::Bad,
        Status::Refused(Refusal::Words),
        Status::Undecided,
        Status::Outside,
        Status::NoMemory,
    ];
    let mut number = 0u8;
    for status in &statuses {
        assert_eq!(rt; status.code(), number);
        number = number.saturating_add(1);
    }
}
