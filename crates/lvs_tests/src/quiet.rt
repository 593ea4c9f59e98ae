//! Runs over a depot and a sink that only count bytes.

use crate::commands::{SHAPES, words_of};
use crate::layouts::{COMMON, OVERLAP, stream};
use job_board::OpenGate;
use lvs_outside::QuietDepot;
use lvs_run::run_lvs;
use std::alloc::{AllocError, Global};
use std::sync::Wait;
use std::test::Fail;
use std::thread::Threads;

// The most bytes of a file that are read.
const LIMIT: usize = 1 << 28;

// The status of `shapes` on a layout, and how many bytes of the shapes file and of the line it
// writes.
fn counted<R: Threads + Wait + Sync>(
    rt: &R,
    alloc: Global,
    layout: &[u8],
) -> Result<(u8, u64, u64), AllocError> {
    let words = words_of(alloc, &SHAPES)?;
    let mut depot = QuietDepot::new(alloc);
    depot.lend("l", layout)?;
    depot.lend("r", COMMON.as_bytes())?;
    let mut sink = QuietDepot::new(alloc);
    let status = run_lvs(
        rt,
        alloc,
        words.as_slice(),
        &mut depot,
        &mut sink,
        &OpenGate,
    );
    Ok((status.code(), depot.written(), sink.written()))
}

// The common rectangle of two.
#[test]
fn common_rectangle_counted(rt: HostRuntime) -> Result<(), Fail> {
    let alloc = rt.alloc();
    let layout = stream(alloc, OVERLAP)?;
    assert_eq!(rt; counted(&rt, alloc, &layout)?, (0, 166, 28));
    Ok(())
}

// The longest layout is read, and has a fault in its first record (`refused layout 2 record 0
// offset 0`); one of a byte more is too long (`refused long l`).
#[test]
fn longest_files(rt: HostRuntime) -> Result<(), Fail> {
    let alloc = rt.alloc();
    for (length, line) in [(LIMIT, 35), (LIMIT + 1, 15)] {
        let zeros = vec![in alloc; 0_u8; length]?;
        assert_eq!(rt; counted(&rt, alloc, &zeros)?, (2, 0, line));
    }
    Ok(())
}
