//! A chip that was made, and what is run on its files.

use crate::commands::{Failing, NONE, bytes_of, ends, holds, joined, run_files};
use job_board::OpenGate;
use row_texts::Ran;
use std::alloc::{AllocError, Global};
use std::process::Abort;
use std::sync::Wait;
use std::test::Fail;
use std::thread::Threads;

/// The netlist of one inverter, drawn from the seed 0.
const SINGLE: &str = ".SUBCKT INV A Y VDD VSS
M1 Y A VDD VDD PMOS L=0.1U W=1U
M2 Y A VSS VSS NMOS L=0.1U W=0.5U
.ENDS INV
.SUBCKT INV2 A Y VDD VSS
M1 Y A VDD VDD PMOS L=0.1U W=1U
M2 Y A VSS VSS NMOS L=0.1U W=1U
.ENDS INV2
.SUBCKT ROW0 IN OUT VDD VSS
X1 IN OUT VDD VSS INV
.ENDS ROW0
.SUBCKT TOP I0 O0 VDD VSS
X1 I0 O0 VDD VSS ROW0
.ENDS TOP
.END
";

/// 100 rows, both inverters and the top.
const BIG: &str = "match cells 103 circuits 103 pairs 103 bad 0\n";

/// The words of `run` over the chip's files but for the last, the number of workers.
const RUN: [&str; 9] = [
    "run",
    "--layout=big.gds",
    "--rules=big.lvs",
    "--schematic=big.cir",
    "--shapes=s",
    "--netlist=n",
    "--report=p",
    "--top=TOP",
    "--workers",
];

const BIG_FILES: [&str; 3] = ["big.gds", "big.lvs", "big.cir"];

const SMALL: [&str; 5] = ["make", "1", "0", "1", "p"];

const SMALL_FILES: [&str; 3] = ["p.gds", "p.lvs", "p.cir"];

// Runs the words of `make` over empty files: of what it leaves the layout stands in the place of
// the shapes file, the rules in that of the netlist, the schematic in that of the report.
fn make<R: Threads + Wait + Sync>(
    rt: &R,
    alloc: Global,
    words: &[&str],
    paths: [&str; 3],
    failing: Failing,
) -> Result<Ran, AllocError> {
    let none: &[u8] = &[];
    let files = [("big.gds", none), ("big.lvs", none), ("big.cir", none)];
    run_files(rt, alloc, files, words, paths, failing, &OpenGate)
}

// Runs `run` on a chip that was made, with so many workers.
fn run_made<R: Threads + Wait + Sync>(
    rt: &R,
    alloc: Global,
    chip: &Ran,
    workers: &str,
    failing: Failing,
) -> Result<Ran, AllocError> {
    let files = [
        ("big.gds", bytes_of(&chip.shapes)),
        ("big.lvs", bytes_of(&chip.netlist)),
        ("big.cir", bytes_of(&chip.report)),
    ];
    let words = joined(alloc, &RUN, &[workers])?;
    run_files(
        rt,
        alloc,
        files,
        &words,
        ["s", "n", "p"],
        failing,
        &OpenGate,
    )
}

// Whether these of the three files are there.
fn has_files(ran: &Ran, wanted: [bool; 3]) -> bool {
    let [shapes, netlist, report] = wanted;
    ran.shapes.is_some() == shapes
        && ran.netlist.is_some() == netlist
        && ran.report.is_some() == report
}

// One inverter, of which there is one kind.
#[test]
fn one_inverter(rt: HostRuntime) -> Result<(), Fail> {
    let made = make(&rt, rt.alloc(), &SMALL, SMALL_FILES, NONE)?;
    let line = "match cells 3 circuits 3 pairs 3 bad 0\n";
    ends(&rt, &made, 0, line, "make");
    assert!(rt; has_files(&made, [true; 3]));
    holds(&rt, &made.report, SINGLE, "p.cir");
    Ok(())
}

/// No inverter, and too many workers.
static REFUSED: [[&str; 5]; 2] = [["make", "0", "0", "1", "p"], ["make", "1", "0", "65", "p"]];

#[test]
fn refused_chips(rt: HostRuntime) -> Result<(), Fail> {
    for words in &REFUSED {
        let made = make(&rt, rt.alloc(), words, SMALL_FILES, NONE)?;
        ends(&rt, &made, 2, "refused words\n", "make");
        assert!(rt; has_files(&made, [false; 3]));
    }
    Ok(())
}

// Whether two runs left the same files.
fn are_alike(ran: &Ran, other: &Ran) -> bool {
    ran.shapes == other.shapes && ran.netlist == other.netlist && ran.report == other.report
}

// A chip by so many workers matches, and leaves what the first run left.
fn runs_alike<R: Abort + Threads + Wait + Sync>(
    rt: &R,
    alloc: Global,
    chip: &Ran,
    workers: &str,
    first: &Ran,
) -> Result<(), AllocError> {
    let ran = run_made(rt, alloc, chip, workers, NONE)?;
    ends(rt, &ran, 0, BIG, workers);
    assert!(rt; are_alike(&ran, first), "{workers} workers");
    Ok(())
}

// A run of which a call fails leaves no file.
fn leaves_nothing<R: Abort + Threads + Wait + Sync>(
    rt: &R,
    alloc: Global,
    chip: &Ran,
) -> Result<(), AllocError> {
    let failed = run_made(rt, alloc, chip, "1", Failing { depot: 5, sink: 0 })?;
    ends(rt, &failed, 4, "", "failed");
    assert!(rt; has_files(&failed, [false; 3]));
    Ok(())
}

// `make`, then `run` on its files: one line, and the same bytes by any number of workers. A call
// that fails leaves no file.
#[test]
fn generated_chip(rt: HostRuntime) -> Result<(), Fail> {
    let alloc = rt.alloc();
    let words = ["make", "10000", "7", "1", "big"];
    let made = make(&rt, alloc, &words, BIG_FILES, NONE)?;
    ends(&rt, &made, 0, BIG, "make");
    let first = run_made(&rt, alloc, &made, "1", NONE)?;
    ends(&rt, &first, 0, BIG, "1");
    for workers in ["4", "64"] {
        runs_alike(&rt, alloc, &made, workers, &first)?;
    }
    leaves_nothing(&rt, alloc, &made)?;
    Ok(())
}

// Each call of the depot fails in turn, then the sink's: a file has its start, its write and its
// finish.
#[test]
fn failing_calls(rt: HostRuntime) -> Result<(), Fail> {
    let alloc = rt.alloc();
    for depot in 1..10u64 {
        let made = make(&rt, alloc, &SMALL, SMALL_FILES, Failing { depot, sink: 0 })?;
        ends(&rt, &made, 4, "", "depot");
        let wanted = [depot > 1, depot > 4, depot > 7];
        assert!(rt; has_files(&made, wanted), "call {depot}");
    }
    let made = make(
        &rt,
        alloc,
        &SMALL,
        SMALL_FILES,
        Failing { depot: 0, sink: 1 },
    )?;
    ends(&rt, &made, 4, "", "sink");
    assert!(rt; made.report.is_some());
    Ok(())
}
