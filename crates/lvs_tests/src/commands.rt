//! The commands over files in memory.

ghost use Rattle.std.specs.Prelude.{IfOk};
ghost use Rattle.lvs_outside.specs.MemoryStore.{memory_store};
ghost use Rattle.lvs_outside.specs.Store.{HasRoom};

use job_board::{Gate, OpenGate};
use lvs_outside::{MemoryDepot, MemorySink};
use lvs_run::run_lvs;
use row_texts::Ran;
use std::alloc::{AllocError, Global};
use std::process::Abort;
use std::sync::Wait;
use std::thread::Threads;

/// The words of `shapes` over the files l (the layout) and r (the rules).
pub const SHAPES: [&str; 4] = ["shapes", "l", "r", "s"];

/// The words of `extract` over the files l (the layout) and r (the rules).
pub const EXTRACT: [&str; 9] = [
    "extract",
    "--layout",
    "l",
    "--rules",
    "r",
    "--shapes",
    "s",
    "--netlist",
    "n",
];

/// The words of `run` over the files l (the layout), r (the rules) and c (the schematic).
pub const RUN: [&str; 9] = [
    "run",
    "--layout=l",
    "--rules=r",
    "--schematic",
    "c",
    "--shapes=s",
    "--netlist=n",
    "--report",
    "p",
];

/// The input files.
#[derive(Clone, Copy)]
pub struct Inputs<'a> {
    pub layout: &'a [u8],
    pub rules: &'a str,
    pub schematic: &'a str,
}

/// A layout and its rules, without a schematic.
pub fn drawing<'a>(layout: &'a [u8], rules: &'a str) -> Inputs<'a> {
    Inputs {
        layout,
        rules,
        schematic: "",
    }
}

/// The calls that are to fail, by number: of the depot and of the sink. 0 is no call.
#[derive(Clone, Copy)]
pub struct Failing {
    pub depot: u64,
    pub sink: u64,
}

pub const NONE: Failing = Failing { depot: 0, sink: 0 };

/// Strings of these words.
pub fn words_of(alloc: Global, words: &[&str]) -> Result<Vec<String>, AllocError> {
    let mut made = Vec::new(alloc);
    for word in words {
        made.push(String::from_str(alloc, word)?)?;
    }
    Ok(made)
}

// A list of one number.
fn one(alloc: Global, number: u64) -> Result<Vec<u64>, AllocError> {
    let mut numbers = Vec::new(alloc);
    numbers.push(number)?;
    Ok(numbers)
}

/// A file's bytes, none where there is no file.
pub fn bytes_of(file: &Option<Vec<u8>>) -> &[u8] {
    match file {
        Some(bytes) => bytes.as_slice(),
        None => &[],
    }
}

// A copy of the path's file.
fn file_of(alloc: Global, depot: &MemoryDepot, path: &str) -> Result<Option<Vec<u8>>, AllocError> {
    match depot.file(path) {
        Some(bytes) => Ok(Some(bytes.to_vec(alloc)?)),
        None => Ok(None),
    }
}

/// Some words and more.
pub fn joined<'a>(
    alloc: Global,
    words: &[&'a str],
    more: &[&'a str],
) -> Result<Vec<&'a str>, AllocError> {
    let mut all = Vec::new(alloc);
    for word in words {
        all.push(*word)?;
    }
    for word in more {
        all.push(*word)?;
    }
    Ok(all)
}

/// The paths of three files, and what they hold.
pub type Files<'a> = [(&'a str, &'a [u8]); 3];

// A depot of these files, of which the call of a number fails.
fn depot_of(alloc: Global, files: Files<'_>, failing: u64) -> Result<MemoryDepot, AllocError>
    ensures { IfOk result (λ d. HasRoom (memory_store d)) }
{
    let [(first, a), (second, b), (third, c)] = files;
    let mut depot = MemoryDepot::new(alloc, one(alloc, failing)?);
    depot.put(alloc, first, a)?;
    depot.put(alloc, second, b)?;
    depot.put(alloc, third, c)?;
    Ok(depot)
}

// How a run ended, its line, and the files of three paths.
fn ran_of(
    alloc: Global,
    code: u8,
    line: &[u8],
    depot: &MemoryDepot,
    paths: [&str; 3],
) -> Result<Ran, AllocError> {
    let [shapes, netlist, report] = paths;
    Ok(Ran {
        code,
        line: line.to_vec(alloc)?,
        shapes: file_of(alloc, depot, shapes)?,
        netlist: file_of(alloc, depot, netlist)?,
        report: file_of(alloc, depot, report)?,
    })
}

/// Runs the words over these files, each job through a gate, and copies the files of three paths.
pub fn run_files<R: Threads + Wait + Sync, G: Gate + Sync>(
    rt: &R,
    alloc: Global,
    files: Files<'_>,
    words: &[&str],
    paths: [&str; 3],
    failing: Failing,
    gate: &G,
) -> Result<Ran, AllocError> {
    let words = words_of(alloc, words)?;
    let mut depot = depot_of(alloc, files, failing.depot)?;
    let mut sink = MemorySink::new(alloc, one(alloc, failing.sink)?);
    let status = run_lvs(rt, alloc, words.as_slice(), &mut depot, &mut sink, gate);
    ran_of(alloc, status.code(), sink.bytes(), &depot, paths)
}

/// Runs the words over the files l, r and c, and each job through a gate.
pub fn run_through<R: Threads + Wait + Sync, G: Gate + Sync>(
    rt: &R,
    alloc: Global,
    inputs: Inputs<'_>,
    words: &[&str],
    failing: Failing,
    gate: &G,
) -> Result<Ran, AllocError> {
    let files = [
        ("l", inputs.layout),
        ("r", inputs.rules.as_bytes()),
        ("c", inputs.schematic.as_bytes()),
    ];
    run_files(rt, alloc, files, words, ["s", "n", "p"], failing, gate)
}

/// Runs the words over the files l, r and c.
pub fn run_of<R: Threads + Wait + Sync>(
    rt: &R,
    alloc: Global,
    inputs: Inputs<'_>,
    words: &[&str],
    failing: Failing,
) -> Result<Ran, AllocError> {
    run_through(rt, alloc, inputs, words, failing, &OpenGate)
}

/// A run ends with this status and this line.
pub fn ends<R: Abort>(rt: &R, ran: &Ran, code: u8, line: &str, name: &str) {
    let said = str::from_utf8(&ran.line).unwrap_or("not UTF-8");
    assert_eq!(rt; said, line, "{name}");
    assert_eq!(rt; ran.code, code, "{name}");
}

/// A file holds this text.
pub fn holds<R: Abort>(rt: &R, file: &Option<Vec<u8>>, text: &str, name: &str) {
    let found = match file {
        Some(bytes) => str::from_utf8(bytes).unwrap_or("not UTF-8"),
        None => "no file",
    };
    assert_eq!(rt; found, text, "{name}");
}
