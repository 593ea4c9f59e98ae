//! Worked rows, run one after the other: each line that is written is a difference from what a row
//! wants, and the last one says how many rows there are.
//!
//! `rows.txt` names the files of rows; README.md says how they are written.
#![tactic(auto)]

mod runs;

use crate::runs::{put_inputs, run_in_folder, run_in_memory, words_of};
use lvs_outside::{StdoutSink, write_all};
use row_netlists::{Netlists, run_on_netlists};
use row_texts::{
    Fields, Inputs, Place, Ran, Row, RowFault, Section, all_inputs, compare_all, file_of,
    is_command, lines_of, read_sections, status_of, text_of,
};
use std::alloc::Global;
use std::process::ExitCode;
use std::rt::Files;
use std::sync::Wait;
use std::thread::Threads;

// The status of a program whose output failed, and of one that is short of memory.
const SILENT: u8 = 4;

fn say<R: Print>(rt: &R, text: &[u8]) -> Result<(), RowFault> {
    write_all(&mut StdoutSink::new(rt), text).map_err(|_| RowFault::Unclear)
}

fn same(left: &Option<Vec<u8>>, right: &Option<Vec<u8>>) -> bool {
    left == right
}

// Adds that `run` left other files than `extract` on the same inputs.
fn compare_extracted<R: Threads + Wait + Sync>(
    rt: &R,
    alloc: Global,
    out: &mut Vec<u8>,
    inputs: &Inputs,
    ran: &Ran,
) -> Result<(), RowFault> {
    let section = Section {
        word: b"command",
        rest: b"extract",
        body: &[],
    };
    let words = words_of(alloc, &section)?;
    let alone = run_in_memory(rt, alloc, words.as_slice(), inputs)?;
    if !same(&alone.shapes, &ran.shapes) || !same(&alone.netlist, &ran.netlist) {
        out.extend_from_slice(b"extract leaves other files\n")?;
    }
    Ok(())
}

// Whether a command is over netlists alone.
fn is_over_netlists(section: &Section<'_>) -> bool {
    let first = Fields::of(section.rest).word();
    matches!(section.word, b"command")
        && matches!(first, b"cards" | b"merge" | b"align" | b"compare")
}

// Runs a command over the netlists of a row.
fn run_netlists<R: Files + AllocGlobal + Threads + Wait + Sync>(
    rt: &R,
    row: &Row<'_>,
    words: &[u8],
    schematic: &[u8],
) -> Result<Ran, RowFault> {
    let extracted = text_of(rt, row, b"extracted")?;
    let netlists = Netlists {
        extracted: &extracted,
        schematic,
    };
    run_on_netlists(rt, rt.alloc(), words, netlists)
}

// Runs one command of a row over its inputs.
fn run_one<R: Files + AllocGlobal + Threads + Wait + Sync>(
    rt: &R,
    out: &mut Vec<u8>,
    row: &Row<'_>,
    section: &Section<'_>,
    inputs: &Inputs,
) -> Result<(), RowFault> {
    let alloc = rt.alloc();
    if is_over_netlists(section) {
        let ran = run_netlists(rt, row, section.rest, &inputs.schematic)?;
        return compare_all(rt, out, row, Place::Memory, &ran);
    }
    let words = words_of(alloc, section)?;
    if row.find(b"folder").is_some() {
        put_inputs(rt, row, inputs)?;
        let ran = run_in_folder(rt, words.as_slice())?;
        return compare_all(rt, out, row, Place::Folder, &ran);
    }
    let ran = run_in_memory(rt, alloc, words.as_slice(), inputs)?;
    compare_all(rt, out, row, Place::Memory, &ran)?;
    if matches!(section.rest, b"run") && status_of(row)? != 2 {
        compare_extracted(rt, alloc, out, inputs, &ran)?;
    }
    Ok(())
}

// Runs each command of a row over each of its inputs, and gives the differences.
fn run_row<R: Files + AllocGlobal + Threads + Wait + Sync>(
    rt: &R,
    row: &Row<'_>,
) -> Result<Vec<u8>, RowFault> {
    let mut out = Vec::new(rt.alloc());
    let all = all_inputs(rt, row)?;
    for section in row.commands() {
        if is_command(section) {
            for inputs in &all {
                run_one(rt, &mut out, row, section, inputs)?;
            }
        }
    }
    Ok(out)
}

// Says where a row differs, or that it isn't clear.
fn tell_row<R: Files + Print + AllocGlobal + Threads + Wait + Sync>(
    rt: &R,
    path: &[u8],
    row: &Row<'_>,
) -> Result<(), RowFault> {
    let differences = match run_row(rt, row) {
        Ok(differences) => differences,
        Err(RowFault::Unclear) => b"isn't clear\n".to_vec(rt.alloc())?,
        Err(RowFault::NoMemory) => return Err(RowFault::NoMemory),
    };
    if differences.is_empty() {
        return Ok(());
    }
    let mut text = path.to_vec(rt.alloc())?;
    text.extend_from_slice(b": ")?;
    text.extend_from_slice(row.name)?;
    text.extend_from_slice(b"\n")?;
    text.extend_from_slice(&differences)?;
    say(rt, &text)
}

// Whether a section begins a row.
fn begins(section: &Section<'_>) -> bool {
    matches!(section.word, b"row")
}

// The sections before the first that begins a row.
fn front<'a>(sections: &'a [Section<'a>]) -> &'a [Section<'a>] {
    let count = sections.iter().position(begins).unwrap_or(sections.len());
    sections.get(..count).unwrap_or(sections)
}

// Runs the rows of a file, and counts them.
fn run_file<R: Files + Print + AllocGlobal + Threads + Wait + Sync>(
    rt: &R,
    path: &[u8],
) -> Result<u32, RowFault> {
    let text = file_of(rt, path)?;
    let lines = lines_of(rt.alloc(), &text)?;
    let sections = read_sections(rt.alloc(), &lines)?;
    let head = front(&sections);
    let mut count = 0u32;
    let mut rest = sections.as_slice();
    while let [section, behind @ ..] = rest {
        rest = behind;
        if begins(section) {
            let row = Row {
                name: section.rest,
                own: front(behind),
                head,
            };
            tell_row(rt, path, &row)?;
            count = count.saturating_add(1);
        }
    }
    Ok(count)
}

// Runs the rows of each file that the list names.
fn run_all<R: Files + Print + AllocGlobal + Threads + Wait + Sync>(rt: &R) -> Result<(), RowFault> {
    let list = file_of(rt, b"rows.txt")?;
    let mut count = 0u32;
    for path in list.split(|b| *b == b'\n') {
        if !path.is_empty() {
            count = count.saturating_add(run_file(rt, path)?);
        }
    }
    let line = format!(in rt.alloc(); "{count} rows\n")?;
    say(rt, line.as_bytes())
}

fn main(rt: HostRuntime) -> ExitCode {
    match run_all(&rt) {
        Ok(()) => ExitCode::from(0),
        Err(_) => ExitCode::from(SILENT),
    }
}
