//! What is run, and what it leaves.

ghost use Rattle.std.specs.Prelude.{IfOk};
ghost use Rattle.lvs_outside.specs.MemoryStore.{memory_store};
ghost use Rattle.lvs_outside.specs.Store.{HasRoom};

use job_board::OpenGate;
use lvs_outside::{FileDepot, MemoryDepot, MemorySink};
use lvs_run::run_lvs;
use netlist_run::run_netlist;
use row_texts::{Fields, Inputs, Ran, Row, RowFault, Section, word_list};
use std::alloc::{AllocError, Global};
use std::fs;
use std::rt::Files;
use std::sync::Wait;
use std::thread::Threads;
use view_run::run_view;

// The words of a command over the files l, r, c, s, n and p.
fn whole(command: &[u8]) -> Option<&'static [u8]> {
    match command {
        b"shapes" => Some(b"shapes l r s"),
        b"extract" => Some(b"extract --layout l --rules r --shapes s --netlist n"),
        b"run" => Some(b"run --layout=l --rules=r --schematic c --shapes=s --netlist=n --report p"),
        _ => None,
    }
}

/// The words that a section states: `command NAME MORE ..` those of the command over the files of
/// memory, and more behind them; `words ..` just these.
pub fn words_of(alloc: Global, section: &Section<'_>) -> Result<Vec<String>, RowFault> {
    if matches!(section.word, b"words") {
        return word_list(alloc, section.rest);
    }
    let mut fields = Fields::of(section.rest);
    let Some(first) = whole(fields.word()) else {
        return Err(RowFault::Unclear);
    };
    let mut line = first.to_vec(alloc)?;
    line.push(b' ')?;
    line.extend_from_slice(fields.rest())?;
    word_list(alloc, &line)
}

// The files of a row, no call of which fails.
fn depot_of(alloc: Global, inputs: &Inputs) -> Result<MemoryDepot, AllocError>
    ensures { IfOk result (λ d. HasRoom (memory_store d)) }
{
    let mut depot = MemoryDepot::new(alloc, Vec::new(alloc));
    depot.put(alloc, "l", &inputs.layout)?;
    depot.put(alloc, "r", &inputs.rules)?;
    depot.put(alloc, "c", &inputs.schematic)?;
    Ok(depot)
}

// A copy of the path's file.
fn copy_of(alloc: Global, depot: &MemoryDepot, path: &str) -> Result<Option<Vec<u8>>, AllocError> {
    match depot.file(path) {
        Some(bytes) => Ok(Some(bytes.to_vec(alloc)?)),
        None => Ok(None),
    }
}

/// Runs the words over the files in memory.
pub fn run_in_memory<R: Threads + Wait + Sync>(
    rt: &R,
    alloc: Global,
    words: &[String],
    inputs: &Inputs,
) -> Result<Ran, AllocError> {
    let mut depot = depot_of(alloc, inputs)?;
    let mut sink = MemorySink::new(alloc, Vec::new(alloc));
    let status = run_lvs(rt, alloc, words, &mut depot, &mut sink, &OpenGate);
    Ok(Ran {
        code: status.code(),
        line: sink.bytes().to_vec(alloc)?,
        shapes: copy_of(alloc, &depot, "s")?,
        netlist: copy_of(alloc, &depot, "n")?,
        report: copy_of(alloc, &depot, "p")?,
    })
}

// A file that may be there.
fn found<R: Files + AllocGlobal>(rt: &R, path: &str) -> Option<Vec<u8>> {
    fs::read(rt, path).ok()
}

// What a run over the folder left.
fn left<R: Files + AllocGlobal>(rt: &R, code: u8, line: &[u8]) -> Result<Ran, AllocError> {
    Ok(Ran {
        code,
        line: line.to_vec(rt.alloc())?,
        shapes: found(rt, "s"),
        netlist: found(rt, "n"),
        report: found(rt, "p"),
    })
}

/// Makes the files l, r and c of the rows' folder those of a row, where it states them.
pub fn put_inputs<R: Files>(rt: &R, row: &Row<'_>, inputs: &Inputs) -> Result<(), RowFault> {
    put(rt, row, b"layout", "l", &inputs.layout)?;
    put(rt, row, b"rules", "r", &inputs.rules)?;
    put(rt, row, b"schematic", "c", &inputs.schematic)
}

fn put<R: Files>(
    rt: &R,
    row: &Row<'_>,
    word: &[u8],
    path: &str,
    bytes: &[u8],
) -> Result<(), RowFault> {
    match row.find(word) {
        Some(_) => fs::write(rt, path, bytes).map_err(|_| RowFault::Unclear),
        None => Ok(()),
    }
}

/// Runs the words over the files of the rows' folder: those of `lvs netlist` or `lvs view` where
/// `netlist` or `view` stands before them.
pub fn run_in_folder<R: Files + AllocGlobal + Threads + Wait + Sync>(
    rt: &R,
    words: &[String],
) -> Result<Ran, AllocError> {
    let alloc = rt.alloc();
    let mut depot = FileDepot::new(rt);
    let mut sink = MemorySink::new(alloc, Vec::new(alloc));
    let code = match words {
        [first, rest @ ..] if first.as_str() == "netlist" => {
            run_netlist(alloc, rest, &mut depot, &mut sink).code()
        }
        [first, rest @ ..] if first.as_str() == "view" => {
            run_view(rt, alloc, rest, &mut depot, &mut sink, &OpenGate).code()
        }
        _ => run_lvs(rt, alloc, words, &mut depot, &mut sink, &OpenGate).code(),
    };
    left(rt, code, sink.bytes())
}
