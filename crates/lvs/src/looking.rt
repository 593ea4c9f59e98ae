//! A second look at a mismatch, in memory.

ghost use Rattle.std.specs.Prelude.{IfOk};
ghost use Rattle.lvs_outside.specs.MemoryStore.{memory_store};
ghost use Rattle.lvs_outside.specs.Store.{HasRoom};

use crate::telling::{bytes_of, text_of};
use job_board::OpenGate;
use lvs_outside::{MemoryDepot, MemorySink};
use lvs_talk::{
    Ended, LAYOUT, PAGE, RULES, SCHEMATIC, is_looked_into, layout_path, look_words, rules_in_place,
    schematic_path,
};
use std::alloc::{AllocError, Global};
use std::fs;
use std::rt::Files;
use std::sync::Wait;
use std::thread::Threads;
use view_run::run_view;

// The longest layout that is looked at twice, in bytes.
const MOST: u64 = 1 << 26;

// Whether a file is no longer than that.
fn is_short<R: Files>(rt: &R, path: &str) -> bool {
    match fs::metadata(rt, path) {
        Ok(found) => found.len() <= MOST,
        Err(_) => false,
    }
}

// The files of a second look, no call of which fails.
fn depot_of(
    alloc: Global,
    layout: &[u8],
    rules: &str,
    schematic: &[u8],
) -> Result<MemoryDepot, AllocError>
    ensures { IfOk result (λ d. HasRoom (memory_store d)) }
{
    let mut depot = MemoryDepot::new(alloc, Vec::new(alloc));
    depot.put(alloc, LAYOUT, layout)?;
    depot.put(alloc, RULES, rules.as_bytes())?;
    depot.put(alloc, SCHEMATIC, schematic)?;
    Ok(depot)
}

// The page of what was compared, in the cells as they stand.
fn look<R: Threads + Wait + Sync + Files + AllocGlobal>(
    rt: &R,
    alloc: Global,
    ended: &Ended<'_>,
    rules: &str,
) -> Result<Vec<u8>, AllocError> {
    let layout = bytes_of(rt, alloc, layout_path(ended));
    let schematic = bytes_of(rt, alloc, schematic_path(ended));
    let rules = rules_in_place(alloc, rules)?;
    let words = look_words(alloc, ended)?;
    let mut depot = depot_of(alloc, &layout, rules.as_str(), &schematic)?;
    let mut out = MemorySink::new(alloc, Vec::new(alloc));
    let _status = run_view(rt, alloc, &words, &mut depot, &mut out, &OpenGate);
    match depot.file(PAGE) {
        Some(page) => page.to_vec(alloc),
        None => Ok(Vec::new(alloc)),
    }
}

/// The page of a second look at a mismatch, which names what differs where it stands; nothing where
/// none is taken, as of a layout of more than 64 MB, or where there is no memory for it. It costs
/// what the run cost, and the files in memory.
pub fn second_page<R: Threads + Wait + Sync + Files + AllocGlobal>(
    rt: &R,
    alloc: Global,
    ended: &Ended<'_>,
    input: &[u8],
) -> Vec<u8> {
    let rules = text_of(input);
    if !is_looked_into(ended, rules) || !is_short(rt, layout_path(ended)) {
        return Vec::new(alloc);
    }
    match look(rt, alloc, ended, rules) {
        Ok(page) => page,
        Err(_) => Vec::new(alloc),
    }
}
