//! What is left of netlists by the commands over them.

ghost use Rattle.std.specs.Prelude.{◌≡◌, ◌≤◌, true, IfOk};
ghost use Rattle.device_merge.specs.Merged.{IsNarrow};
ghost use Rattle.net_model.specs.Rows.{plain_netlist};
ghost use Rattle.plain_netlist.specs.Normal.{IsNormalNetlist};
ghost use Rattle.plain_netlist.specs.Sound.{IsSoundNetlist};

use crate::conditions::{are_apart, are_callees_first, is_alignable, read};
use device_merge::{MergeFault, merge};
use job_board::{Crew, OpenGate};
use job_graph::{Reads, Results};
use match_flow::{Settings, compare};
use match_types::Answer;
use net_align::{Aligned, align};
use net_model::Netlist;
use net_names::Name;
use row_texts::{Fields, Ran, RowFault};
use spice_text::write_spice;
use std::alloc::{AllocError, Global};
use std::sync::Wait;
use std::thread::Threads;

/// The texts of a netlist that stands for a layout's, and of a schematic.
#[derive(Clone, Copy)]
pub struct Netlists<'a> {
    pub extracted: &'a [u8],
    pub schematic: &'a [u8],
}

// What the words behind a command ask: the number of the top, the most guesses that are refuted,
// whether names tell the tops' pins apart, whether alike devices are made one before netlists are
// aligned and once more where pairs differ, and the names of a line `same_circuits`.
struct Asked {
    top: u32,
    guesses: u32,
    same_pins: bool,
    combine: bool,
    same: Vec<(Name, Name)>,
}

// Written out, so that its owners drop it by one call.
impl Drop for Asked {
    fn drop(self) {
        let Asked {
            top: _,
            guesses: _,
            same_pins: _,
            combine: _,
            same: _,
        } = self;
    }
}

fn count_of(fields: &mut Fields<'_>) -> Result<u32, RowFault> {
    u32::try_from(fields.number()?).map_err(|_| RowFault::Unclear)
}

fn name_of(alloc: Global, word: &[u8]) -> Result<Name, RowFault> {
    match Name::from_bytes(alloc, word)? {
        Some(name) => Ok(name),
        None => Err(RowFault::Unclear),
    }
}

// The names behind `same`, or none.
fn same_of(alloc: Global, fields: &mut Fields<'_>) -> Result<Vec<(Name, Name)>, RowFault> {
    let mut same = Vec::new(alloc);
    if fields.takes(b"same") {
        let left = name_of(alloc, fields.word())?;
        let right = name_of(alloc, fields.word())?;
        same.push((left, right))?;
    }
    Ok(same)
}

// `TOP`, and behind it where they are said `guesses COUNT`, `same_pins`, `combine`,
// `same NAME NAME`.
fn asked_of(alloc: Global, fields: &mut Fields<'_>) -> Result<Asked, RowFault> {
    let top = count_of(fields)?;
    let guesses = if fields.takes(b"guesses") {
        count_of(fields)?
    } else {
        0
    };
    let same_pins = fields.takes(b"same_pins");
    let combine = fields.takes(b"combine");
    Ok(Asked {
        top,
        guesses,
        same_pins,
        combine,
        same: same_of(alloc, fields)?,
    })
}

// Both sides as text, the layout's first.
fn both_texts(alloc: Global, sides: &Aligned) -> Result<Vec<u8>, AllocError> {
    let mut text = write_spice(alloc, &sides.left)?;
    let right = write_spice(alloc, &sides.right)?;
    text.extend_from_slice(&right)?;
    Ok(text)
}

// Both netlists aligned by so many workers; none where the top has no partner.
fn aligned<R: Threads>(
    rt: &R,
    alloc: Global,
    netlists: Netlists<'_>,
    asked: &Asked,
    workers: usize,
) -> Result<Option<Vec<u8>>, RowFault>
    requires { (1 ≤ workers) × (workers ≤ 64) }
{
    let layout = read(alloc, netlists.extracted)?;
    let schematic = read(alloc, netlists.schematic)?;
    if !is_alignable(&layout)
        || !is_alignable(&schematic)
        || !are_callees_first(&layout)
        || !are_apart(&asked.same)
        || asked.top as usize >= layout.circuits.len()
    {
        return Err(RowFault::Unclear);
    }
    let crew = Crew::new(rt, workers, &OpenGate);
    match align(alloc, &layout, asked.top, &schematic, &asked.same, &crew)? {
        Some(sides) => Ok(Some(both_texts(alloc, &sides)?)),
        None => Ok(None),
    }
}

// The answer of each pair, a line each, behind a line where the circuits were merged once more.
fn answer_lines(
    alloc: Global,
    merged_again: bool,
    answers: &Results<Answer>,
) -> Result<Vec<u8>, RowFault> {
    let mut text = Vec::new(alloc);
    if merged_again {
        text.extend_from_slice(b"combined again\n")?;
    }
    for pair in 0..answers.len() {
        let Ok(place) = u32::try_from(pair) else {
            return Err(RowFault::Unclear);
        };
        let line = format!(in alloc; "{:?}\n", answers.get(place))?;
        text.extend_from_slice(line.as_bytes())?;
    }
    Ok(text)
}

// A netlist with each group of alike devices as one.
fn merged(alloc: Global, n: &Netlist) -> Result<Netlist, RowFault>
    requires sound { IsSoundNetlist (plain_netlist n.now) }
    requires normal { IsNormalNetlist (plain_netlist n.now) }
    ensures sound { IfOk result (λ m. IsSoundNetlist (plain_netlist m)) }
    ensures normal { IfOk result (λ m. IsNormalNetlist (plain_netlist m)) }
    ensures narrow { IfOk result (λ m. IsNarrow (plain_netlist m)) }
{
    match merge(alloc, n) {
        Ok(merged) => Ok(merged),
        Err(MergeFault::TooWide(_)) => Err(RowFault::Unclear),
        Err(MergeFault::NoMemory) => Err(RowFault::NoMemory),
    }
}

// A netlist as it is compared.
fn read_side(alloc: Global, text: &[u8], combine: bool) -> Result<Netlist, RowFault>
    ensures sound { IfOk result (λ n. IsSoundNetlist (plain_netlist n)) }
    ensures normal { IfOk result (λ n. IsNormalNetlist (plain_netlist n)) }
    ensures narrow { IfOk result (λ n. combine ≡ true → IsNarrow (plain_netlist n)) }
{
    let given = read(alloc, text)?;
    if !combine {
        return Ok(given);
    }
    let made = merged(alloc, &given)?;
    Ok(made)
}

// The answers of both netlists compared by so many workers; none where the top has no partner.
fn compared<R: Threads + Wait + Sync>(
    rt: &R,
    alloc: Global,
    netlists: Netlists<'_>,
    asked: &Asked,
    workers: usize,
) -> Result<Option<Vec<u8>>, RowFault>
    requires { (1 ≤ workers) × (workers ≤ 64) }
{
    let layout = read_side(alloc, netlists.extracted, asked.combine)?;
    let schematic = read_side(alloc, netlists.schematic, asked.combine)?;
    if !is_alignable(&layout)
        || !is_alignable(&schematic)
        || !are_callees_first(&layout)
        || !are_apart(&asked.same)
        || asked.top as usize >= layout.circuits.len()
    {
        return Err(RowFault::Unclear);
    }
    let settings = Settings {
        same: &asked.same,
        limit: asked.guesses,
        same_pins: asked.same_pins,
        merges_again: asked.combine,
    };
    let crew = Crew::new(rt, workers, &OpenGate);
    let found = compare(alloc, &layout, asked.top, &schematic, &settings, &crew)?;
    match found {
        Some(made) => {
            let lines = answer_lines(alloc, made.merged_again, &made.answers)?;
            Ok(Some(lines))
        }
        None => Ok(None),
    }
}

// What a command left: a netlist or a report, and a line where the top has no partner.
fn left(alloc: Global, netlist: Option<Vec<u8>>, report: Option<Vec<u8>>) -> Result<Ran, RowFault> {
    let line = if netlist.is_none() && report.is_none() {
        b"no partner\n".to_vec(alloc)?
    } else {
        Vec::new(alloc)
    };
    Ok(Ran {
        code: 0,
        line,
        shapes: None,
        netlist,
        report,
    })
}

// What more workers leave, which is what the first left, or the row isn't clear.
fn alike(first: Option<Vec<u8>>, more: Option<Vec<u8>>) -> Result<Option<Vec<u8>>, RowFault> {
    if first == more {
        Ok(first)
    } else {
        Err(RowFault::Unclear)
    }
}

fn run_align<R: Threads>(
    rt: &R,
    alloc: Global,
    netlists: Netlists<'_>,
    asked: &Asked,
) -> Result<Ran, RowFault> {
    let first = aligned(rt, alloc, netlists, asked, 1)?;
    let text = alike(first, aligned(rt, alloc, netlists, asked, 2)?)?;
    left(alloc, text, None)
}

fn run_compare<R: Threads + Wait + Sync>(
    rt: &R,
    alloc: Global,
    netlists: Netlists<'_>,
    asked: &Asked,
) -> Result<Ran, RowFault> {
    let first = compared(rt, alloc, netlists, asked, 1)?;
    let second = alike(first, compared(rt, alloc, netlists, asked, 4)?)?;
    let text = alike(second, compared(rt, alloc, netlists, asked, 64)?)?;
    left(alloc, None, text)
}

// The schematic written.
fn written(alloc: Global, text: &[u8]) -> Result<Vec<u8>, RowFault> {
    let netlist = read(alloc, text)?;
    Ok(write_spice(alloc, &netlist)?)
}

// What is written is read and written again, and stays.
fn run_cards(alloc: Global, schematic: &[u8]) -> Result<Ran, RowFault> {
    let once = written(alloc, schematic)?;
    let twice = written(alloc, &once)?;
    left(alloc, alike(Some(once), Some(twice))?, None)
}

fn run_merge(alloc: Global, schematic: &[u8]) -> Result<Ran, RowFault> {
    let given = read(alloc, schematic)?;
    let made = merged(alloc, &given)?;
    left(alloc, Some(write_spice(alloc, &made)?), None)
}

/// What a command over netlists leaves: `cards`, the schematic written; `merge`, alike devices of
/// it made one; `align TOP same NAME NAME`, the netlist and the schematic aligned, both as one
/// text; `compare TOP guesses COUNT same_pins combine`, the answer of each pair as the report. All behind
/// the top's number may be left out. A row whose texts differ by workers or by writing twice isn't
/// clear.
pub fn run_on_netlists<R: Threads + Wait + Sync>(
    rt: &R,
    alloc: Global,
    words: &[u8],
    netlists: Netlists<'_>,
) -> Result<Ran, RowFault> {
    let mut fields = Fields::of(words);
    match fields.word() {
        b"cards" => run_cards(alloc, netlists.schematic),
        b"merge" => run_merge(alloc, netlists.schematic),
        b"align" => run_align(rt, alloc, netlists, &asked_of(alloc, &mut fields)?),
        b"compare" => run_compare(rt, alloc, netlists, &asked_of(alloc, &mut fields)?),
        _ => Err(RowFault::Unclear),
    }
}
