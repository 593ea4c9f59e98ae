//! All that is told of changes.

ghost use Rattle.std.specs.Prelude.{◌≡◌, ◌++◌, OnOk, IfOk, codes, map};
ghost use Rattle.std.specs.Fmt.{decimal};
ghost use Rattle.netlist_turn.specs.Seen.{told_seen};
ghost use Rattle.netlist_run.specs.SumsSeen.{seen};
ghost use Rattle.netlist_run.specs.Sums.{counts_text, names_text, scale_text, title_text};
ghost use Rattle.netlist_run.specs.Sums.{told_text, words_text};

use crate::place::{push_number, push_place};
use crate::sums::{Sums, sums_of};
use crate::tally::{push_count, push_tally};
use netlist_join::{File, Origin};
use netlist_turn::{Told, push_micros};
use std::alloc::{AllocError, Global};

fn push_title(
    alloc: Global,
    out: &mut Vec<u8>,
    has_title: bool,
    files: &[File],
) -> Result<(), AllocError>
    ensures { OnOk result (out.new.items ≡ out.old.items ++ title_text has_title files.now) }
{
    if !has_title {
        return Ok(());
    }
    out.extend_from_slice(b"left out ")?;
    push_place(alloc, out, files, Origin { file: 0, line: 1 })?;
    out.extend_from_slice(b"title\n")
}

// Escaped names, numbers that were left out, cards on which `$` marks something, and calls that
// name pins.
fn push_words(alloc: Global, out: &mut Vec<u8>, sums: &Sums) -> Result<(), AllocError>
    ensures { OnOk result (out.new.items ≡ out.old.items ++ words_text (seen sums.now)) }
{
    push_count(alloc, out, b"backslashes", sums.names)?;
    push_count(alloc, out, b"numbers", sums.numbers)?;
    push_count(alloc, out, b"marked", sums.marked)?;
    push_count(alloc, out, b"$PINS", sums.pins)
}

fn push_counts(
    alloc: Global,
    out: &mut Vec<u8>,
    comments: u64,
    sums: &Sums,
) -> Result<(), AllocError>
    ensures { OnOk result (out.new.items ≡ out.old.items ++ counts_text comments (seen sums.now)) }
{
    push_count(alloc, out, b"comments", comments)?;
    push_count(alloc, out, b"slashes", sums.slashes)?;
    push_count(alloc, out, b"PARAMS:", sums.params)?;
    push_count(alloc, out, b"quotes", sums.quotes)?;
    push_words(alloc, out, sums)
}

fn push_scale(alloc: Global, out: &mut Vec<u8>, scale: Option<u128>) -> Result<(), AllocError>
    ensures { OnOk result (out.new.items ≡ out.old.items ++ scale_text scale) }
{
    let Some(factor) = scale else {
        return Ok(());
    };
    out.extend_from_slice(b"scale ")?;
    push_micros(alloc, out, factor)?;
    out.extend_from_slice(b"\n")
}

fn push_written(alloc: Global, out: &mut Vec<u8>, cards: usize) -> Result<(), AllocError>
    ensures { OnOk result (out.new.items ≡ out.old.items ++ (codes "written "
        ++ (decimal cards ++ codes " cards\n"))) }
{
    out.extend_from_slice(b"written ")?;
    push_number(alloc, out, cards as u64)?;
    out.extend_from_slice(b" cards\n")
}

// The lines of counts, behind those of names.
fn push_sums(
    alloc: Global,
    out: &mut Vec<u8>,
    comments: u64,
    sums: Sums,
    cards: usize,
) -> Result<(), AllocError>
    ensures { OnOk result (out.new.items ≡ out.old.items ++ (names_text (seen sums)
        ++ (counts_text comments (seen sums)
        ++ (codes "written " ++ (decimal cards ++ codes " cards\n"))))) }
{
    let mut counted = Vec::new(alloc);
    push_counts(alloc, &mut counted, comments, &sums)?;
    push_tally(alloc, out, b"parameter", sums.parameters)?;
    push_tally(alloc, out, b"value", sums.values)?;
    push_tally(alloc, out, b"scaled", sums.sizes)?;
    push_tally(alloc, out, b"device", sums.devices)?;
    out.extend_from_slice(counted.as_slice())?;
    push_written(alloc, out, cards)
}

/// All that is told of these changes, of so many comments, of the scale and of so many written
/// cards: `left out PATH line L title`, where there is a title; `left out PATH line L WORD` for
/// each card that is left out; then, where there are any, `scale V` in micrometres, `parameter NAME N`
/// for each name of parameters that are left out, `value NAME N` for each name whose value was put
/// in, `scaled NAME N` for each name of sizes that the scale turned, `device NAME N` for each listed name
/// of which there was a card, `comments N`, `slashes N`,
/// `PARAMS: N`, `quotes N`, `backslashes N`,
/// `numbers N`, `marked N` and `$PINS N`; and `written N cards`. Linear in the changes.
pub fn told_lines(
    alloc: Global,
    has_title: bool,
    files: &[File],
    origins: &[Origin],
    comments: u64,
    scale: Option<u128>,
    told: &[Told],
    cards: usize,
) -> Result<Vec<u8>, AllocError>
    ensures { IfOk result (λ text. text.items
        ≡ told_text has_title files.now origins.now comments scale (map told_seen told.now)
        cards) }
{
    let sums = sums_of(alloc, files, origins, told)?;
    let mut out = Vec::new(alloc);
    push_title(alloc, &mut out, has_title, files)?;
    out.extend_from_slice(sums.cards.as_slice())?;
    push_scale(alloc, &mut out, scale)?;
    push_sums(alloc, &mut out, comments, sums, cards)?;
    Ok(out)
}
