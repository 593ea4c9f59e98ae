//! What a comparison came to.

use crate::counts::tell_counts;
use crate::near::beside;
use crate::netlists::{has_no_device, last_circuit, named, part_count, shows_no_device, unpaired};
use crate::page::tell_page;
use crate::rule_faults::RefusedLine;
use crate::sentence::{NONE, Sentence, say, says};
use crate::words::{Ended, command_in, word_at};
use std::alloc::{AllocError, Global};

/// What is looked into to say how a run ended; empty where it isn't looked into. `page` is that of a
/// second look at a mismatch, `refused` has the refused lines of rules.
#[derive(Clone, Copy)]
pub struct Texts<'a> {
    pub input: &'a [u8],
    pub schematic: &'a str,
    pub report: &'a str,
    pub netlist: &'a str,
    pub page: &'a str,
    pub refused: &'a [RefusedLine],
}

// What makes a gate bad.
static CAUSES: [(&str, &str); 5] = [
    (
        "groups-1",
        "source and drain are one piece, or one of them is missing",
    ),
    (
        "off-gate",
        "a part of it isn't in the layer of its terminal",
    ),
    (
        "off-sd",
        "a part of a terminal isn't in the terminal's layer",
    ),
    ("no-bulk", "nothing is its bulk"),
    ("no-length", "source and drain are all round it"),
];

// The first line that begins so; nothing where none does.
fn line_with<'a>(text: &'a str, front: &str) -> &'a str {
    for line in text.lines() {
        if line.starts_with(front) {
            return line;
        }
    }
    ""
}

// The first bad gate of a report.
fn gate_sentence(report: &str) -> Sentence<'_> {
    match line_with(report, "gate ").rsplit_once(' ') {
        Some((gate, cause)) => {
            let text = beside(&CAUSES, cause).unwrap_or("it hasn't one source and one drain");
            says(
                "  @ (cell, class, x and y in database units) is bad: @",
                gate,
                text,
                "",
            )
        }
        None => NONE,
    }
}

// A top without partner.
fn partner_sentence<'a>(texts: &Texts<'a>) -> Sentence<'a> {
    let line = line_with(texts.report, "top ");
    if word_at(line, 2) != "none" {
        return NONE;
    }
    let top = word_at(line, 1);
    let pattern = "  @ has no partner in the schematic: add the rule same_circuits(\"@\", \"@\")";
    says(
        pattern,
        top,
        top,
        last_circuit(texts.schematic).unwrap_or("NAME"),
    )
}

// A circuit of the schematic that the layout has no cell with devices for.
fn unpaired_sentence<'a>(alloc: Global, texts: &Texts<'a>) -> Result<Sentence<'a>, AllocError> {
    match unpaired(alloc, texts.schematic, texts.report)? {
        None => Ok(NONE),
        Some(name) => {
            let pattern =
                "  circuit @ of the schematic is called, and no cell of that name has a device";
            Ok(says(pattern, name, "", ""))
        }
    }
}

// A layout without devices.
fn empty_sentence(netlist: &str) -> Sentence<'static> {
    if netlist.is_empty() || !has_no_device(netlist) {
        return NONE;
    }
    says(
        "  the layout has no device: look at the layers of the rules' input lines",
        "",
        "",
        "",
    )
}

// The first pair of a report that doesn't match: its words, and its line of evidence below.
fn difference_in(report: &str) -> &str {
    for pair in report.split("\npair ") {
        if word_at(pair, 2) == "differs" || word_at(pair, 2) == "undecided" {
            return pair;
        }
    }
    ""
}

// The first pair that was taken apart for other numbers of devices, or of their sizes: its words,
// and its line of evidence below.
fn apart_in(report: &str) -> &str {
    for pair in report.split("\napart ") {
        let evidence = pair.lines().nth(1).unwrap_or("");
        let is_device = word_at(evidence, 4) == "device" && word_at(evidence, 1) == "0";
        if word_at(pair, 2) == "differs" && is_device {
            return pair;
        }
    }
    ""
}

// A pair that was taken apart.
fn apart_sentence(pair: &str) -> Sentence<'_> {
    if pair.is_empty() {
        return NONE;
    }
    let pattern = "  before circuits were taken apart, @ of the layout and @ differed:";
    says(pattern, word_at(pair, 0), word_at(pair, 1), "")
}

// The first pair that doesn't match.
fn pair_sentence(pair: &str) -> Sentence<'_> {
    if pair.is_empty() {
        return NONE;
    }
    let pattern = "  first, @ of the layout and @ of the schematic differ:";
    says(pattern, word_at(pair, 0), word_at(pair, 1), "")
}

// What a line of evidence numbers, as `layout net 5`; and how many look like it in the layout and
// in the schematic.
fn counted(line: &str) -> Option<(&str, &str, &str)> {
    let (_, behind) = line.split_once(" of ")?;
    let (front, schematic) = behind.rsplit_once(" schematic ")?;
    let (node, layout) = front.rsplit_once(" layout ")?;
    Some((node, layout, schematic))
}

fn evidence_sentence(line: &str) -> Sentence<'_> {
    match counted(line) {
        Some((node, layout, schematic)) => {
            let pattern = "  of what looks like @ the layout has @, the schematic @";
            says(pattern, node, layout, schematic)
        }
        None if line.starts_with("guess ") => {
            says(
                "  each way to pair what looks alike in it was tried",
                "",
                "",
                "",
            )
        }
        None => NONE,
    }
}

// Whether the numbers of the report are those of the netlist's cards and nets: no alike devices
// were made one, and each circuit is compared as it stands.
fn is_as_written(texts: &Texts<'_>) -> bool {
    match str::from_utf8(texts.input) {
        Ok(rules) if !rules.contains("combine_devices") => {
            part_count(texts.netlist) == texts.report.split("\npair ").count()
        }
        _ => false,
    }
}

// The name or the card of what a line of evidence numbers in a circuit of the layout.
fn name_sentence<'a>(
    alloc: Global,
    texts: &Texts<'a>,
    circuit: &str,
    line: &'a str,
) -> Sentence<'a> {
    let (kind, number) = (word_at(line, 4), word_at(line, 5));
    if word_at(line, 3) != "layout" || !is_as_written(texts) {
        return NONE;
    }
    let place = number.parse::<usize>().unwrap_or(0);
    match named(alloc, texts.netlist, circuit, kind, place) {
        "" => NONE,
        name => says("  layout @ @ is @", kind, number, name),
    }
}

const VIEW: &str = "  lvs view writes it by name and place: --page P, and --database P for KLayout";

// What differs, by the report.
fn tell_difference(alloc: Global, out: &mut String, texts: &Texts<'_>) -> Result<(), AllocError> {
    let pair = difference_in(texts.report);
    let evidence = pair.lines().nth(1).unwrap_or("");
    let name = name_sentence(alloc, texts, word_at(pair, 0), evidence);
    let apart = apart_in(texts.report);
    say(out, &empty_sentence(texts.netlist))?;
    say(out, &gate_sentence(texts.report))?;
    say(out, &partner_sentence(texts))?;
    say(out, &unpaired_sentence(alloc, texts)?)?;
    tell_page(alloc, out, texts.page)?;
    say(out, &apart_sentence(apart))?;
    say(out, &evidence_sentence(apart.lines().nth(1).unwrap_or("")))?;
    say(out, &pair_sentence(pair))?;
    say(out, &evidence_sentence(evidence))?;
    say(out, &name)?;
    say(out, &says(VIEW, "", "", ""))
}

// The first lines of a page: of a second look, or of the one that was asked for.
fn tell_evidence(alloc: Global, out: &mut String, texts: &Texts<'_>) -> Result<(), AllocError> {
    let page = if texts.page.is_empty() {
        texts.report
    } else {
        texts.page
    };
    tell_page(alloc, out, page)?;
    if texts.report.is_empty() {
        let text = "  --page P writes what differs by name and place";
        return say(out, &says(text, "", "", ""));
    }
    Ok(())
}

/// Says what a mismatch is of.
pub fn tell_mismatch(
    alloc: Global,
    out: &mut String,
    ended: &Ended<'_>,
    texts: &Texts<'_>,
) -> Result<(), AllocError> {
    say(
        out,
        &says("lvs: layout and schematic don't match", "", "", ""),
    )?;
    if command_in(ended.words) == "view" {
        tell_evidence(alloc, out, texts)
    } else {
        tell_difference(alloc, out, texts)
    }
}

// Whether neither side has a device: by the written netlist, or by the database.
fn is_empty_match(command: &str, texts: &Texts<'_>) -> bool {
    match command {
        "run" => !texts.netlist.is_empty() && has_no_device(texts.netlist),
        "view" => !texts.report.is_empty() && shows_no_device(texts.report),
        _ => false,
    }
}

const EMPTY: &str = "lvs: warning: nothing was compared: neither side has a device";

const EMPTY_CURE: &str =
    "  so opens and shorts don't show; look at the layers of the rules' input lines";

/// Says what a match is worth.
pub fn tell_match(
    alloc: Global,
    out: &mut String,
    ended: &Ended<'_>,
    texts: &Texts<'_>,
) -> Result<(), AllocError> {
    let command = command_in(ended.words);
    if is_empty_match(command, texts) {
        say(out, &says(EMPTY, "", "", ""))?;
        return say(out, &says(EMPTY_CURE, "", "", ""));
    }
    say(out, &says("lvs: layout and schematic match", "", "", ""))?;
    if command == "run" && !texts.report.is_empty() {
        tell_counts(alloc, out, texts.report, texts.netlist)?;
    }
    Ok(())
}
