//! How much was compared.

use crate::netlists::pin_count;
use crate::sentence::{say, says};
use crate::words::word_at;
use std::alloc::{AllocError, Global};

// What a match is of: pairs of circuits that match, and in them devices and nets.
#[derive(Clone, Copy)]
struct Counts {
    pairs: usize,
    devices: usize,
    nets: usize,
}

// Counts what a line of a report tells.
fn with_line(counts: Counts, line: &str) -> Counts {
    let mut more = counts;
    if line.starts_with("device ") {
        more.devices = more.devices.saturating_add(1);
    } else if line.starts_with("net ") {
        more.nets = more.nets.saturating_add(1);
    } else if line.starts_with("pair ") && line.ends_with(" match") {
        more.pairs = more.pairs.saturating_add(1);
    }
    more
}

// Counts what a report tells. One pass.
fn counts_in(report: &str) -> Counts {
    let mut counts = Counts {
        pairs: 0,
        devices: 0,
        nets: 0,
    };
    for line in report.lines() {
        counts = with_line(counts, line);
    }
    counts
}

// The pins of the layout's top, where its circuit is written.
fn top_pins(report: &str, netlist: &str) -> usize {
    match report.lines().find(|line| line.starts_with("top ")) {
        Some(line) => pin_count(netlist, word_at(line, 1)),
        None => 0,
    }
}

/// Says how much the comparison of a report was of.
pub fn tell_counts(
    alloc: Global,
    out: &mut String,
    report: &str,
    netlist: &str,
) -> Result<(), AllocError> {
    let counts = counts_in(report);
    let devices = counts.devices.to_string(alloc)?;
    let nets = counts.nets.to_string(alloc)?;
    let pairs = counts.pairs.to_string(alloc)?;
    let pins = top_pins(report, netlist).to_string(alloc)?;
    let pattern = "  compared: devices @, nets @, in matching pairs of circuits @";
    say(
        out,
        &says(pattern, devices.as_str(), nets.as_str(), pairs.as_str()),
    )?;
    say(
        out,
        &says("  pins of the layout's top: @", pins.as_str(), "", ""),
    )
}
