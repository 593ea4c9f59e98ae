//! Which lines of a page lead to the fault.

use indexmap::IndexMap;
use std::alloc::{AllocError, Global};

// From so many lines on nothing more is told, and of one rank from so many.
const MOST: usize = 6;

const MOST_OF_RANK: usize = 3;

// The last rank of lines that are told.
const LAST: u8 = 7;

// Nets that most devices are on, in most chips.
static SUPPLIES: [&str; 8] = ["VDD", "VSS", "GND", "VCC", "VDDA", "VSSA", "VPWR", "VGND"];

fn is_supply(name: &str) -> bool {
    SUPPLIES
        .iter()
        .any(|known| known.eq_ignore_ascii_case(name))
}

// Whether a line says that a node has no partner.
fn is_alone(line: &str) -> bool {
    line.ends_with(": none in the schematic") || line.ends_with(": none in the layout")
}

// What a line's device or call is, without its number and place.
fn class_of(line: &str) -> &str {
    let behind = match line.split_once(" $") {
        Some((_, behind)) => behind,
        None => line,
    };
    let (kind, _) = behind.split_once(':').unwrap_or((behind, ""));
    let (kind, _) = kind.split_once(" at (").unwrap_or((kind, ""));
    let (kind, _) = kind.split_once(" of the schematic").unwrap_or((kind, ""));
    match kind.split_once(' ') {
        Some((_, class)) => class,
        None => kind,
    }
}

// How many more devices or calls of each class have no partner in the schematic than in the layout.
fn surpluses(alloc: Global, page: &str) -> Result<IndexMap<&str, i64>, AllocError> {
    let mut found = IndexMap::new(alloc);
    for line in page.lines() {
        let step = match line {
            _ if line.ends_with(": none in the schematic") => 1,
            _ if line.ends_with(": none in the layout") => -1,
            _ => 0,
        };
        let class = class_of(line);
        let before: i64 = found.get(class).copied().unwrap_or(0);
        if step != 0 {
            found.insert(class, before.saturating_add(step))?;
        }
    }
    Ok(found)
}

// The rank of a line that speaks of a net.
fn net_rank(line: &str, words: &str) -> u8 {
    let name = words.split(' ').next().unwrap_or("").trim_end_matches(':');
    if line.contains(": joins nets ") || line.contains(": in the layout two parts, ") {
        3
    } else if is_alone(line) && line.ends_with("layout") {
        4
    } else if is_alone(line) {
        5
    } else if !is_supply(name) {
        6
    } else {
        LAST
    }
}

// The rank of a line that speaks of a device or of a call: what the circuits surely differ in comes
// first, other sizes, and classes of which one side has more.
fn part_rank(line: &str, surplus: i64) -> u8 {
    if line.contains(": in the layout ") {
        1
    } else if is_alone(line) && surplus != 0 {
        2
    } else {
        LAST
    }
}

// The rank of a line, the best one first.
fn rank_of(line: &str, surpluses: &IndexMap<&str, i64>) -> u8 {
    match line.trim_start().split_once(' ') {
        Some(("net", words)) => net_rank(line, words),
        _ => part_rank(line, surpluses.get(class_of(line)).copied().unwrap_or(0)),
    }
}

// What was told so far: how many lines, and below which heading; and the heading of the line that
// comes next.
#[derive(Clone, Copy)]
struct Told<'a> {
    lines: usize,
    last: &'a str,
    heading: &'a str,
}

fn push_line(out: &mut String, line: &str) -> Result<(), AllocError> {
    out.push_str("  ")?;
    out.push_str(line)?;
    out.push_str("\n")
}

// Tells a line, below its heading.
fn tell_line<'a>(
    out: &mut String,
    line: &'a str,
    before: Told<'a>,
) -> Result<Told<'a>, AllocError> {
    if before.heading != before.last {
        push_line(out, before.heading)?;
    }
    push_line(out, line)?;
    Ok(Told {
        lines: before.lines.saturating_add(1),
        last: before.heading,
        heading: before.heading,
    })
}

// Tells the first lines of a rank.
fn tell_rank<'a>(
    out: &mut String,
    page: &'a str,
    surpluses: &IndexMap<&str, i64>,
    rank: u8,
    before: Told<'a>,
) -> Result<Told<'a>, AllocError> {
    let mut told = before;
    let most = MOST.min(before.lines.saturating_add(MOST_OF_RANK));
    for line in page.lines().skip(1) {
        if !line.starts_with(' ') {
            told.heading = line;
        } else if told.lines < most && rank_of(line, surpluses) == rank {
            told = tell_line(out, line, told)?;
        }
    }
    Ok(told)
}

// Tells how much was compared, where the page says it.
fn tell_amount(out: &mut String, page: &str) -> Result<(), AllocError> {
    for line in page.lines().skip(1).take(2) {
        if line.starts_with("Compared: ") || line.starts_with("Warning: ") {
            push_line(out, line)?;
        }
    }
    Ok(())
}

/// Tells the lines of a page that lead to the fault, best first: other sizes, devices and calls of
/// which one side has more, nets that are joined or cut, nets without partner, others. One pass for
/// each rank.
pub fn tell_page(alloc: Global, out: &mut String, page: &str) -> Result<(), AllocError> {
    let surpluses = surpluses(alloc, page)?;
    let mut told = Told {
        lines: 0,
        last: "",
        heading: "",
    };
    for rank in 1..=LAST {
        told = tell_rank(out, page, &surpluses, rank, told)?;
    }
    tell_amount(out, page)
}
