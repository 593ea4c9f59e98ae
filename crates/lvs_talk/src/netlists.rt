//! Names in netlists.

use crate::words::word_at;
use indexmap::IndexSet;
use std::alloc::{AllocError, Global};
use std::mem;

// Whether a card of a written netlist is that of a device.
fn is_device(card: &str) -> bool {
    matches!(card.as_bytes(), [b'M' | b'R' | b'D', ..])
}

/// How many nets are pins of a circuit of a written netlist; 0 where there is no such circuit.
pub fn pin_count(netlist: &str, name: &str) -> usize {
    let head = circuit_of(netlist, name).lines().next().unwrap_or("");
    head.split_whitespace().count().saturating_sub(1)
}

/// Whether a written netlist has no device.
pub fn has_no_device(netlist: &str) -> bool {
    for line in netlist.lines() {
        if is_device(line) {
            return false;
        }
    }
    true
}

/// Whether a database has no device in a circuit.
pub fn shows_no_device(database: &str) -> bool {
    for line in database.lines() {
        if let [b'D', b'(', b'0'..=b'9', ..] = line.trim_start().as_bytes() {
            return false;
        }
    }
    true
}

/// The name of the last circuit of a netlist, as its card spells it.
pub fn last_circuit(netlist: &str) -> Option<&str> {
    let (_, circuit) = netlist
        .rsplit_once(".SUBCKT ")
        .or(netlist.rsplit_once(".subckt "))?;
    Some(word_at(circuit, 0))
}

// Whether a word of a card names the option that changes sizes.
fn names_scale(word: &str) -> bool {
    let name = match word.split_once('=') {
        Some((name, _)) => name,
        None => word,
    };
    name.eq_ignore_ascii_case("SCALE")
}

fn has_scale(line: &str) -> bool {
    line.split_whitespace().any(|word| names_scale(word))
}

// What a line of a schematic is.
#[derive(Clone, Copy, PartialEq, Eq)]
enum Line {
    Passed,
    Option,
    More,
    End,
    Other,
}

fn line_of(line: &str) -> Line {
    let card = word_at(line, 0);
    if card.is_empty() || card.starts_with('*') {
        Line::Passed
    } else if card.starts_with('+') {
        Line::More
    } else if card.eq_ignore_ascii_case(".OPTION") || card.eq_ignore_ascii_case(".OPTIONS") {
        Line::Option
    } else if card.eq_ignore_ascii_case(".END") {
        Line::End
    } else {
        Line::Other
    }
}

/// The number, from 1, of the first line with an option that changes a schematic's sizes, which a
/// run reads as they stand; 0 where there is none. One pass.
pub fn scale_line(schematic: &str) -> usize {
    let mut is_option = false;
    for (place, line) in schematic.lines().enumerate() {
        match line_of(line) {
            Line::Passed => {}
            Line::More => {}
            Line::Option => is_option = true,
            Line::Other => is_option = false,
            Line::End => return 0,
        }
        if is_option && line_of(line) != Line::Passed && has_scale(line) {
            return place.saturating_add(1);
        }
    }
    0
}

// The name of the circuit that a card calls; nothing where it calls none.
fn called(card: &str) -> &str {
    match card.trim_start().as_bytes() {
        [b'X' | b'x', ..] => card.split_whitespace().last().unwrap_or(""),
        _ => "",
    }
}

// Whether a card of a schematic is that of a device.
fn is_part(card: &str) -> bool {
    matches!(
        card.trim_start().as_bytes(),
        [b'M' | b'R' | b'D' | b'm' | b'r' | b'd', ..]
    )
}

// The circuits of a schematic that have a device, in capitals.
fn with_devices(alloc: Global, schematic: &str) -> Result<IndexSet<String>, AllocError> {
    let mut names = IndexSet::new(alloc);
    let mut current = String::new(alloc);
    for card in schematic.lines() {
        if word_at(card, 0).eq_ignore_ascii_case(".SUBCKT") {
            current = word_at(card, 1).to_ascii_uppercase(alloc)?;
        } else if is_part(card) && !current.is_empty() {
            names.insert(mem::replace(&mut current, String::new(alloc)))?;
        }
    }
    Ok(names)
}

// Takes away the circuits of the schematic that a report names.
fn without_paired(names: &mut IndexSet<String>, report: &str) {
    for line in report.lines() {
        if line.starts_with("pair ") || line.starts_with("apart ") {
            names.swap_remove(word_at(line, 2));
        }
    }
}

/// The first circuit of a schematic that is called there, has a device itself, and is in no pair of
/// the report. Linear in both.
pub fn unpaired<'a>(
    alloc: Global,
    schematic: &'a str,
    report: &str,
) -> Result<Option<&'a str>, AllocError> {
    let mut names = with_devices(alloc, schematic)?;
    without_paired(&mut names, report);
    for card in schematic.lines() {
        let name = called(card);
        if names.contains(name.to_ascii_uppercase(alloc)?.as_str()) {
            return Ok(Some(name));
        }
    }
    Ok(None)
}

/// How many circuits a written netlist has, and one more.
pub fn part_count(netlist: &str) -> usize {
    netlist.split(".SUBCKT ").count()
}

// The circuit of a name in a written netlist: its name and pins, and its cards.
fn circuit_of<'a>(netlist: &'a str, name: &str) -> &'a str {
    for circuit in netlist.split(".SUBCKT ") {
        if word_at(circuit, 0) == name {
            return circuit;
        }
    }
    ""
}

// How many words behind a card's first are nets.
fn net_count(card: &str) -> usize {
    match card.as_bytes() {
        [b'M', ..] => 4,
        [b'R', ..] => 3,
        [b'D', ..] => 2,
        [b'X', ..] => card.split_whitespace().count().saturating_sub(2),
        _ => 0,
    }
}

// Adds the first nets behind a line's first word.
fn add_nets<'a>(
    nets: &mut IndexSet<&'a str>,
    line: &'a str,
    count: usize,
) -> Result<(), AllocError> {
    for net in line.split_whitespace().skip(1).take(count) {
        nets.insert(net)?;
    }
    Ok(())
}

// Adds the nets of a circuit, pins first, then as the cards first name them.
fn add_all<'a>(nets: &mut IndexSet<&'a str>, circuit: &'a str) -> Result<(), AllocError> {
    add_nets(nets, circuit.lines().next().unwrap_or(""), usize::MAX)?;
    for card in circuit.lines().skip(1) {
        add_nets(nets, card, net_count(card))?;
    }
    Ok(())
}

// The net of this number, from 0; nothing where there is none, or no memory.
fn net_at<'a>(alloc: Global, circuit: &'a str, number: usize) -> &'a str {
    let mut nets = IndexSet::new(alloc);
    if add_all(&mut nets, circuit).is_err() {
        return "";
    }
    nets.get_index(number).copied().unwrap_or("")
}

// The card of a device or of a call of this number, from 0; nothing where there is none.
fn card_at<'a>(circuit: &'a str, kind: &str, number: usize) -> &'a str {
    let mut left = number;
    for card in circuit.lines().skip(1) {
        let is_call = card.starts_with('X');
        if (kind == "call" && is_call) || (kind == "device" && is_device(card)) {
            if left == 0 {
                return card;
            }
            left = left.saturating_sub(1);
        }
    }
    ""
}

/// What is called so and has this number, from 1, in a circuit of a written netlist: a net's name,
/// or the card of a device or of a call; nothing where there is none. Linear in the netlist.
pub fn named<'a>(
    alloc: Global,
    netlist: &'a str,
    name: &str,
    kind: &str,
    number: usize,
) -> &'a str {
    let circuit = circuit_of(netlist, name);
    let place = number.saturating_sub(1);
    if kind == "net" {
        net_at(alloc, circuit, place)
    } else {
        card_at(circuit, kind, place)
    }
}
