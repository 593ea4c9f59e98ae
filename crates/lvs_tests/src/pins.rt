//! The pins and base names of small layouts' cells.

ghost use Rattle.std.specs.Prelude.{◌≤◌};
ghost use Rattle.rule_text.specs.Seen.{rules_seen};
ghost use Rattle.rule_text.specs.Sound.{IsSound};

use crate::gates::NMOS;
use crate::inputs::{Inputs, Kept, read};
use crate::layouts::stream;
use deep_flow::derive_pins;
use deep_tables::CellPins;
use job_board::{Crew, OpenGate};
use std::alloc::{AllocError, Global};
use std::sync::Wait;
use std::test::Fail;
use std::thread::Threads;

/// Rules of one conductor with texts.
const METAL: &[u8] = b"metal = input(5, 0)\ntxt = labels(5, 1)\nconnect(metal, txt)\n";

// A cell's nets: a plus for a pin, a minus for another, then its base name and a blank.
fn push_nets(out: &mut Vec<u8>, pins: &CellPins) -> Result<(), AllocError> {
    for (pin, name) in pins.pin.iter().zip(pins.names.iter()) {
        out.push(if *pin { b'+' } else { b'-' })?;
        if let Some(name) = name {
            out.extend_from_slice(name.bytes())?;
        }
        out.push(b' ')?;
    }
    out.push(b'\n')?;
    Ok(())
}

// The nets of all cells, a line for each cell, in the design's order.
fn all_pins<R: Threads + Wait + Sync>(
    rt: &R,
    alloc: Global,
    inputs: &Inputs,
    workers: usize,
) -> Result<Vec<u8>, AllocError>
    requires sound { IsSound (rules_seen inputs.now.rules) }
    requires workers { (1 ≤ workers) × (workers ≤ 64) }
{
    let (design, rules) = (&inputs.layout.design, &inputs.rules);
    design.sound();
    let found = derive_pins(alloc, design, rules, &Crew::new(rt, workers, &OpenGate))?;
    let kept = Kept { found };
    let mut out = Vec::new(alloc);
    for cell in design.order() {
        let pins = kept.found.pins.of(*cell);
        push_nets(&mut out, pins)?;
    }
    Ok(out)
}

// A layout, its rules, and the nets of its cells.
struct Row(&'static str, &'static [u8], &'static str);

static ROWS: [Row; 5] = [
    // The gate stands in the parent: source and drain in the child are its terminals.
    Row(
        "cell K
rect 2 0 0 50 20
cell T
rect 3 20 -5 30 25
place K 0 0
",
        NMOS,
        "+ + +VSS \n- - - +VSS \n",
    ),
    // Two texts on the drain, one of them on the source too.
    Row(
        "cell T
rect 2 0 0 1250 1500
rect 3 500 -100 750 1600
text 5/1 100 100 S
text 5/1 1000 100 S
text 5/1 1000 100 D
text 5/1 600 1550 G
",
        NMOS,
        "+G +S +D,S +VSS \n",
    ),
    // Texts name the nets of their own cell alone, and a parent that joins none of them makes no
    // pin of them.
    Row(
        "cell K
rect 2 0 0 1250 1500
rect 3 500 -100 750 1600
text 5/1 100 100 S
cell T
place K 0 0
",
        NMOS,
        "- +S - +VSS \n- - - +VSS \n",
    ),
    // One parent of two joins the net.
    Row(
        "cell V
rect 5 10 0 20 10
cell A
place V 0 0
cell B
rect 5 0 0 10 10
place V 0 0
cell T
place A 0 0
place B 100 0
",
        METAL,
        "+ \n- \n- \n- - \n",
    ),
    // The parent only passes it on.
    Row(
        "cell V
rect 5 10 0 20 10
cell A
place V 0 0
cell T
rect 5 0 0 10 10
place A 0 0
",
        METAL,
        "+ \n+ \n- \n",
    ),
];

#[test]
fn pins_of_cells(rt: HostRuntime) -> Result<(), Fail> {
    let alloc: Global = rt.alloc();
    for Row(cells, rules, text) in &ROWS {
        let inputs = read(alloc, &stream(alloc, cells)?, rules)?;
        for workers in 1..3 {
            let found = all_pins(&rt, alloc, &inputs, workers)?;
            let told = str::from_utf8(&found).unwrap_or("not UTF-8");
            assert_eq!(rt; told, *text);
        }
    }
    Ok(())
}
