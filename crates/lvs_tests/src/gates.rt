//! The gates in the lists of small layouts' cells.

ghost use Rattle.std.specs.Prelude.{◌≤◌};
ghost use Rattle.rule_text.specs.Seen.{rules_seen};
ghost use Rattle.rule_text.specs.Sound.{IsSound};

use crate::inputs::{Inputs, Kept, read};
use crate::layouts::stream;
use deep_flow::derive_pins;
use deep_tables::{GateCause, GateState};
use geo_base::Square;
use job_board::{Crew, OpenGate};
use plain_netlist::DeviceKind;
use std::alloc::{AllocError, Global};
use std::sync::Wait;
use std::test::Fail;
use std::thread::Threads;

/// Rules with one class of transistors, whose bulk is a global.
pub const NMOS: &[u8] = b"active = input(2, 0)\npoly = input(3, 0)\ntxt = labels(5, 1)
bulk = polygon_layer\ngate = active & poly\nsd = active - poly
extract_devices(mos4(\"NMOS\"), { \"SD\" => sd, \"G\" => gate, \"W\" => bulk, \"tG\" => poly })
connect(sd, txt)\nconnect(poly, txt)\nconnect_global(bulk, \"VSS\")\n";

const PMOS: &[u8] = b"active = input(2, 0)\npoly = input(3, 0)\ntxt = labels(5, 1)
well = input(1, 0)\ngate = active & poly\nsd = active - poly
extract_devices(mos4(\"P\"), { \"SD\" => sd, \"G\" => gate, \"W\" => well, \"tG\" => poly })
connect(sd, txt)\nconnect(poly, txt)\nconnect(well, txt)\n";

// A gate of a cell's list.
#[derive(Clone, Copy, Debug, PartialEq, Eq)]
struct Listed {
    cell: u32,
    least: Square,
    state: GateState,
}

// A good gate: its cell, its least square, twice its width and length, and the nets of source,
// drain, gate and bulk.
macro_rules! good {
    ($cell:expr, $x:expr, $y:expr, [$w:expr, $l:expr], [$s:expr, $d:expr, $g:expr, $b:expr]) => {
        Listed {
            cell: $cell,
            least: Square { x: $x, y: $y },
            state: GateState::Good {
                kind: DeviceKind::Mos4,
                twice_w: $w,
                twice_l: $l,
                nets: [$d, $g, $s, $b],
            },
        }
    };
}

// A bad gate: its cell, its least square and its cause.
macro_rules! bad {
    ($cell:expr, $x:expr, $y:expr, $cause:expr) => {
        Listed {
            cell: $cell,
            least: Square { x: $x, y: $y },
            state: GateState::Bad($cause),
        }
    };
}

// The gates of all lists, the cells in the design's order.
fn all_gates<R: Threads + Wait + Sync>(
    rt: &R,
    alloc: Global,
    inputs: &Inputs,
    workers: usize,
) -> Result<Vec<Listed>, AllocError>
    requires sound { IsSound (rules_seen inputs.now.rules) }
    requires workers { (1 ≤ workers) × (workers ≤ 64) }
{
    let (design, rules) = (&inputs.layout.design, &inputs.rules);
    design.sound();
    let found = derive_pins(alloc, design, rules, &Crew::new(rt, workers, &OpenGate))?;
    let kept = Kept { found };
    let mut all = Vec::new(alloc);
    for cell in design.order() {
        for gate in kept.found.gated.gates.of(*cell) {
            all.push(Listed {
                cell: *cell,
                least: gate.least,
                state: gate.state,
            })?;
        }
    }
    Ok(all)
}

// Whether these are all gates, for each number of workers.
fn has_gates<R: Threads + Wait + Sync>(
    rt: &R,
    alloc: Global,
    layout: &[u8],
    rules: &[u8],
    gates: &[Listed],
) -> Result<bool, AllocError> {
    let inputs = read(alloc, layout, rules)?;
    for workers in 1..3 {
        let found = all_gates(rt, alloc, &inputs, workers)?;
        if found.as_slice() != gates {
            return Ok(false);
        }
    }
    Ok(true)
}

/// Layouts, their rules, and the gates of all lists.
struct Case(&'static str, &'static [u8], &'static [Listed]);

// Two placements of a transistor of width 10 and length 10 on one spot in a turn: the gate is the
// parent's, and has its sizes in each turn.
macro_rules! twice {
    ($turn:expr, $x:expr, $y:expr) => {
        Case(
            concat!(
                "cell C\nrect 2 0 0 30 10\nrect 3 10 -5 20 15\ncell T\nplace C 0 0 ",
                $turn,
                "\nplace C 0 0 ",
                $turn,
                "\n"
            ),
            NMOS,
            &[good!(1, $x, $y, [20, 20], [0, 1, 2, 3])],
        )
    };
}

static CASES: [Case; 19] = [
    // A gate across the active layer.
    Case(
        "cell T
rect 2 0 0 1250 1500
rect 3 500 -100 750 1600
",
        NMOS,
        &[good!(0, 500, 0, [3000, 500], [1, 2, 0, 3])],
    ),
    // One that ends in it.
    Case(
        "cell T
rect 2 0 0 30 30
rect 3 10 -5 20 15
",
        NMOS,
        &[bad!(0, 10, 0, GateCause::Groups(1))],
    ),
    // A ring round a square.
    Case(
        "cell T
rect 2 0 0 50 50
rect 3 10 10 40 20
rect 3 10 30 40 40
rect 3 10 20 20 30
rect 3 30 20 40 30
",
        NMOS,
        &[bad!(0, 10, 10, GateCause::NoLength)],
    ),
    // An L.
    Case(
        "cell T
rect 2 0 0 30 30
rect 3 10 -5 14 20
rect 3 10 16 35 20
",
        NMOS,
        &[good!(0, 10, 0, [72, 8], [1, 2, 0, 3])],
    ),
    // A U.
    Case(
        "cell T
rect 2 0 0 40 40
rect 3 10 10 14 45
rect 3 26 10 30 45
rect 3 10 10 30 14
",
        NMOS,
        &[good!(0, 10, 10, [144, 8], [1, 2, 0, 3])],
    ),
    // Two gates with a group in common.
    Case(
        "cell T
rect 2 0 0 50 10
rect 3 10 -5 14 15
rect 3 30 -5 34 15
",
        NMOS,
        &[
            good!(0, 10, 0, [20, 8], [2, 3, 0, 5]),
            good!(0, 30, 0, [20, 8], [3, 4, 1, 5]),
        ],
    ),
    // The active layer of one cell and the gate conductor of its parent.
    Case(
        "cell A
rect 2 0 0 50 20
cell T
rect 3 20 -5 30 25
place A 0 0
",
        NMOS,
        &[good!(1, 20, 0, [40, 20], [1, 2, 0, 3])],
    ),
    // A gate whose squares stand in three cells.
    Case(
        "cell A
rect 2 0 0 15 10
cell B
rect 2 15 0 30 10
cell C
rect 3 10 -5 20 15
cell T
place A 0 0
place B 0 0
place C 0 0
",
        NMOS,
        &[good!(3, 10, 0, [20, 20], [0, 2, 3, 1])],
    ),
    // Columns that leave each other's rings free, and columns that don't.
    Case(
        "cell C
rect 2 0 0 30 10
rect 3 10 -5 20 15
cell T
array C 0 0 2 2 21,0 0,50
",
        NMOS,
        &[good!(0, 10, 0, [20, 20], [1, 2, 0, 3])],
    ),
    Case(
        "cell C
rect 2 0 0 30 10
rect 3 10 -5 20 15
cell T
array C 0 0 2 2 20,0 0,50
",
        NMOS,
        &[
            good!(1, 10, 0, [20, 20], [0, 1, 6, 7]),
            good!(1, 30, 0, [20, 20], [1, 2, 8, 7]),
            good!(1, 10, 50, [20, 20], [3, 4, 9, 7]),
            good!(1, 30, 50, [20, 20], [4, 5, 10, 7]),
        ],
    ),
    // A well of the top over the first column alone.
    Case(
        "cell C
rect 2 0 0 30 10
rect 3 10 -5 20 15
cell T
rect 1 -5 -20 35 70
array C 0 0 2 2 50,0 0,50
",
        PMOS,
        &[
            good!(1, 10, 0, [20, 20], [2, 3, 1, 0]),
            bad!(1, 60, 0, GateCause::NoBulk),
            good!(1, 10, 50, [20, 20], [8, 9, 7, 0]),
            bad!(1, 60, 50, GateCause::NoBulk),
        ],
    ),
    twice!("R0", 10, 0),
    twice!("R90", -10, 10),
    twice!("R180", -20, -10),
    twice!("R270", 0, -20),
    twice!("M0", 10, -10),
    twice!("M90", 0, 10),
    twice!("M180", -20, 0),
    twice!("M270", -10, -20),
];

#[test]
fn gates_of_cells(rt: HostRuntime) -> Result<(), Fail> {
    let alloc: Global = rt.alloc();
    for Case(cells, rules, gates) in &CASES {
        let layout = stream(alloc, cells)?;
        assert!(rt; has_gates(&rt, alloc, &layout, rules, gates)?, "{gates:?}");
    }
    Ok(())
}
