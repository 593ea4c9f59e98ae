//! The nets of small layouts' top cells.

ghost use Rattle.std.specs.Prelude.{◌≤◌};
ghost use Rattle.rule_text.specs.Seen.{rules_seen};
ghost use Rattle.rule_text.specs.Sound.{IsSound};

use crate::inputs::{Inputs, Kept, read};
use crate::layouts::stream;
use deep_flow::derive_pins;
use job_board::{Crew, OpenGate};
use std::alloc::{AllocError, Global};
use std::sync::Wait;
use std::test::Fail;
use std::thread::Threads;

const RULES: &[u8] = b"m = input(1, 0)\nn = input(2, 0)\nconnect(m, n)\n";

const GROUNDED: &[u8] = b"m = input(1, 0)\nn = input(2, 0)\np = input(3, 0)
connect(m, n)\nconnect_global(p, \"VSS\")\n";

// The net of each item of the top cell, and how many nets it has.
#[derive(Debug, Drop)]
struct Found {
    net_of: Vec<u32>,
    count: u32,
}

fn top_nets<R: Threads + Wait + Sync>(
    rt: &R,
    alloc: Global,
    inputs: &Inputs,
    workers: usize,
) -> Result<Found, AllocError>
    requires sound { IsSound (rules_seen inputs.now.rules) }
    requires workers { (1 ≤ workers) × (workers ≤ 64) }
{
    let (design, rules) = (&inputs.layout.design, &inputs.rules);
    design.sound();
    let found = derive_pins(alloc, design, rules, &Crew::new(rt, workers, &OpenGate))?;
    let kept = Kept { found };
    let nets = kept.found.gated.nets.of(design.top());
    Ok(Found {
        net_of: nets.net_of.to_vec(alloc)?,
        count: nets.count,
    })
}

// Whether the top cell's items are in these nets, for each number of workers.
fn has_nets<R: Threads + Wait + Sync>(
    rt: &R,
    alloc: Global,
    layout: &[u8],
    rules: &[u8],
    net_of: &[u32],
    count: u32,
) -> Result<bool, AllocError> {
    let inputs = read(alloc, layout, rules)?;
    for workers in 1..4 {
        let found = top_nets(rt, alloc, &inputs, workers)?;
        if found.count != count || found.net_of.as_slice() != net_of {
            return Ok(false);
        }
    }
    Ok(true)
}

/// A layout, its rules, the net of each item of the last cell, and how many nets it has.
struct Case(&'static str, &'static [u8], &'static [u32], u32);

// A bar in a turn beside probes, for each turn a square in the far corner of the turned bar: its net
// is that of its turn's probe, and touches no other.
macro_rules! probed {
    ($turn:expr, $net:expr) => {
        Case(
            concat!(
                "cell C\nrect 1 0 0 10 5\ncell T\n",
                "rect 1 9 4 10 5\n",
                "rect 1 -5 9 -4 10\n",
                "rect 1 -10 -5 -9 -4\n",
                "rect 1 4 -10 5 -9\n",
                "rect 1 9 -5 10 -4\n",
                "rect 1 4 9 5 10\n",
                "rect 1 -10 4 -9 5\n",
                "rect 1 -5 -10 -4 -9\n",
                "place C 0 0 ",
                $turn,
                "\n"
            ),
            RULES,
            &[0, 1, 2, 3, 4, 5, 6, 7, $net],
            8,
        )
    };
}

static CASES: [Case; 18] = [
    // Joined by the child's square.
    Case(
        "cell C
rect 1 0 0 10 10
cell T
rect 1 0 0 10 10
rect 1 20 0 30 10
place C 10 0
",
        RULES,
        &[0, 0, 0],
        1,
    ),
    // Corners alone, and an edge.
    Case(
        "cell C
rect 1 0 0 10 10
cell T
rect 1 0 0 10 10
rect 1 20 0 30 10
place C 10 10
",
        RULES,
        &[0, 1, 2],
        3,
    ),
    Case(
        "cell C
rect 1 0 0 10 10
cell T
rect 1 0 0 10 10
rect 1 20 0 30 10
place C 11 10
",
        RULES,
        &[0, 1, 1],
        2,
    ),
    // A rectangle of its own, and two placements of a cell with a part of the global.
    Case(
        "cell C
rect 3 0 0 10 10
cell T
rect 1 0 0 10 10
place C 0 0
place C 100 0
",
        GROUNDED,
        &[0, 1, 1, 1],
        2,
    ),
    // The square in two columns and two rows.
    Case(
        "cell C
rect 1 0 0 10 10
cell T
array C 0 0 2 2 10,0 0,10
",
        RULES,
        &[0, 0, 0, 0],
        1,
    ),
    Case(
        "cell C
rect 1 0 0 10 10
cell T
array C 0 0 2 2 20,0 0,10
",
        RULES,
        &[0, 1, 0, 1],
        2,
    ),
    Case(
        "cell C
rect 1 0 0 10 10
cell T
array C 0 0 2 2 10,0 0,20
",
        RULES,
        &[0, 0, 1, 1],
        2,
    ),
    Case(
        "cell C
rect 1 0 0 10 10
cell T
array C 0 0 2 2 20,0 0,20
",
        RULES,
        &[0, 1, 2, 3],
        4,
    ),
    // Each element is two squares with a corner in common, and meets its neighbours at corners
    // alone.
    Case(
        "cell C
rect 1 10 0 20 10
rect 1 0 10 10 20
cell T
array C 0 0 2 2 20,0 0,20
",
        RULES,
        &[0, 1, 2, 3, 4, 5, 6, 7],
        8,
    ),
    // Two children that overlap, two on one spot, and one apart.
    Case(
        "cell C
rect 1 0 0 10 10
cell T
place C 0 0
place C 40 0
place C 5 0
place C 40 0
place C 60 0
",
        RULES,
        &[0, 1, 0, 1, 2],
        3,
    ),
    // The place of each turn's probe among all of them, by y, then x.
    probed!("R0", 5),
    probed!("R90", 6),
    probed!("R180", 2),
    probed!("R270", 1),
    probed!("M0", 3),
    probed!("M90", 7),
    probed!("M180", 4),
    probed!("M270", 0),
];

#[test]
fn nets_of_top_cells(rt: HostRuntime) -> Result<(), Fail> {
    let alloc: Global = rt.alloc();
    for Case(cells, rules, nets, count) in &CASES {
        let layout = stream(alloc, cells)?;
        let is_so = has_nets(&rt, alloc, &layout, rules, nets, *count)?;
        assert!(rt; is_so, "{nets:?}");
    }
    Ok(())
}

/// A cell of 2^16 squares, placed 2^16 times, has 2^32 items.
const MANY: &str = "cell C
rect 1 0 0 5 5
cell D
array C 0 0 256 256 10,0 0,10
cell T
array D 0 0 256 256 2560,0 0,2560
";

// Want of memory, at once.
#[test]
fn too_many_items(rt: HostRuntime) -> Result<(), Fail> {
    let alloc: Global = rt.alloc();
    let inputs = read(alloc, &stream(alloc, MANY)?, RULES)?;
    assert!(rt; top_nets(&rt, alloc, &inputs, 1).is_err());
    Ok(())
}

// A row of 2^24 squares, in which each cell places the one before twice, side by side. Where it has
// a roof, the top has a rectangle of the other layer over all of them.
fn row(alloc: Global, has_roof: bool) -> Result<Vec<u8>, AllocError> {
    let mut text = String::from_str(alloc, "cell C0\nrect 1 0 0 10 10\n")?;
    let mut wide = 10i32;
    for level in 1..=24i32 {
        let below = level.wrapping_sub(1);
        let cell = format!(in alloc;
            "cell C{level}\nplace C{below} 0 0\nplace C{below} {wide} 0\n"
        )?;
        text.push_str(cell.as_str())?;
        wide = wide.wrapping_mul(2);
    }
    if has_roof {
        text.push_str("rect 2 -5 -5 167772165 15\n")?;
    }
    stream(alloc, text.as_str())
}

// A row is one net, and so is it with what covers it, which doesn't walk its squares.
#[test]
fn doubling_hierarchy(rt: HostRuntime) -> Result<(), Fail> {
    let alloc: Global = rt.alloc();
    let open = row(alloc, false)?;
    assert!(rt; has_nets(&rt, alloc, &open, RULES, &[0, 0], 1)?);
    let covered = row(alloc, true)?;
    assert!(rt; has_nets(&rt, alloc, &covered, RULES, &[0, 0, 0], 1)?);
    Ok(())
}
