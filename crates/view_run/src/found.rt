//! What is found of a layout.

ghost use Rattle.std.specs.Prelude.{◌≡◌, IfOk};
ghost use Rattle.rule_text.specs.Seen.{rules_seen};
ghost use Rattle.rule_text.specs.Sound.{IsSound};
ghost use Rattle.view_run.specs.Found.{HasFound};

use circuit_phase::circuit_cells;
use deep_flow::{Gated, derive_pins, draw, find_circuits};
use deep_tables::{BadGate, Circuits, Pins};
use gds_layout::Layout;
use job_board::{Crew, Gate};
use net_model::Netlist;
use rule_text::RuleSet;
use std::alloc::{AllocError, Global};
use std::sync::Wait;
use std::thread::Threads;
use view_drawing::Source;

/// The layers, nets, gates and pins of a layout's cells.
pub struct CellTables {
    pub gated: Gated,
    pub pins: Pins,
}

// Written out, so that their owners drop them by one call.
impl Drop for CellTables {
    fn drop(self) {
        let CellTables { gated: _, pins: _ } = self;
    }
}

/// The tables of a layout's cells, their circuits, and the cells with circuits.
#[derive(Drop)]
pub struct Cells {
    pub tables: CellTables,
    pub circuits: Circuits,
    pub cells: Vec<u32>,
}

/// A layout's netlist with the number of the top's circuit, its bad gates, and its cells.
#[derive(Drop)]
pub struct Found {
    pub netlist: Netlist,
    pub top: u32,
    pub bad: Vec<BadGate>,
    pub cells: Cells,
}

/// What is found of a layout, by 1 to 64 workers, with one answer for every number of them. A cell
/// is worked once, but its circuit twice. An `Err` is want of memory, or 2^32 circuits or nets of a
/// cell.
pub fn find_all<R: Threads + Wait + Sync, G: Gate + Sync>(
    alloc: Global,
    layout: &Layout,
    rules: &RuleSet,
    crew: &Crew<R, G>,
) -> Result<Found, AllocError>
    requires rules { IsSound (rules_seen rules.now) }
    ensures { IfOk result (HasFound layout.now (rules_seen rules.now)) }
{
    layout.design.sound();
    let design = &layout.design;
    let unit_pm = layout.header.unit_pm;
    let found = derive_pins(alloc, design, rules, crew)?;
    let tables = CellTables {
        gated: found.gated,
        pins: found.pins,
    };
    let (gated, pins) = (&tables.gated, &tables.pins);
    let drawn = draw(alloc, design, rules, gated, pins, unit_pm, crew)?;
    let circuits = find_circuits(alloc, design, rules, gated, pins, unit_pm, crew)?;
    let cells = circuit_cells(alloc, design, &gated.gates)?;
    Ok(Found {
        netlist: drawn.netlist,
        top: drawn.top,
        bad: drawn.bad,
        cells: Cells {
            tables,
            circuits,
            cells,
        },
    })
}

/// The cells in the form that they are drawn from.
pub fn source_of<'a>(layout: &'a Layout, rules: &'a RuleSet, cells: &'a Cells) -> Source<'a>
    ensures design { result.design.now ≡ layout.now.design }
    ensures rules { result.rules.now ≡ rules.now }
    ensures layers { result.layers.now ≡ cells.now.tables.gated.layers }
    ensures nets { result.nets.now ≡ cells.now.tables.gated.nets }
    ensures gates { result.gates.now ≡ cells.now.tables.gated.gates }
    ensures pins { result.pins.now ≡ cells.now.tables.pins }
    ensures circuits { result.circuits.now ≡ cells.now.circuits }
{
    let tables = &cells.tables;
    Source {
        design: &layout.design,
        rules,
        layers: &tables.gated.layers,
        nets: &tables.gated.nets,
        gates: &tables.gated.gates,
        pins: &tables.pins,
        circuits: &cells.circuits,
    }
}
