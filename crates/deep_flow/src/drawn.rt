//! What is extracted over a layout's layers, nets, gates and pins: its netlist and its bad gates.
ghost use Rattle.std.specs.Prelude.{◌≡◌, ◌↔◌, ◌<◌, ◌^◌, length, IfOk, true};
ghost use Rattle.cell_graph.specs.Linked.{plain};
ghost use Rattle.deep_tables.specs.Gates.{AreGates};
ghost use Rattle.deep_tables.specs.Layers.{AreLayers};
ghost use Rattle.deep_tables.specs.Nets.{AreNets};
ghost use Rattle.deep_tables.specs.Pins.{ArePins};
ghost use Rattle.flat_layout.specs.Circuits.{IsCircuitCell};
ghost use Rattle.net_model.specs.Rows.{plain_netlist};
ghost use Rattle.plain_netlist.specs.Lists.{IsListed};
ghost use Rattle.plain_netlist.specs.Normal.{IsNormalNetlist};
ghost use Rattle.plain_netlist.specs.Sound.{IsSoundNetlist};
ghost use Rattle.rule_text.specs.Seen.{rules_seen};
ghost use Rattle.deep_flow.specs.Bad.{told_gates};
ghost use Rattle.deep_flow.specs.Extracted.{HaveFewNets, IsNetlistOfCells};

use crate::bad::bad_gates;
use crate::gates::Gated;
use crate::netlist::{netlist, own_circuits};
use cell_graph::Design;
use circuit_phase::circuit_cells;
use deep_tables::{BadGate, CellCircuit, Pins};
use job_board::{Crew, Gate};
use list_base::{number, small};
use net_model::Netlist;
use rule_text::RuleSet;
use std::alloc::{AllocError, Global};
use std::sync::Wait;
use std::thread::Threads;

/// The netlist of a layout's cells and their bad gates. The netlist has a circuit for the top and
/// for each reached cell with a good gate in or below it, in the design's order; `top` is the
/// number of the top's. `bad` has the bad gates of all reached cells, the cells in the design's
/// order.
#[derive(Drop)]
pub struct Drawn {
    pub netlist: Netlist,
    pub top: u32,
    pub bad: Vec<BadGate>,
}

// The place of a cell among these.
fn place_of(cells: &[u32], cell: u32) -> u32
    requires listed { IsListed cell cells.now }
    requires few { length cells.now < 2 ^ 32 }
    ensures { IsCircuitCell cells.now result cell }
{
    for i in 0..cells.len() {
        if cells[i] == cell {
            return i as u32;
        }
    }
    0
}

// Whether these are fewer than 2^32 nets.
fn are_few(drawn: &[bool]) -> bool
    ensures { (result ≡ true) ↔ (length drawn.now < 2 ^ 32) }
{
    match small(drawn.len()) {
        Some(_) => true,
        None => false,
    }
}

// Whether each of these cells has fewer than 2^32 nets.
fn have_few_nets(values: &[CellCircuit]) -> bool
    ensures { (result ≡ true) ↔ HaveFewNets values.now }
{
    for value in values {
        if !are_few(&value.drawn) {
            return false;
        }
    }
    true
}

/// The netlist and the bad gates of a layout, over its layers, nets, gates and pins. The database
/// unit is in picometres. A cell is worked once, however often it is placed. The answer is the same
/// for every number of workers. An `Err` is want of memory, or 2^32 circuits or nets of a cell.
pub fn draw<R: Threads + Wait + Sync, G: Gate + Sync>(
    alloc: Global,
    design: &Design,
    rules: &RuleSet,
    gated: &Gated,
    pins: &Pins,
    unit_pm: u32,
    crew: &Crew<R, G>,
) -> Result<Drawn, AllocError>
    requires layers { AreLayers (plain design.now) (rules_seen rules.now) gated.now.layers }
    requires nets { AreNets (plain design.now) (rules_seen rules.now) gated.now.nets }
    requires gates { AreGates (plain design.now) (rules_seen rules.now) gated.now.gates }
    requires pins { ArePins (plain design.now) (rules_seen rules.now) pins.now }
    ensures netlist { IfOk result (λ e. IsNetlistOfCells unit_pm design.now (rules_seen rules.now)
        gated.now.layers gated.now.nets gated.now.gates pins.now (plain_netlist e.netlist) e.top) }
    ensures sound { IfOk result (λ e. IsSoundNetlist (plain_netlist e.netlist)) }
    ensures normal { IfOk result (λ e. IsNormalNetlist (plain_netlist e.netlist)) }
    ensures bad { IfOk result (λ e. e.bad.items
        ≡ told_gates (rules_seen rules.now) gated.now.gates design.now.order) }
{
    design.sound();
    let gates = &gated.gates;
    let values = own_circuits(alloc, design, rules, gated, pins, unit_pm, crew)?;
    let cells = circuit_cells(alloc, design, gates)?;
    number(cells.len())?;
    if !have_few_nets(&values) {
        return Err(AllocError);
    }
    let netlist = netlist(alloc, values)?;
    let top = place_of(&cells, design.top());
    let bad = bad_gates(alloc, design, rules, gates)?;
    Ok(Drawn { netlist, top, bad })
}
