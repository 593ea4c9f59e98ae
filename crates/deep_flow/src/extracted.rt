//! Extraction: a layout's netlist and all that it is made from, cell by cell.
ghost use Rattle.std.specs.Prelude.{◌≡◌, IfOk};
ghost use Rattle.cell_graph.specs.Linked.{plain};
ghost use Rattle.deep_tables.specs.Gates.{AreGates, gates_of};
ghost use Rattle.deep_tables.specs.Layers.{AreLayers};
ghost use Rattle.deep_tables.specs.Nets.{AreNets, tables_of};
ghost use Rattle.deep_tables.specs.Pins.{ArePins};
ghost use Rattle.flat_laws.specs.FlatGates.{AreFlatGates};
ghost use Rattle.net_model.specs.Rows.{plain_netlist};
ghost use Rattle.plain_netlist.specs.Normal.{IsNormalNetlist};
ghost use Rattle.plain_netlist.specs.Sound.{IsSoundNetlist};
ghost use Rattle.rule_layers.specs.Meaning.{device_rules, wiring_of};
ghost use Rattle.rule_text.specs.Seen.{rules_seen};
ghost use Rattle.rule_text.specs.Sound.{IsSound};
ghost use Rattle.deep_flow.specs.Bad.{told_gates};
ghost use Rattle.deep_flow.specs.Extracted.{IsNetlistOfCells};

use crate::drawn::draw;
use crate::pins::derive_pins;
use cell_graph::Design;
use deep_tables::{BadGate, Gates, Layers, Nets, Pins};
use job_board::{Crew, Gate};
use net_model::Netlist;
use rule_text::RuleSet;
use std::alloc::{AllocError, Global};
use std::sync::Wait;
use std::thread::Threads;

/// What is extracted from a layout. The netlist has a circuit for the top and for each reached cell
/// with a good gate in or below it, in the design's order; `top` is the number of the top's.
/// `bad` has the bad gates of all reached cells, the cells in the design's order.
#[derive(Drop)]
pub struct Extracted {
    pub layers: Layers,
    pub nets: Nets,
    pub gates: Gates,
    pub pins: Pins,
    pub netlist: Netlist,
    pub top: u32,
    pub bad: Vec<BadGate>,
}

/// Layers, nets, gates, pins and the netlist of a layout, cell by cell: a cell is worked once,
/// however often it is placed. The database unit is in picometres. The answer is the same for every
/// number of workers. An `Err` is want of memory, or 2^32 circuits or nets of a cell.
pub fn extract<R: Threads + Wait + Sync, G: Gate + Sync>(
    alloc: Global,
    design: &Design,
    rules: &RuleSet,
    unit_pm: u32,
    crew: &Crew<R, G>,
) -> Result<Extracted, AllocError>
    requires rules { IsSound (rules_seen rules.now) }
    ensures layers { IfOk result (λ e. AreLayers (plain design.now) (rules_seen rules.now)
        e.layers) }
    ensures nets { IfOk result (λ e. AreNets (plain design.now) (rules_seen rules.now) e.nets) }
    ensures gates { IfOk result (λ e. AreGates (plain design.now) (rules_seen rules.now)
        e.gates) }
    ensures pins { IfOk result (λ e. ArePins (plain design.now) (rules_seen rules.now) e.pins) }
    ensures flat { IfOk result (λ e. AreFlatGates (plain design.now)
        (wiring_of (rules_seen rules.now)) (tables_of (rules_seen rules.now) e.layers e.nets)
        (device_rules (rules_seen rules.now)) (gates_of e.gates)) }
    ensures netlist { IfOk result (λ e. IsNetlistOfCells unit_pm design.now
        (rules_seen rules.now) e.layers e.nets e.gates e.pins (plain_netlist e.netlist) e.top) }
    ensures sound { IfOk result (λ e. IsSoundNetlist (plain_netlist e.netlist)) }
    ensures normal { IfOk result (λ e. IsNormalNetlist (plain_netlist e.netlist)) }
    ensures bad { IfOk result (λ e. e.bad.items
        ≡ told_gates (rules_seen rules.now) e.gates design.now.order) }
{
    let found = derive_pins(alloc, design, rules, crew)?;
    let drawn = draw(
        alloc,
        design,
        rules,
        &found.gated,
        &found.pins,
        unit_pm,
        crew,
    )?;
    Ok(Extracted {
        layers: found.gated.layers,
        nets: found.gated.nets,
        gates: found.gated.gates,
        pins: found.pins,
        netlist: drawn.netlist,
        top: drawn.top,
        bad: drawn.bad,
    })
}
