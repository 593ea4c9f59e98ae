//! The netlist of the cells' circuits, which are moved into it.
ghost use Rattle.std.specs.Prelude.{◌≡◌, ◌++◌, filter_map, length, option_to_list, IfOk, OnOk};
ghost use Rattle.cell_graph.specs.Linked.{plain};
ghost use Rattle.circuit_phase.specs.Phase.{HasOwn};
ghost use Rattle.deep_tables.specs.Circuits.{IsCellCircuit};
ghost use Rattle.deep_tables.specs.Entries.{upward_cell};
ghost use Rattle.deep_tables.specs.Gates.{AreGates};
ghost use Rattle.deep_tables.specs.Laws.{AreJobs};
ghost use Rattle.deep_tables.specs.Nets.{AreNets};
ghost use Rattle.deep_tables.specs.Pins.{ArePins};
ghost use Rattle.rule_layers.specs.Meaning.{wiring_of};
ghost use Rattle.rule_text.specs.Seen.{rules_seen};

use crate::gates::Gated;
use cell_graph::Design;
use circuit_phase::CircuitPhase;
use deep_tables::{CellCircuit, Pins};
use job_board::Crew;
use job_graph::level_values;
use net_model::{Circuit, Netlist};
use rule_text::RuleSet;
use std::alloc::{AllocError, Global};
use std::thread::Threads;

/// The circuits of the reached cells in the design's order, over their nets, pins and gates, for a
/// caller that moves them on: no table keeps them. The database unit is in picometres, at most
/// 1,000,000. A cell is worked once, by 1 to 64 workers, with one answer for every number of them.
/// An `Err` is want of memory.
pub(crate) fn own_circuits<R: Threads + Sync, G>(
    alloc: Global,
    design: &Design,
    rules: &RuleSet,
    gated: &Gated,
    pins: &Pins,
    unit_pm: u32,
    crew: &Crew<R, G>,
) -> Result<Vec<CellCircuit>, AllocError>
    requires own { HasOwn (plain design.now) (wiring_of (rules_seen rules.now)) }
    requires nets { AreNets (plain design.now) (rules_seen rules.now) gated.now.nets }
    requires gates { AreGates (plain design.now) (rules_seen rules.now) gated.now.gates }
    requires pins { ArePins (plain design.now) (rules_seen rules.now) pins.now }
    ensures count { IfOk result (λ v. length v.items ≡ length design.now.order) }
    ensures right { IfOk result (λ v. AreJobs (upward_cell design.now) design.now
        (IsCellCircuit unit_pm (plain design.now) (rules_seen rules.now)) v.items) }
{
    design.sound();
    let (nets, gates) = (&gated.nets, &gated.gates);
    let phase = CircuitPhase::new(alloc, design, rules, nets, pins, gates, unit_pm)?;
    let values = level_values(crew.rt, alloc, &phase, crew.workers)?;
    Ok(values)
}

// Adds the circuit of a cell that has one.
fn push_circuit(value: CellCircuit, out: &mut Vec<Circuit>) -> Result<(), AllocError>
    ensures { OnOk result (out.new.items ≡ out.old.items ++ option_to_list value.circuit) }
{
    let CellCircuit { circuit, .. } = value;
    if let Some(circuit) = circuit {
        out.push(circuit)?;
    }
    Ok(())
}

/// The circuits of the cells that have one, in their order. They are moved, not copied. Linear in
/// the cells.
pub fn netlist(alloc: Global, values: Vec<CellCircuit>) -> Result<Netlist, AllocError>
    ensures { IfOk result (λ n. n.circuits.items ≡ filter_map (λ v. v.circuit) values.items) }
{
    let mut circuits = Vec::new(alloc);
    for value in values {
        push_circuit(value, &mut circuits)?;
    }
    Ok(Netlist { circuits })
}
