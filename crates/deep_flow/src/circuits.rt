//! Circuits, cell by cell.
ghost use Rattle.std.specs.Prelude.{IfOk};
ghost use Rattle.cell_graph.specs.Linked.{plain};
ghost use Rattle.circuit_phase.specs.Phase.{HasOwn};
ghost use Rattle.deep_tables.specs.Circuits.{AreCircuits};
ghost use Rattle.deep_tables.specs.Gates.{AreGates};
ghost use Rattle.deep_tables.specs.Nets.{AreNets};
ghost use Rattle.deep_tables.specs.Pins.{ArePins};
ghost use Rattle.rule_layers.specs.Meaning.{wiring_of};
ghost use Rattle.rule_text.specs.Seen.{rules_seen};

use crate::gates::Gated;
use cell_graph::Design;
use circuit_phase::CircuitPhase;
use deep_tables::{Circuits, Pins};
use job_board::{Crew, Gate, run_phase};
use rule_text::RuleSet;
use std::alloc::{AllocError, Global};
use std::sync::Wait;
use std::thread::Threads;

/// The circuits of the reached cells, over their nets, pins and gates; the database unit is in
/// picometres, at most 1,000,000. A cell is worked once, by 1 to 64 workers, with one answer for
/// every number of them. An `Err` is want of memory.
pub fn find_circuits<R: Threads + Wait + Sync, G: Gate + Sync>(
    alloc: Global,
    design: &Design,
    rules: &RuleSet,
    gated: &Gated,
    pins: &Pins,
    unit_pm: u32,
    crew: &Crew<R, G>,
) -> Result<Circuits, AllocError>
    requires own { HasOwn (plain design.now) (wiring_of (rules_seen rules.now)) }
    requires nets { AreNets (plain design.now) (rules_seen rules.now) gated.now.nets }
    requires gates { AreGates (plain design.now) (rules_seen rules.now) gated.now.gates }
    requires pins { ArePins (plain design.now) (rules_seen rules.now) pins.now }
    ensures { IfOk result (AreCircuits unit_pm (plain design.now) (rules_seen rules.now)) }
{
    design.sound();
    let (nets, gates) = (&gated.nets, &gated.gates);
    let phase = CircuitPhase::new(alloc, design, rules, nets, pins, gates, unit_pm)?;
    let results = run_phase(alloc, &phase, crew)?;
    let circuits = Circuits::new(alloc, design, results)?;
    Ok(circuits)
}
