//! Gates of transistors and regions of further devices, cell by cell.
ghost use Rattle.std.specs.Prelude.{IfOk};
ghost use Rattle.cell_graph.specs.Linked.{plain};
ghost use Rattle.deep_tables.specs.Gates.{AreGates};
ghost use Rattle.deep_tables.specs.Layers.{AreLayers};
ghost use Rattle.deep_tables.specs.Nets.{AreNets};
ghost use Rattle.deep_tables.specs.Zones.{AreZones};
ghost use Rattle.rule_text.specs.Seen.{rules_seen};

use deep_tables::{Gates, Layers, Nets, Zones};
use gate_phase::{GatePhase, MorePhase};
use job_board::{Crew, Gate, run_phase};
use net_phase::Wired;
use std::alloc::{AllocError, Global};
use std::sync::Wait;
use std::thread::Threads;

/// The layers, the nets and the gates of each reached cell.
#[derive(Drop)]
pub struct Gated {
    pub layers: Layers,
    pub nets: Nets,
    pub gates: Gates,
}

// The gates of transistors of each reached cell, and behind them its further devices, with what
// both phases read made once. A cell is worked once for each, by 1 to 64 workers.
fn all_devices<R: Threads + Wait + Sync, G: Gate + Sync>(
    alloc: Global,
    wired: &Wired,
    zones: &Zones,
    layers: &Layers,
    nets: &Nets,
    crew: &Crew<R, G>,
) -> Result<Gates, AllocError>
    requires zones { AreZones (plain wired.now.design) (rules_seen wired.now.rules) zones.now }
    requires layers { AreLayers (plain wired.now.design) (rules_seen wired.now.rules) layers.now }
    requires nets { AreNets (plain wired.now.design) (rules_seen wired.now.rules) nets.now }
    ensures { IfOk result (AreGates (plain wired.now.design) (rules_seen wired.now.rules)) }
{
    let design = wired.design();
    design.sound();
    let phase = GatePhase::new(alloc, wired, zones, layers, nets, crew)?;
    let results = run_phase(alloc, &phase, crew)?;
    let gates = Gates::new(alloc, design, results)?;
    let more = MorePhase::over(phase.into_work(), &gates);
    let found = run_phase(alloc, &more, crew)?;
    let devices = Gates::new(alloc, design, found)?;
    Ok(devices)
}

/// The gates of each reached cell and its further devices, over its layers and nets, and over its
/// disturbed squares, which are let go. A cell is worked once for each, by 1 to 64 workers, with
/// one answer for every number of them. An `Err` is want of memory.
pub fn find_gates<R: Threads + Wait + Sync, G: Gate + Sync>(
    alloc: Global,
    wired: &Wired,
    zones: Zones,
    layers: &Layers,
    nets: &Nets,
    crew: &Crew<R, G>,
) -> Result<Gates, AllocError>
    requires zones { AreZones (plain wired.now.design) (rules_seen wired.now.rules) zones }
    requires layers { AreLayers (plain wired.now.design) (rules_seen wired.now.rules) layers.now }
    requires nets { AreNets (plain wired.now.design) (rules_seen wired.now.rules) nets.now }
    ensures { IfOk result (AreGates (plain wired.now.design) (rules_seen wired.now.rules)) }
{
    all_devices(alloc, wired, &zones, layers, nets, crew)
}
