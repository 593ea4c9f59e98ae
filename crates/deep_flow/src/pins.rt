//! Pins and base names, cell by cell, and all that they are found over.
ghost use Rattle.std.specs.Prelude.{IfOk};
ghost use Rattle.cell_graph.specs.Linked.{plain};
ghost use Rattle.deep_tables.specs.Gates.{AreGates, gates_of};
ghost use Rattle.deep_tables.specs.Layers.{AreLayers};
ghost use Rattle.deep_tables.specs.Nets.{AreNets, AreRightNets, tables_of};
ghost use Rattle.deep_tables.specs.Pins.{ArePins};
ghost use Rattle.deep_tables.specs.Zones.{AreZones};
ghost use Rattle.flat_laws.specs.FlatGates.{AreFlatGates};
ghost use Rattle.rule_layers.specs.Meaning.{device_rules, wiring_of};
ghost use Rattle.rule_text.specs.Seen.{rules_seen};
ghost use Rattle.rule_text.specs.Sound.{IsSound};

use crate::gates::{Gated, find_gates};
use crate::layers::{find_layers, find_zones};
use crate::nets::find_nets;
use cell_graph::Design;
use deep_tables::{Gates, Layers, Nets, Pins, Zones};
use job_board::{Crew, Gate, run_phase};
use net_phase::Wired;
use pin_phase::PinPhase;
use rule_text::RuleSet;
use std::alloc::{AllocError, Global};
use std::sync::Wait;
use std::thread::Threads;

/// The layers, the nets, the gates and the pins of each reached cell.
#[derive(Drop)]
pub struct Pinned {
    pub gated: Gated,
    pub pins: Pins,
}

// All of them but the layers.
#[derive(Drop)]
struct Connected {
    nets: Nets,
    gates: Gates,
    pins: Pins,
}

/// The pins of each reached cell and the base names of its nets, over what the phases read of its
/// layers, and over its nets and gates. A cell is worked once, by 1 to 64 workers, with one answer
/// for every number of them. An `Err` is want of memory.
pub fn find_pins<R: Threads + Wait + Sync, G: Gate + Sync>(
    alloc: Global,
    wired: &Wired,
    nets: &Nets,
    gates: &Gates,
    crew: &Crew<R, G>,
) -> Result<Pins, AllocError>
    requires nets { AreNets (plain wired.now.design) (rules_seen wired.now.rules) nets.now }
    requires gates { AreGates (plain wired.now.design) (rules_seen wired.now.rules) gates.now }
    ensures { IfOk result (ArePins (plain wired.now.design) (rules_seen wired.now.rules)) }
{
    let design = wired.design();
    design.sound();
    let phase = PinPhase::new(alloc, wired, nets, gates)?;
    let results = run_phase(alloc, &phase, crew)?;
    let pins = Pins::new(alloc, design, results)?;
    Ok(pins)
}

// Nets, gates and pins over layers, with what the phases read of these made once for all, and over
// disturbed squares, which are let go before pins.
fn connect<R: Threads + Wait + Sync, G: Gate + Sync>(
    alloc: Global,
    design: &Design,
    rules: &RuleSet,
    zones: Zones,
    layers: &Layers,
    crew: &Crew<R, G>,
) -> Result<Connected, AllocError>
    requires rules { IsSound (rules_seen rules.now) }
    requires zones { AreZones (plain design.now) (rules_seen rules.now) zones }
    requires layers { AreLayers (plain design.now) (rules_seen rules.now) layers.now }
    ensures nets { IfOk result (λ c. AreNets (plain design.now) (rules_seen rules.now)
        c.nets) }
    ensures gates { IfOk result (λ c. AreGates (plain design.now) (rules_seen rules.now)
        c.gates) }
    ensures pins { IfOk result (λ c. ArePins (plain design.now) (rules_seen rules.now) c.pins) }
{
    let wired = Wired::new(alloc, design, rules, layers)?;
    let nets = find_nets(alloc, &wired, crew)?;
    let gates = find_gates(alloc, &wired, zones, layers, &nets, crew)?;
    let pins = find_pins(alloc, &wired, &nets, &gates, crew)?;
    Ok(Connected { nets, gates, pins })
}

/// The squares that each reached cell holds itself, its nets, its gates, and its pins with the base
/// names of its nets: each gate of the flat layout is the image of one gate of one cell's list,
/// with its sizes and its terminals, or with its cause where it is bad. A cell is worked once,
/// however often it is placed. The answer is the same for every number of workers. An `Err` is want
/// of memory.
pub fn derive_pins<R: Threads + Wait + Sync, G: Gate + Sync>(
    alloc: Global,
    design: &Design,
    rules: &RuleSet,
    crew: &Crew<R, G>,
) -> Result<Pinned, AllocError>
    requires rules { IsSound (rules_seen rules.now) }
    ensures layers { IfOk result (λ c. AreLayers (plain design.now) (rules_seen rules.now)
        c.gated.layers) }
    ensures nets { IfOk result (λ c. AreNets (plain design.now) (rules_seen rules.now)
        c.gated.nets) }
    ensures gates { IfOk result (λ c. AreGates (plain design.now) (rules_seen rules.now)
        c.gated.gates) }
    ensures pins { IfOk result (λ c. ArePins (plain design.now) (rules_seen rules.now) c.pins) }
    ensures right { IfOk result (λ c. AreRightNets (plain design.now)
        (wiring_of (rules_seen rules.now))
        (tables_of (rules_seen rules.now) c.gated.layers c.gated.nets)) }
    ensures flat { IfOk result (λ c. AreFlatGates (plain design.now)
        (wiring_of (rules_seen rules.now))
        (tables_of (rules_seen rules.now) c.gated.layers c.gated.nets)
        (device_rules (rules_seen rules.now)) (gates_of c.gated.gates)) }
{
    design.sound();
    let zones = find_zones(alloc, design, rules, crew)?;
    let layers = find_layers(alloc, design, rules, &zones, crew)?;
    let found = connect(alloc, design, rules, zones, &layers, crew)?;
    Ok(Pinned {
        gated: Gated {
            layers,
            nets: found.nets,
            gates: found.gates,
        },
        pins: found.pins,
    })
}
