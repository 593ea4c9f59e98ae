//! Derived layers, cell by cell.
ghost use Rattle.std.specs.Prelude.{IfOk};
ghost use Rattle.cell_graph.specs.Linked.{plain};
ghost use Rattle.deep_tables.specs.Layers.{AreLayers};
ghost use Rattle.deep_tables.specs.Zones.{AreZones};
ghost use Rattle.rule_text.specs.Seen.{rules_seen};
ghost use Rattle.rule_text.specs.Sound.{IsSound};

use cell_graph::Design;
use deep_tables::{Layers, Zones};
use job_board::{Crew, Gate, run_phase};
use layer_phase::LayerPhase;
use rule_text::RuleSet;
use std::alloc::{AllocError, Global};
use std::sync::Wait;
use std::thread::Threads;
use zone_phase::ZonePhase;

/// The disturbed squares of each reached cell. A cell is worked once, by 1 to 64 workers, with one
/// answer for every number of them. An `Err` is want of memory.
pub fn find_zones<R: Threads + Wait + Sync, G: Gate + Sync>(
    alloc: Global,
    design: &Design,
    rules: &RuleSet,
    crew: &Crew<R, G>,
) -> Result<Zones, AllocError>
    requires rules { IsSound (rules_seen rules.now) }
    ensures { IfOk result (AreZones (plain design.now) (rules_seen rules.now)) }
{
    design.sound();
    let phase = ZonePhase::new(alloc, design, rules)?;
    let results = run_phase(alloc, &phase, crew)?;
    let zones = Zones::new(alloc, design, results)?;
    Ok(zones)
}

/// What each reached cell holds itself of each name, over its disturbed squares. A cell is worked
/// once, by 1 to 64 workers, with one answer for every number of them. An `Err` is want of memory.
pub fn find_layers<R: Threads + Wait + Sync, G: Gate + Sync>(
    alloc: Global,
    design: &Design,
    rules: &RuleSet,
    zones: &Zones,
    crew: &Crew<R, G>,
) -> Result<Layers, AllocError>
    requires rules { IsSound (rules_seen rules.now) }
    requires zones { AreZones (plain design.now) (rules_seen rules.now) zones.now }
    ensures { IfOk result (AreLayers (plain design.now) (rules_seen rules.now)) }
{
    design.sound();
    let phase = LayerPhase::new(alloc, design, rules, zones)?;
    let results = run_phase(alloc, &phase, crew)?;
    let layers = Layers::new(alloc, design, results)?;
    Ok(layers)
}

/// The squares that each reached cell holds itself, for each name of the rules. Nothing is
/// flattened: a cell is worked once, however often it is placed. The answer is the same for every
/// number of workers. An `Err` is want of memory.
pub fn derive_layers<R: Threads + Wait + Sync, G: Gate + Sync>(
    alloc: Global,
    design: &Design,
    rules: &RuleSet,
    crew: &Crew<R, G>,
) -> Result<Layers, AllocError>
    requires rules { IsSound (rules_seen rules.now) }
    ensures { IfOk result (AreLayers (plain design.now) (rules_seen rules.now)) }
{
    let zones = find_zones(alloc, design, rules, crew)?;
    find_layers(alloc, design, rules, &zones, crew)
}
