//! What the phase finds of a cell, from what lies over it on the input layers.
ghost use Rattle.std.specs.Prelude.{◌≡◌, ◌≤◌, ℕ, get_or, length, IfOk};
ghost use Rattle.std.specs.List.{All};
ghost use Rattle.cell_graph.specs.Linked.{Linked};
ghost use Rattle.flat_layout.specs.Layers.{Empty, reach};
ghost use Rattle.flat_layout.specs.declared.way.Way.TheVariants.{Covered};
ghost use Rattle.rect_sets.specs.Rects.{IsCanonical};
ghost use Rattle.rule_layers.specs.Formulas.{formulas};
ghost use Rattle.rule_text.specs.Seen.{rules_seen};
ghost use Rattle.zone_phase.specs.Names.{AreInputOpens, AreInputZones};
ghost use Rattle.zone_phase.specs.Phase.{AreCoveredOf, AreLeft, HasSets};
ghost use Rattle.zone_phase.specs.Uses.{IsUsed};

use crate::bare::bare_inputs;
use crate::devices::device_zones;
use crate::lone::device_lones;
use crate::names::name_opens;
use crate::uses::UsedCell;
use deep_tables::{CellZones, CoveredZones, indexed_sets};
use rect_sets::RectSet;
use rule_text::{LayerRule, RuleSet};
use std::alloc::{AllocError, Global};

/// A cell's zones, from the squares of the input layers that it leaves: a union for each other
/// name, and one for each layer of a device rule.
pub fn left_zones(
    alloc: Global,
    rules: &RuleSet,
    names: &[LayerRule],
    inputs: Vec<RectSet>,
    covered: Option<CoveredZones>,
) -> Result<CellZones, AllocError>
    requires { length inputs.items ≡ length (formulas names.now) }
    ensures left { IfOk result (λ z. (n : ℕ) (d : Linked) (cell : ℕ)
        → AreInputOpens n d cell (formulas names.now) inputs.items
        → AreLeft n d cell (rules_seen rules.now) names.now inputs.items z) }
    ensures sets { IfOk result HasSets }
    ensures covered { IfOk result (λ z. z.covered ≡ covered) }
{
    let layers = name_opens(alloc, names, inputs)?;
    let devices = device_zones(alloc, &layers, rules)?;
    let zones = CellZones::new(alloc, layers, devices, covered)?;
    Ok(zones)
}

/// The same where the cell keeps what it covers itself, from what lies over it.
pub fn covered_zones(
    alloc: Global,
    used: &UsedCell<'_>,
    rules: &RuleSet,
    names: &[LayerRule],
    zones: Vec<RectSet>,
) -> Result<CellZones, AllocError>
    requires used { IsUsed used.now }
    requires covered { used.now.design.now.way ≡ Covered }
    requires reach { (k : ℕ) → reach (get_or (formulas names.now) k Empty) ≤ 10000 }
    requires zones { AreInputZones used.now.margin used.now.design.now used.now.cell
        (formulas names.now) zones.items }
    requires canonical { All IsCanonical zones.items }
    ensures { IfOk result (AreCoveredOf used.now.margin used.now.design.now used.now.cell
        (rules_seen rules.now) names.now zones.items) }
{
    let bare = bare_inputs(alloc, used, names, &zones)?;
    let lone = device_lones(alloc, used, rules, names, &zones)?;
    let inputs = indexed_sets(alloc, zones)?;
    let covered = CoveredZones { inputs, lone };
    let left = left_zones(alloc, rules, names, bare, Some(covered))?;
    Ok(left)
}
