//! What cells hold of the selections of one depth.

ghost use Rattle.std.specs.Prelude.{◌≡◌, ℕ, IfOk, Some, length, slice_get};
ghost use Rattle.cell_graph.specs.Linked.{plain};
ghost use Rattle.deep_tables.specs.Zones.{AreZones};
ghost use Rattle.flat_layout.specs.declared.way.Way.TheVariants.{Disturbed};
ghost use Rattle.further_layers.specs.Further.{lists_of};
ghost use Rattle.gate_phase.specs.Indexes.{AreLayersOf};
ghost use Rattle.rule_layers.specs.Formulas.{formulas};
ghost use Rattle.rule_stages.specs.Selections.{IsKnown};
ghost use Rattle.rule_stages.specs.Stages.{AreSelectsOf, at_depth};
ghost use Rattle.rule_text.specs.Seen.{rules_seen};
ghost use Rattle.rule_text.specs.Sound.{IsSound};
ghost use Rattle.rule_text.specs.declared.rules.SelectRule.{SelectRule};
ghost use Rattle.depth_designs.specs.Chosen.{AreChosenTo};
ghost use Rattle.select_flow.specs.Sets.{chosen_of, chosen_sets};

use cell_graph::Design;
use deep_flow::{find_layers, find_zones};
use deep_tables::Zones;
use gate_phase::IndexedLayers;
use job_board::{Crew, Gate};
use list_base::number;
use rect_sets::RectSet;
use rule_stages::{stage_laws, stage_rules};
use rule_text::{RuleSet, SelectRule};
use select_phase::{CellSelection, find_selection};
use std::alloc::{AllocError, Global};
use std::sync::Wait;
use std::thread::Threads;

// The chosen squares of a cell; none of one that the top doesn't reach.
fn chosen_of(alloc: Global, found: &Option<CellSelection>) -> Result<RectSet, AllocError>
    ensures { IfOk result (λ s. s ≡ chosen_of found.now) }
{
    match found {
        Some(found) => found.chosen.try_clone(alloc),
        None => Ok(RectSet::empty(alloc)),
    }
}

fn chosen_sets(alloc: Global, found: &[Option<CellSelection>]) -> Result<Vec<RectSet>, AllocError>
    ensures { IfOk result (λ v. v.items ≡ chosen_sets found.now) }
{
    let mut sets = Vec::new(alloc);
    for value in found {
        let set = chosen_of(alloc, value)?;
        sets.push(set)?;
    }
    Ok(sets)
}

// The chosen squares of each cell, for each of some selections, over the tables of their rules.
fn select_sets<'a>(
    alloc: Global,
    design: &'a Design,
    stage: &'a RuleSet,
    zones: &'a Zones,
    layers: &'a IndexedLayers<'a>,
    selected: &[SelectRule],
) -> Result<Vec<Vec<RectSet>>, AllocError>
    requires rules { IsSound (rules_seen stage.now) }
    requires way { design.now.way ≡ Disturbed }
    requires zones { AreZones (plain design.now) (rules_seen stage.now) zones.now }
    requires layers { AreLayersOf (plain design.now) (rules_seen stage.now) layers.now }
    requires known { (k : ℕ) (s : SelectRule) → slice_get selected.now k ≡ Some s
        → IsKnown (formulas stage.now.names.items) s }
    ensures { IfOk result (λ v. AreChosenTo (plain design.now) (formulas stage.now.names.items)
        selected.now (length selected.now) (lists_of v.items)) }
{
    let mut sets = Vec::new(alloc);
    for k in 0..selected.len() {
        let found = find_selection(alloc, design, stage, zones, layers, &selected[k])?;
        let chosen = chosen_sets(alloc, &found)?;
        sets.push(chosen)?;
    }
    Ok(sets)
}

// The names that some selections ask their regions for.
fn other_names(alloc: Global, selected: &[SelectRule]) -> Result<Vec<u32>, AllocError> {
    let mut names = Vec::new(alloc);
    for select in selected {
        names.push(select.other)?;
    }
    Ok(names)
}

// The same over the zones of their rules.
fn zoned_sets<R: Threads + Wait + Sync, G: Gate + Sync>(
    alloc: Global,
    design: &Design,
    stage: &RuleSet,
    selected: &[SelectRule],
    crew: &Crew<R, G>,
) -> Result<Vec<Vec<RectSet>>, AllocError>
    requires rules { IsSound (rules_seen stage.now) }
    requires way { design.now.way ≡ Disturbed }
    requires known { (k : ℕ) (s : SelectRule) → slice_get selected.now k ≡ Some s
        → IsKnown (formulas stage.now.names.items) s }
    ensures { IfOk result (λ v. AreChosenTo (plain design.now) (formulas stage.now.names.items)
        selected.now (length selected.now) (lists_of v.items)) }
{
    number(stage.names.len())?;
    let zones = find_zones(alloc, design, stage, crew)?;
    let layers = find_layers(alloc, design, stage, &zones, crew)?;
    let others = other_names(alloc, selected)?;
    let indexed = IndexedLayers::of_names(alloc, design, stage, &layers, &others)?;
    select_sets(alloc, design, stage, &zones, &indexed, selected)
}

/// The chosen squares of each cell, for each of the selections of a depth. It costs the zones and
/// layers of the names that they read, and the search of their regions.
pub fn depth_sets<R: Threads + Wait + Sync, G: Gate + Sync>(
    alloc: Global,
    design: &Design,
    rules: &RuleSet,
    depth: usize,
    selected: &[SelectRule],
    crew: &Crew<R, G>,
) -> Result<Vec<Vec<RectSet>>, AllocError>
    requires rules { IsSound (rules_seen rules.now) }
    requires selected { selected.now ≡ at_depth (rules_seen rules.now) depth }
    requires of { AreSelectsOf (rules_seen rules.now) selected.now }
    requires way { design.now.way ≡ Disturbed }
    ensures { IfOk result (λ v. AreChosenTo (plain design.now) (formulas rules.now.names.items)
        selected.now (length selected.now) (lists_of v.items)) }
{
    stage_laws();
    let stage = stage_rules(alloc, rules, selected)?;
    zoned_sets(alloc, design, &stage, selected, crew)
}
