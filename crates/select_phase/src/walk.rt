//! What all cells find of a selection.

ghost use Rattle.std.specs.Prelude.{◌≡◌, ℕ, None, get_or, length, replicate, IfOk};
ghost use Rattle.cell_graph.specs.Linked.{plain};
ghost use Rattle.flat_layout.specs.Layout.{IsReached};
ghost use Rattle.flat_layout.specs.declared.way.Way.TheVariants.{Disturbed};
ghost use Rattle.gate_phase.specs.Indexes.{AreLayersOf};
ghost use Rattle.deep_tables.specs.Zones.{AreZones};
ghost use Rattle.rule_layers.specs.Formulas.{formulas};
ghost use Rattle.rule_text.specs.Seen.{rules_seen};
ghost use Rattle.rule_text.specs.Sound.{IsSound};
ghost use Rattle.select_laws.specs.Selects.{sight};
ghost use Rattle.select_laws.specs.Whole.{ArePartedRegions};
ghost use Rattle.flat_layout.specs.Parts.{Corners};
ghost use Rattle.select_phase.specs.Found.{AreFound};
ghost use Rattle.rule_stages.specs.Selections.{IsKnown, select_of};

use crate::cell::{CellSelection, cell_selection};
use cell_graph::Design;
use deep_tables::Zones;
use gate_phase::{IndexedLayers, Site};
use rule_text::{RuleSet, SelectRule};
use std::alloc::{AllocError, Global};

// Nothing yet for each of so many cells.
fn nothing(alloc: Global, cells: u32) -> Result<Vec<Option<CellSelection>>, AllocError>
    ensures { IfOk result (λ v. v.items ≡ replicate cells None) }
{
    let mut found = Vec::with_capacity(alloc, cells as usize)?;
    for _ in 0..cells {
        found.push(None)?;
    }
    Ok(found)
}

/// What each cell that the top reaches finds of a selection, by the cells' numbers: each once, all
/// that it places before it. A cell costs as `cell_selection`; an `Err` is want of memory.
pub fn find_selection<'a>(
    alloc: Global,
    design: &'a Design,
    rules: &'a RuleSet,
    zones: &'a Zones,
    layers: &'a IndexedLayers<'a>,
    selection: &SelectRule,
) -> Result<Vec<Option<CellSelection>>, AllocError>
    requires rules { IsSound (rules_seen rules.now) }
    requires way { design.now.way ≡ Disturbed }
    requires known { IsKnown (formulas rules.now.names.items) selection.now }
    requires zones { AreZones (plain design.now) (rules_seen rules.now) zones.now }
    requires layers { AreLayersOf (plain design.now) (rules_seen rules.now) layers.now }
    ensures count { IfOk result (λ v. length v.items ≡ length design.now.cells) }
    ensures found { IfOk result (λ v. AreFound (plain design.now)
        (select_of (formulas rules.now.names.items) selection.now) v.items) }
    ensures none { IfOk result (λ v. (cell : ℕ) → (IsReached (plain design.now) cell → ⊥)
        → get_or v.items cell None ≡ None) }
    ensures parted { IfOk result (λ v. ArePartedRegions (plain design.now) Corners
        (sight (select_of (formulas rules.now.names.items) selection.now))) }
{
    design.sound();
    let mut found = nothing(alloc, design.cells())?;
    for cell in design.order() {
        let site = Site {
            design,
            rules,
            zones,
            layers,
            cell: *cell,
        };
        let value = cell_selection(alloc, &site, selection, &found)?;
        found[*cell as usize] = Some(value);
    }
    Ok(found)
}
