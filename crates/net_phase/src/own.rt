//! The rectangles that cells hold themselves, by conductor.
ghost use Rattle.std.specs.Prelude.{◌≡◌, ◌<◌, ℕ, [], get_or, length, if◌then◌else◌, IfOk, IsSome};
ghost use Rattle.cell_graph.specs.Linked.{plain};
ghost use Rattle.deep_tables.specs.Layers.{AreLayers, layer_of};
ghost use Rattle.deep_tables.specs.Nets.{rects_in};
ghost use Rattle.flat_layout.specs.Layout.{IsReached};
ghost use Rattle.flat_layout.specs.Regions.{formula};
ghost use Rattle.flat_layout.specs.Values.{IsLocalLayer};
ghost use Rattle.rule_layers.specs.Meaning.{wiring_of};
ghost use Rattle.rule_text.specs.Reading.{TellsConductors};
ghost use Rattle.rule_text.specs.Seen.{rules_seen};
ghost use Rattle.net_phase.specs.Own.{AreOwnLists, rect_lists, rects_of};

use cell_graph::Design;
use deep_tables::Layers;
use geo_base::Rect;
use rule_text::RuleSet;
use std::alloc::{AllocError, Global};

fn own_rects<'a>(layers: &'a Layers, cell: u32, conductor: u32, known: bool) -> &'a [Rect]
    requires { IsSome (layer_of layers.now cell conductor) }
    ensures { result.now ≡ (if known then rects_in (layer_of layers.now cell conductor) else []) }
{
    if known {
        return layers.local(cell, conductor).rects();
    }
    &[]
}

// What a cell holds itself of each name, nothing where that is no conductor.
fn cell_own<'a>(
    alloc: Global,
    design: &Design,
    rules: &RuleSet,
    layers: &'a Layers,
    known: &[bool],
    cell: u32,
) -> Result<Vec<&'a [Rect]>, AllocError>
    requires layers { AreLayers (plain design.now) (rules_seen rules.now) layers.now }
    requires known { TellsConductors known.now (rules_seen rules.now) }
    requires all { length known.now ≡ length rules.now.names.items }
    requires few { length rules.now.names.items < 4294967296 }
    requires reached { IsReached (plain design.now) cell }
    ensures { IfOk result (λ v. (c : ℕ)
        → IsLocalLayer (plain design.now) (formula (wiring_of (rules_seen rules.now)) c) cell
        (get_or (rects_of v.items) c [])) }
{
    let _ = design;
    let _ = rules;
    let mut own = Vec::new(alloc);
    for conductor in 0..known.len() {
        own.push(own_rects(layers, cell, conductor as u32, known[conductor]))?;
    }
    Ok(own)
}

/// What each reached cell holds itself of each name, nothing where that is no conductor. Nothing is
/// copied.
pub fn own_lists<'a>(
    alloc: Global,
    design: &Design,
    rules: &RuleSet,
    layers: &'a Layers,
) -> Result<Vec<Vec<&'a [Rect]>>, AllocError>
    requires layers { AreLayers (plain design.now) (rules_seen rules.now) layers.now }
    requires few { length rules.now.names.items < 4294967296 }
    ensures { IfOk result (λ v. AreOwnLists design.now (rules_seen rules.now)
        (rect_lists v.items)) }
{
    design.sound();
    let known = rules.conductors(alloc)?;
    let mut all = Vec::new(alloc);
    for _ in 0..design.cells() {
        all.push(Vec::new(alloc))?;
    }
    for cell in design.order() {
        let own = cell_own(alloc, design, rules, layers, &known, *cell)?;
        all[*cell as usize] = own;
    }
    Ok(all)
}
