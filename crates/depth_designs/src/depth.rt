//! A design with the selections of one depth as further layers.

ghost use Rattle.std.specs.Prelude.{◌≡◌, IfErr, IfOk, length};
ghost use Rattle.cell_graph.specs.Layering.{AreFurther, HaveNames};
ghost use Rattle.rule_stages.specs.Stages.{AreSelectsOf, at_depth};
ghost use Rattle.rule_text.specs.Rules.{select_key};
ghost use Rattle.rule_text.specs.Seen.{rules_seen};
ghost use Rattle.rule_text.specs.Sound.{IsSelectRule, IsSound};
ghost use Rattle.depth_designs.specs.Chosen.{AreChosenTo};
ghost use Rattle.depth_designs.specs.Stages.{AreUnused, IsDepthFault, stages_by};
ghost use Rattle.cell_graph.specs.Linked.{plain};
ghost use Rattle.further_layers.specs.Further.{lists_of};
ghost use Rattle.rule_layers.specs.Formulas.{formulas};
ghost use Rattle.staged_designs.specs.Depths.{AreFound, stage_keys};
ghost use Rattle.staged_layouts.specs.Staged.{AreFresh, IsStagedDesign};

use cell_graph::{Design, LinkFault, OwnLayer};
use further_layers::further_layers;
use geo_base::LayerKey;
use rect_sets::RectSet;
use rule_text::{LayerForm, LayerRule, RuleSet, SelectRule};
use std::alloc::{AllocError, Global};

// The layer that a selection becomes: its name's own.
fn key_of(names: &[LayerRule], select: &SelectRule) -> LayerKey
    requires { IsSelectRule names.now select.now }
    ensures { result ≡ select_key select.now.name }
{
    match names.get(select.name as usize) {
        Some(
            LayerRule {
                form: LayerForm::Input(key),
                ..
            },
        ) => *key,
        _ => LayerKey {
            layer: 0,
            datatype: 0,
        },
    }
}

// The layers that selections become.
fn keys_of(
    alloc: Global,
    rules: &RuleSet,
    selected: &[SelectRule],
) -> Result<Vec<LayerKey>, AllocError>
    requires rules { IsSound (rules_seen rules.now) }
    requires of { AreSelectsOf (rules_seen rules.now) selected.now }
    ensures { IfOk result (λ v. v.items ≡ stage_keys (stages_by (rules_seen rules.now)
        selected.now)) }
{
    let mut keys = Vec::new(alloc);
    for select in selected {
        let key = key_of(&rules.names, select);
        keys.push(key)?;
    }
    Ok(keys)
}

// What each cell holds of the selections of a depth, a layer for each.
fn found_layers(
    alloc: Global,
    design: &Design,
    rules: &RuleSet,
    depth: usize,
    selected: &[SelectRule],
    sets: &[Vec<RectSet>],
) -> Result<Vec<Vec<OwnLayer>>, AllocError>
    requires rules { IsSound (rules_seen rules.now) }
    requires selected { selected.now ≡ at_depth (rules_seen rules.now) depth }
    requires of { AreSelectsOf (rules_seen rules.now) selected.now }
    requires unused { AreUnused design.now (stages_by (rules_seen rules.now) selected.now) }
    requires sets { AreChosenTo (plain design.now) (formulas rules.now.names.items) selected.now
        (length selected.now) (lists_of sets.now) }
    ensures further { IfOk result (λ v. AreFurther design.now.cells
        (stage_keys (stages_by (rules_seen rules.now) selected.now)) v.items) }
    ensures found { IfOk result (λ v. AreFound design.now
        (stages_by (rules_seen rules.now) selected.now) v.items) }
    ensures fresh { IfOk result (λ v. AreFresh design.now
        (stages_by (rules_seen rules.now) selected.now) v.items) }
{
    design.sound();
    further_layers::laws();
    let keys = keys_of(alloc, rules, selected)?;
    further_layers(alloc, &keys, sets, design.cells())
}

/// The design with the selections of a depth as further layers, by the chosen squares of each cell.
/// It costs linking.
pub fn with_found(
    alloc: Global,
    design: Design,
    rules: &RuleSet,
    depth: usize,
    selected: &[SelectRule],
    sets: &[Vec<RectSet>],
) -> Result<Design, LinkFault>
    requires rules { IsSound (rules_seen rules.now) }
    requires selected { selected.now ≡ at_depth (rules_seen rules.now) depth }
    requires of { AreSelectsOf (rules_seen rules.now) selected.now }
    requires names { HaveNames design.cells }
    requires unused { AreUnused design (stages_by (rules_seen rules.now) selected.now) }
    requires sets { AreChosenTo (plain design) (formulas rules.now.names.items) selected.now
        (length selected.now) (lists_of sets.now) }
    ensures staged { IfOk result (IsStagedDesign (stages_by (rules_seen rules.now) selected.now)
        design) }
    ensures fault { IfErr result (IsDepthFault (rules_seen rules.now) design selected.now) }
{
    design.sound();
    if selected.is_empty() {
        return Ok(design);
    }
    staged_layouts::stagings();
    rule_stages::stages();
    let further = found_layers(alloc, &design, rules, depth, selected, sets)?;
    let keys = keys_of(alloc, rules, selected)?;
    let staged = design.with_layers(alloc, &keys, further)?;
    staged.sound();
    Ok(staged)
}
