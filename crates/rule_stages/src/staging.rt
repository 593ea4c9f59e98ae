//! The rules with which the selections of one depth are found.

ghost use Rattle.std.specs.Prelude.{◌≡◌, IfOk, length};
ghost use Rattle.rule_text.specs.Seen.{rules_seen};
ghost use Rattle.rule_text.specs.Sound.{IsSound};
ghost use Rattle.rule_stages.specs.Marks.{stage_form, AreBelow, AreMarkedFrom, AreFormedTo};
ghost use Rattle.rule_stages.specs.StageRules.{AreStageNames, bare_rules};
ghost use Rattle.rule_stages.specs.Stages.{AreSelectsOf};

use crate::order::{select_at, sight_form};
use rule_layers::{mark_operands, no_marks};
use rule_text::{LayerForm, LayerRule, RuleSet, SelectRule};
use std::alloc::{AllocError, Global};

// The form of a name as selections see it: of one of them what it reads.
fn stage_form(found: Option<SelectRule>, read: bool, form: LayerForm) -> LayerForm
    ensures { result ≡ stage_form found read form }
{
    match found {
        Some(select) => sight_form(select),
        None => { if read { form } else { LayerForm::Empty } }
    }
}

// Which names some selections read, through other names.
fn stage_marks(
    alloc: Global,
    names: &[LayerRule],
    selected: &[SelectRule],
) -> Result<Vec<bool>, AllocError>
    requires { AreBelow names.now selected.now }
    ensures { IfOk result (λ v. AreMarkedFrom names.now selected.now 0 v.items) }
{
    let mut marks = no_marks(alloc, names.len())?;
    let mut at = names.len();
    while at > 0 {
        at -= 1;
        let form = stage_form(select_at(selected, at), marks[at], names[at].form);
        mark_operands(&mut marks, form);
    }
    Ok(marks)
}

// The names as some selections see them, by which of them are read.
fn stage_names(
    alloc: Global,
    names: &[LayerRule],
    selected: &[SelectRule],
    marks: &[bool],
) -> Result<Vec<LayerRule>, AllocError>
    requires { length marks.now ≡ length names.now }
    ensures { IfOk result (λ v. AreFormedTo names.now selected.now marks.now (length names.now)
        v.items) }
{
    let mut staged = Vec::new(alloc);
    for at in 0..names.len() {
        let name = names[at].name.try_clone(alloc)?;
        let form = stage_form(select_at(selected, at), marks[at], names[at].form);
        staged.push(LayerRule { name, form })?;
    }
    Ok(staged)
}

/// The rules with which some selections are found: names alone, of which those that these
/// selections don't read have no squares, and a selection's own is both names that it reads. In
/// O(n m) for n names and m selections.
pub fn stage_rules(
    alloc: Global,
    rules: &RuleSet,
    selected: &[SelectRule],
) -> Result<RuleSet, AllocError>
    requires sound { IsSound (rules_seen rules.now) }
    requires selects { AreSelectsOf (rules_seen rules.now) selected.now }
    ensures names { IfOk result (λ r. AreStageNames rules.now.names.items selected.now
        r.names.items) }
    ensures bare { IfOk result (λ r. rules_seen r ≡ bare_rules r.names.items) }
{
    let marks = stage_marks(alloc, &rules.names, selected)?;
    let names = stage_names(alloc, &rules.names, selected, &marks)?;
    Ok(RuleSet {
        names,
        selects: Vec::new(alloc),
        outputs: Vec::new(alloc),
        connects: Vec::new(alloc),
        globals: Vec::new(alloc),
        devices: Vec::new(alloc),
        more: Vec::new(alloc),
        same: Vec::new(alloc),
        flat_layouts: Vec::new(alloc),
        flat_schematics: Vec::new(alloc),
        flattens_unmatched: false,
        tells_pins: false,
        covered: false,
        combine: false,
        max_guesses: 1000,
    })
}
