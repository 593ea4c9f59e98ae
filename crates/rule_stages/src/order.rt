//! How many selections stand one upon the other up to each name.

ghost use Rattle.std.specs.Prelude.{◌≡◌, ◌≤◌, ◌+◌, IfOk, get_or, length};
ghost use Rattle.std.specs.List.{All};
ghost use Rattle.rule_text.specs.Seen.{rules_seen};
ghost use Rattle.rule_layers.specs.Formulas.{greatest};
ghost use Rattle.rule_stages.specs.Depths.{select_at, form_depth, depth_by, depths};
ghost use Rattle.rule_stages.specs.Selections.{sight_form};
ghost use Rattle.rule_stages.specs.Stages.{at_depth, AreSelectsOf};

use geo_base::Op;
use rule_text::{LayerForm, RuleSet, SelectRule};
use std::alloc::{AllocError, Global};

/// The selection whose name has this number. Linear in the selections.
pub fn select_at(selects: &[SelectRule], name: usize) -> Option<SelectRule>
    ensures { result ≡ select_at selects.now name }
{
    match selects {
        [] => None,
        [select, more @ ..] => {
            if select.name as usize == name {
                Some(*select)
            } else {
                select_at(more, name)
            }
        }
    }
}

/// What a selection reads, as one name.
pub fn sight_form(select: SelectRule) -> LayerForm
    ensures { result ≡ sight_form select }
{
    LayerForm::Binary(Op::And, select.region, select.other)
}

// The depth of the name of this number.
fn depth_at(depths: &[usize], name: u32) -> usize
    ensures { result ≡ get_or depths.now name 0 }
{
    match depths.get(name as usize) {
        Some(depth) => *depth,
        None => 0,
    }
}

fn form_depth(before: &[usize], form: LayerForm) -> usize
    ensures { result ≡ form_depth before.now form }
{
    match form {
        LayerForm::Input(_) => 0,
        LayerForm::Labels(_) => 0,
        LayerForm::Empty => 0,
        LayerForm::Binary(_, a, b) => depth_at(before, a).max(depth_at(before, b)),
        LayerForm::Sized(a, _) => depth_at(before, a),
    }
}

fn depth_by(before: &[usize], found: Option<SelectRule>, form: LayerForm) -> usize
    requires { All (λ n. n ≤ length before.now) before.now }
    ensures is { result ≡ depth_by before.now found form }
    ensures most { result ≤ length before.now + 1 }
{
    match found {
        Some(select) => form_depth(before, sight_form(select)) + 1,
        None => form_depth(before, form),
    }
}

/// How many selections stand one upon the other up to each name. In O(n m) for n names, which are
/// at most 256 where a file gives them, and m selections.
pub fn depths(alloc: Global, rules: &RuleSet) -> Result<Vec<usize>, AllocError>
    ensures { IfOk result (λ v. v.items ≡ depths (rules_seen rules.now)) }
{
    let mut found = Vec::new(alloc);
    for rule in &rules.names {
        let select = select_at(&rules.selects, found.len());
        let depth = depth_by(&found, select, rule.form);
        found.push(depth)?;
    }
    Ok(found)
}

/// The greatest depth, 0 where there is no selection.
pub fn deepest(depths: &[usize]) -> usize
    ensures { result ≡ greatest depths.now }
{
    match depths {
        [] => 0,
        [depth, more @ ..] => (*depth).max(deepest(more)),
    }
}

/// The selections of a depth in the order of the file, by the known depths of the names. Linear.
pub fn at_depth(
    alloc: Global,
    rules: &RuleSet,
    known: &[usize],
    depth: usize,
) -> Result<Vec<SelectRule>, AllocError>
    requires { known.now ≡ depths (rules_seen rules.now) }
    ensures is { IfOk result (λ v. v.items ≡ at_depth (rules_seen rules.now) depth) }
    ensures of { IfOk result (λ v. AreSelectsOf (rules_seen rules.now) v.items) }
{
    let mut found = Vec::new(alloc);
    for select in &rules.selects {
        if depth_at(known, select.name) == depth {
            found.push(*select)?;
        }
    }
    Ok(found)
}
