//! The derived names by how far they reach, and the names as those of one reach see them.
ghost use Rattle.std.specs.Prelude.{◌≡◌, ◌<◌, ◌+◌, ℕ, Some, false, true, get_or, length};
ghost use Rattle.std.specs.Prelude.{slice_get, IfOk, OnOk};
ghost use Rattle.rule_layers.specs.Reads.{AreMarked, Marks, Reads};
ghost use Rattle.rule_text.specs.Reaches.{reaches};
ghost use Rattle.rule_text.specs.declared.rules.LayerRule.{LayerRule as Rule};
ghost use Rattle.layer_phase.specs.Groups.{AreBefore, AreGroups, AreGroupsTo, AreNeeded, AreSeen};
ghost use Rattle.layer_phase.specs.Groups.{HasReach, IsGroup, IsMember, is_derived, seen_form};

use rule_layers::mark_operands;
use rule_text::{LayerForm, LayerRule};
use std::alloc::{AllocError, Global};

/// The derived names of one reach: `members` tells which names these are, and `names` are the names
/// as they see them. One that none of them is made of stands there without squares.
#[derive(Drop)]
pub struct Group {
    pub reach: u32,
    pub members: Vec<bool>,
    pub names: Vec<LayerRule>,
}

// Whether the form is made of others.
fn is_derived(form: LayerForm) -> bool
    ensures { result ≡ is_derived form }
{
    match form {
        LayerForm::Input(_) => false,
        LayerForm::Labels(_) => false,
        LayerForm::Empty => false,
        LayerForm::Binary(_, _, _) => true,
        LayerForm::Sized(_, _) => true,
    }
}

// Whether a name is derived and reaches so far.
fn is_member(names: &[LayerRule], found: &[u32], name: usize, far: u32) -> bool
    requires name { name < length names.now }
    requires found { found.now ≡ reaches names.now }
    ensures yes { result ≡ true → IsMember names.now far name }
    ensures no { IsMember names.now far name → result ≡ true }
{
    if !is_derived(names[name].form) {
        return false;
    }
    found[name] == far
}

// Which names these are.
fn members_of(
    alloc: Global,
    names: &[LayerRule],
    found: &[u32],
    far: u32,
) -> Result<Vec<bool>, AllocError>
    requires { found.now ≡ reaches names.now }
    ensures count { IfOk result (λ v. length v.items ≡ length names.now) }
    ensures marked { IfOk result (λ v. AreMarked (IsMember names.now far) v.items) }
{
    let mut members = Vec::new(alloc);
    for name in 0..names.len() {
        let member = is_member(names, found, name, far);
        members.push(member)?;
    }
    Ok(members)
}

// Marks what a name is made of, where it is marked itself.
fn mark_below(marks: &mut Vec<bool>, names: &[LayerRule], name: usize)
    requires name { name < length names.now }
    requires count { length marks.old.items ≡ length names.now }
    ensures count { length marks.new.items ≡ length names.now }
    ensures marked { (rule : Rule) → slice_get names.now name ≡ Some rule
        → get_or marks.old.items name false ≡ true
        → Marks (Reads rule.form) marks.old.items marks.new.items }
    ensures other { (get_or marks.old.items name false ≡ true → ⊥)
        → marks.new.items ≡ marks.old.items }
{
    if !marks[name] {
        return;
    }
    mark_operands(marks, names[name].form);
}

// Some names and all that they are made of, down to the input layers. Linear.
fn needed(alloc: Global, names: &[LayerRule], members: &[bool]) -> Result<Vec<bool>, AllocError>
    requires sound { AreBefore names.now }
    requires count { length members.now ≡ length names.now }
    ensures { IfOk result (λ v. AreNeeded members.now names.now v.items) }
{
    let mut marks = members.to_vec(alloc)?;
    let mut name = names.len();
    while name > 0 {
        name -= 1;
        mark_below(&mut marks, names, name);
    }
    Ok(marks)
}

// The form of a name that is marked, and of another no squares.
fn seen_form(form: LayerForm, marked: bool) -> LayerForm
    ensures { result ≡ seen_form marked form }
{
    if marked {
        return form;
    }
    LayerForm::Empty
}

// The names as they are seen where only the marked ones are.
fn seen_names(
    alloc: Global,
    names: &[LayerRule],
    marks: &[bool],
) -> Result<Vec<LayerRule>, AllocError>
    requires { length marks.now ≡ length names.now }
    ensures { IfOk result (λ v. AreSeen names.now marks.now v.items) }
{
    let mut seen = Vec::new(alloc);
    for k in 0..names.len() {
        let name = names[k].name.try_clone(alloc)?;
        seen.push(LayerRule {
            name,
            form: seen_form(names[k].form, marks[k]),
        })?;
    }
    Ok(seen)
}

// The derived names that reach so far.
fn group_of(
    alloc: Global,
    names: &[LayerRule],
    found: &[u32],
    far: u32,
) -> Result<Group, AllocError>
    requires sound { AreBefore names.now }
    requires found { found.now ≡ reaches names.now }
    requires some { (k : ℕ) × IsMember names.now far k }
    ensures names { IfOk result (IsGroup names.now) }
    ensures reach { IfOk result (λ g. g.reach ≡ far) }
{
    let members = members_of(alloc, names, found, far)?;
    let marks = needed(alloc, names, &members)?;
    let seen = seen_names(alloc, names, &marks)?;
    Ok(Group {
        reach: far,
        members,
        names: seen,
    })
}

// Whether there is a group of this reach.
fn has_reach(groups: &[Group], far: u32) -> bool
    ensures { result ≡ true → HasReach groups.now (length groups.now) far }
{
    for group in groups {
        if group.reach == far {
            return true;
        }
    }
    false
}

// Adds the group of a name, unless it isn't derived or the group is there.
fn add_group(
    alloc: Global,
    names: &[LayerRule],
    found: &[u32],
    name: usize,
    groups: &mut Vec<Group>,
) -> Result<(), AllocError>
    requires sound { AreBefore names.now }
    requires found { found.now ≡ reaches names.now }
    requires name { name < length names.now }
    requires groups { AreGroupsTo names.now name groups.old.items }
    ensures { OnOk result (AreGroupsTo names.now (name + 1) groups.new.items) }
{
    if !is_derived(names[name].form) {
        return Ok(());
    }
    let far = found[name];
    if has_reach(groups, far) {
        return Ok(());
    }
    let group = group_of(alloc, names, found, far)?;
    groups.push(group)?;
    Ok(())
}

/// The derived names in groups, one for each reach that one of them has. Linear in the names for
/// each reach.
pub fn groups_of(
    alloc: Global,
    names: &[LayerRule],
    found: &[u32],
) -> Result<Vec<Group>, AllocError>
    requires sound { AreBefore names.now }
    requires found { found.now ≡ reaches names.now }
    ensures { IfOk result (λ v. AreGroups names.now v.items) }
{
    let mut groups = Vec::new(alloc);
    for name in 0..names.len() {
        add_group(alloc, names, found, name, &mut groups)?;
    }
    Ok(groups)
}
