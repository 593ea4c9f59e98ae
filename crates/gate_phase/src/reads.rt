//! Which names a device rule reads.
ghost use Rattle.std.specs.Prelude.{◌≡◌, ◌<◌, ◌≤◌, ℕ, length, IfOk};
ghost use Rattle.gate_phase.specs.Reads.{AreRead, IsOfDevice, IsOfRegion, IsOfSome, IsReadBy};
ghost use Rattle.gate_phase.specs.Reads.{MarksMore};

use crate::device::{Device, Region, device_at, device_count};
use rule_text::{LayerForm, LayerRule, RuleSet};
use std::alloc::{AllocError, Global};

// Marks a name, where it stands before a bound.
fn mark_before(marks: &mut [bool], name: u32, bound: usize)
    requires { bound ≤ length marks.old }
    ensures { MarksMore (λ (i : ℕ). (i ≡ name) × (i < bound)) marks.old marks.new }
{
    if (name as usize) < bound {
        marks[name as usize] = true;
    }
}

// Marks what a form reads before a bound.
fn mark_read(marks: &mut [bool], form: LayerForm, bound: usize)
    requires { bound ≤ length marks.old }
    ensures { MarksMore (λ (i : ℕ). IsReadBy form i × (i < bound)) marks.old marks.new }
{
    match form {
        LayerForm::Input(_) => {}
        LayerForm::Labels(_) => {}
        LayerForm::Empty => {}
        LayerForm::Binary(_, a, b) => {
            mark_before(marks, a, bound);
            mark_before(marks, b, bound);
        }
        LayerForm::Sized(a, _) => mark_before(marks, a, bound),
    }
}

// Marks a layer that some kinds don't have.
fn mark_some(marks: &mut [bool], name: Option<u32>, bound: usize)
    requires { bound ≤ length marks.old }
    ensures { MarksMore (λ (i : ℕ). IsOfSome name i × (i < bound)) marks.old marks.new }
{
    if let Some(name) = name {
        mark_before(marks, name, bound);
    }
}

// Marks the names of the regions' layer.
fn mark_region(marks: &mut [bool], region: Region, bound: usize)
    requires { bound ≤ length marks.old }
    ensures { MarksMore (λ (i : ℕ). IsOfRegion region i × (i < bound)) marks.old marks.new }
{
    match region {
        Region::One(name) => mark_before(marks, name, bound),
        Region::Both(a, b) => {
            mark_before(marks, a, bound);
            mark_before(marks, b, bound);
        }
    }
}

// Marks the layers of a device rule.
fn mark_device(marks: &mut [bool], device: &Device)
    ensures { MarksMore (λ (i : ℕ). IsOfDevice device.now i × (i < length marks.old)) marks.old
        marks.new }
{
    let bound = marks.len();
    mark_some(marks, device.ends, bound);
    mark_region(marks, device.region, bound);
    mark_some(marks, device.well, bound);
    mark_before(marks, device.ts, bound);
    mark_before(marks, device.tg, bound);
    mark_before(marks, device.tb, bound);
}

/// Which names of the rules are layers of device rules. Linear in the names and the device rules.
pub fn device_names(alloc: Global, rules: &RuleSet) -> Result<Vec<bool>, AllocError>
    ensures { IfOk result (λ v. length v.items ≡ length rules.now.names.items) }
{
    let mut marks = vec![in alloc; false; rules.names.len()]?;
    let count = device_count(rules)?;
    for number in 0..count {
        mark_device(&mut marks, &device_at(rules, number));
    }
    Ok(marks)
}

/// A mark for each of so many names, set for those of a list. Linear.
pub fn marked_names(alloc: Global, count: usize, names: &[u32]) -> Result<Vec<bool>, AllocError>
    ensures { IfOk result (λ v. length v.items ≡ count) }
{
    let mut marks = vec![in alloc; false; count]?;
    for name in names {
        mark_before(&mut marks, *name, count);
    }
    Ok(marks)
}

/// Which names of the rules the layers of a device rule read, themselves among them. Linear in the
/// names.
pub fn names_read(
    alloc: Global,
    names: &[LayerRule],
    device: &Device,
) -> Result<Vec<bool>, AllocError>
    ensures count { IfOk result (λ v. length v.items ≡ length names.now) }
    ensures read { IfOk result (λ v. AreRead names.now device.now v.items) }
{
    let mut marks = vec![in alloc; false; names.len()]?;
    mark_device(&mut marks, device);
    let mut i = names.len();
    while 0 < i {
        i -= 1;
        if marks[i] {
            mark_read(&mut marks, names[i].form, i);
        }
    }
    Ok(marks)
}
