//! The names that derived names and device rules read.
ghost use Rattle.std.specs.Prelude.{◌≡◌, ℕ, IfOk, false, length, get_or};
ghost use Rattle.rule_layers.specs.Reads.{AreMarked, AreRead, IsByDevice, IsByFurther, IsByName};
ghost use Rattle.rule_layers.specs.Reads.{IsRead, Marks, Reads, ReadsFurther, ReadsLayer};
ghost use Rattle.rule_layers.specs.Reads.{read_form};

use rule_text::{LayerForm, LayerRule, MoreRule, MosRule};
use std::alloc::{AllocError, Global};

// Marks a name as read, where there is one of this number.
fn mark(marks: &mut Vec<bool>, name: u32)
    ensures { Marks (λ k. name ≡ k) marks.old.items marks.new.items }
{
    let at = name as usize;
    if at < marks.len() {
        marks[at] = true;
    }
}

/// Marks the names that a form reads, those of them that have a place in `marks`. Takes no memory.
pub fn mark_operands(marks: &mut Vec<bool>, form: LayerForm)
    ensures { Marks (Reads form) marks.old.items marks.new.items }
{
    match form {
        LayerForm::Input(_) => {}
        LayerForm::Labels(_) => {}
        LayerForm::Empty => {}
        LayerForm::Binary(_, a, b) => {
            mark(marks, a);
            mark(marks, b);
        }
        LayerForm::Sized(a, _) => mark(marks, a),
    }
}

// Marks the layers of a transistor's rule.
fn mark_device(marks: &mut Vec<bool>, device: &MosRule)
    ensures { Marks (ReadsLayer device.now) marks.old.items marks.new.items }
{
    mark(marks, device.sd);
    mark(marks, device.g);
    mark(marks, device.w);
    mark(marks, device.ts);
    mark(marks, device.tg);
    mark(marks, device.tb);
}

// Marks the layers of a resistor's or a diode's rule.
fn mark_one(marks: &mut Vec<bool>, rule: &MoreRule)
    ensures { Marks (ReadsFurther rule.now) marks.old.items marks.new.items }
{
    match rule {
        MoreRule::Resistor {
            r,
            c,
            w,
            ta,
            tw,
            ..
        } => {
            mark(marks, *r);
            mark(marks, *c);
            mark(marks, *w);
            mark(marks, *ta);
            mark(marks, *tw);
        }
        MoreRule::Diode { p, n, ta, tc, .. } => {
            mark(marks, *p);
            mark(marks, *n);
            mark(marks, *ta);
            mark(marks, *tc);
        }
    }
}

// Marks the names that names read.
fn mark_names(marks: &mut Vec<bool>, names: &[LayerRule])
    ensures { Marks (IsByName names.now (length names.now)) marks.old.items marks.new.items }
{
    for rule in names {
        mark_operands(marks, rule.form);
    }
}

// Marks the names that transistors' rules read.
fn mark_devices(marks: &mut Vec<bool>, devices: &[MosRule])
    ensures { Marks (IsByDevice devices.now (length devices.now)) marks.old.items
        marks.new.items }
{
    for device in devices {
        mark_device(marks, device);
    }
}

// Marks the names that the rules of the other devices read.
fn mark_further(marks: &mut Vec<bool>, further: &[MoreRule])
    ensures { Marks (IsByFurther further.now (length further.now)) marks.old.items
        marks.new.items }
{
    for rule in further {
        mark_one(marks, rule);
    }
}

/// No marks, one for each of so many names.
pub fn no_marks(alloc: Global, count: usize) -> Result<Vec<bool>, AllocError>
    ensures count { IfOk result (λ v. length v.items ≡ count) }
    ensures none { IfOk result (λ v. (k : ℕ) → get_or v.items k false ≡ false) }
{
    let mut marks = Vec::new(alloc);
    for _ in 0..count {
        marks.push(false)?;
    }
    Ok(marks)
}

// Which names are read.
fn read_marks(
    alloc: Global,
    names: &[LayerRule],
    devices: &[MosRule],
    further: &[MoreRule],
) -> Result<Vec<bool>, AllocError>
    ensures count { IfOk result (λ v. length v.items ≡ length names.now) }
    ensures marked { IfOk result (λ v. AreMarked (IsRead names.now devices.now further.now)
        v.items) }
{
    let mut marks = no_marks(alloc, names.len())?;
    mark_names(&mut marks, names);
    mark_devices(&mut marks, devices);
    mark_further(&mut marks, further);
    Ok(marks)
}

// The form, but for an input layer that isn't read no squares.
fn read_form(form: LayerForm, read: bool) -> LayerForm
    ensures { result ≡ read_form read form }
{
    if read {
        return form;
    }
    match form {
        LayerForm::Input(_) => LayerForm::Empty,
        _ => form,
    }
}

/// The names as derived names and these device rules see them: an input layer that none of them
/// reads stands there without squares. Linear.
pub fn read_names(
    alloc: Global,
    names: &[LayerRule],
    devices: &[MosRule],
    further: &[MoreRule],
) -> Result<Vec<LayerRule>, AllocError>
    ensures { IfOk result (λ v. AreRead names.now devices.now further.now v.items) }
{
    let marks = read_marks(alloc, names, devices, further)?;
    let mut read = Vec::new(alloc);
    for k in 0..names.len() {
        let name = names[k].name.try_clone(alloc)?;
        read.push(LayerRule {
            name,
            form: read_form(names[k].form, marks[k]),
        })?;
    }
    Ok(read)
}
