//! The flat squares of a cell among those that are looked at, for each name of the rules.
ghost use Rattle.std.specs.Prelude.{◌≡◌, ◌<◌, ◌≤◌, ◌^◌, ℕ, ℤ, List, [], get_or, length, IfOk};
ghost use Rattle.cell_graph.specs.Linked.{Linked, cell_at, own_of};
ghost use Rattle.flat_layout.specs.Layers.{Binary, Empty, Input, Sized, Formula, reach};
ghost use Rattle.geo_base.specs.declared.shapes.Rect.{Rect};
ghost use Rattle.rule_text.specs.declared.rules.LayerForm.TheVariants.{Input as InputForm};
ghost use Rattle.rule_text.specs.declared.rules.LayerForm.TheVariants.{Sized as SizedForm};
ghost use Rattle.geo_base.specs.declared.layer.LayerKey.{LayerKey};
ghost use Rattle.rule_layers.specs.Formulas.{formula_by, formulas};
ghost use Rattle.sized_layers.specs.Sizes.{IsSetWithin, IsSize};
ghost use Rattle.layer_phase.specs.Looks.{AreNear, IsInput};
ghost use Rattle.cell_context.specs.Placed.{Grows};
ghost use Rattle.layer_phase.specs.Names.{AreFlats, IsFlatIn};

use crate::squares::Squares;
use cell_context::collect_in;
use cell_graph::Design;
use geo_base::{LayerKey, Op};
use rect_sets::RectSet;
use rule_text::{LayerForm, LayerRule};
use sized_layers::size;
use std::alloc::{AllocError, Global};

// The set of a name, and none past the last.
fn set_at<'a>(sets: &'a [Squares<'_>], name: u32, none: &'a RectSet) -> &'a RectSet
    requires { none.now ≡ [] }
    ensures { result.now ≡ get_or sets.now name [] }
{
    match sets.get(name as usize) {
        Some(flat) => flat.set(),
        None => none,
    }
}

// The flat squares of a name that reads two others.
fn two_flats<'a>(
    alloc: Global,
    before: &[Squares<'_>],
    op: Op,
    a: u32,
    b: u32,
) -> Result<Squares<'a>, AllocError>
    ensures { IfOk result (λ r. (d : Linked) (cell : ℕ) (looks : List Rect) (trees : List Formula)
        → AreFlats d cell looks trees before.now
        → IsFlatIn d cell looks (Binary op (get_or trees a Empty) (get_or trees b Empty)) r) }
{
    let none = RectSet::empty(alloc);
    let first = set_at(before, a, &none);
    let second = set_at(before, b, &none);
    let set = first.combined(alloc, second, op)?;
    Ok(Squares::own(set))
}

// The flat squares of a name that is another grown or shrunk.
fn sized_flat<'a>(
    alloc: Global,
    before: &[Squares<'_>],
    a: u32,
    by: i32,
) -> Result<Squares<'a>, AllocError>
    requires size { IsSize by }
    requires within { IsSetWithin (2 ^ 39) (get_or before.now a []) }
    ensures { IfOk result (λ r. (d : Linked) (cell : ℕ) (looks : List Rect) (trees : List Formula)
        → AreFlats d cell looks trees before.now
        → IsFlatIn d cell looks (Sized by (get_or trees a Empty)) r) }
{
    let none = RectSet::empty(alloc);
    let operand = set_at(before, a, &none);
    let set = size(alloc, operand, i64::from(by))?;
    Ok(Squares::own(set))
}

// The flat squares of an input layer. A cell that places no other has its own alone.
fn input_flat<'a>(
    alloc: Global,
    design: &'a Design,
    cell: u32,
    key: LayerKey,
    looks: &RectSet,
) -> Result<Squares<'a>, AllocError>
    requires cell { cell < length design.now.cells }
    requires near { AreNear looks.now }
    requires own { Grows (own_of (cell_at design.now cell) key) looks.now }
    ensures { IfOk result (IsFlatIn design.now cell looks.now (Input key)) }
{
    design.sound();
    if design.places(cell).is_empty() {
        return Ok(Squares::lent(design.own(cell, key)));
    }
    let set = collect_in(alloc, design, cell, key, looks)?;
    let flat = Squares::own(set);
    Ok(flat)
}

// A name's flat squares, over those of the names before it.
fn form_flat<'a>(
    alloc: Global,
    design: &'a Design,
    cell: u32,
    looks: &RectSet,
    before: &[Squares<'_>],
    form: LayerForm,
) -> Result<Squares<'a>, AllocError>
    requires cell { cell < length design.now.cells }
    requires near { AreNear looks.now }
    requires sized { (a : ℕ) (by : ℤ) → form ≡ SizedForm a by
        → IsSize by × IsSetWithin (2 ^ 39) (get_or before.now a []) }
    requires own { (key : LayerKey) → form ≡ InputForm key
        → Grows (own_of (cell_at design.now cell) key) looks.now }
    ensures { IfOk result (λ r. (trees : List Formula)
        → AreFlats design.now cell looks.now trees before.now
        → IsFlatIn design.now cell looks.now (formula_by trees form) r) }
{
    match form {
        LayerForm::Input(key) => input_flat(alloc, design, cell, key, looks),
        LayerForm::Labels(_) => Ok(Squares::own(RectSet::empty(alloc))),
        LayerForm::Empty => Ok(Squares::own(RectSet::empty(alloc))),
        LayerForm::Binary(op, a, b) => two_flats(alloc, before, op, a, b),
        LayerForm::Sized(a, by) => sized_flat(alloc, before, a, by),
    }
}

/// The flat squares of a cell among those that are looked at, for each name in the order of the
/// rules: one walk below the cell for each input layer, and one Boolean for each other name.
pub fn name_flats<'a>(
    alloc: Global,
    design: &'a Design,
    cell: u32,
    looks: &RectSet,
    names: &[LayerRule],
) -> Result<Vec<Squares<'a>>, AllocError>
    requires cell { cell < length design.now.cells }
    requires near { AreNear looks.now }
    requires reach { (k : ℕ) → reach (get_or (formulas names.now) k Empty) ≤ 10000 }
    requires within { IsSetWithin (2 ^ 38) looks.now }
    requires own { (name : ℕ) (key : LayerKey) → IsInput names.now name key
        → Grows (own_of (cell_at design.now cell) key) looks.now }
    ensures count { IfOk result (λ v. length v.items ≡ length names.now) }
    ensures flats { IfOk result (λ v. AreFlats design.now cell looks.now (formulas names.now)
        v.items) }
{
    let mut flats = Vec::new(alloc);
    for rule in names {
        let set = form_flat(alloc, design, cell, looks, &flats, rule.form)?;
        flats.push(set)?;
    }
    Ok(flats)
}
