//! What lies over a cell from elsewhere on each input layer, and what it leaves for each name.
ghost use Rattle.std.specs.Prelude.{◌≡◌, ◌∷◌, [], ◌++◌, ℕ, List, get_or, length, IfOk};
ghost use Rattle.std.specs.Prelude.{OnOk};
ghost use Rattle.std.specs.List.{All};
ghost use Rattle.cell_graph.specs.Linked.{Linked};
ghost use Rattle.deep_tables.specs.Frames.{IsFramedOpen};
ghost use Rattle.flat_layout.specs.Layers.{Formula, Empty, inputs};
ghost use Rattle.rect_sets.specs.Rects.{IsCanonical};
ghost use Rattle.rule_layers.specs.Formulas.{formula_by, formulas};
ghost use Rattle.zone_phase.specs.Jobs.{MayRead};
ghost use Rattle.zone_phase.specs.Names.{AreInputOpens, AreInputsKept, AreInputZones};
ghost use Rattle.zone_phase.specs.Names.{AreNameOpens, HaveForm, HaveInputs};
ghost use Rattle.zone_phase.specs.Names.{IsFormKept, IsFormOpen, IsFormZone};
ghost use Rattle.zone_phase.specs.Neighbours.{AreNear};
ghost use Rattle.zone_phase.specs.Uses.{IsUsed};

use crate::neighbours::{Neighbour, neighbours_of};
use crate::unions::{copy_at, set_at, with_name};
use crate::uses::UsedCell;
use crate::zones::key_zone;
use deep_tables::CellZones;
use job_graph::Reads;
use rect_sets::RectSet;
use rule_text::{LayerForm, LayerRule};
use std::alloc::{AllocError, Global};

// The union for two names.
fn two_zones(alloc: Global, sets: &[RectSet], a: u32, b: u32) -> Result<RectSet, AllocError>
    ensures { IfOk result (λ r. (n : ℕ) (d : Linked) (cell : ℕ)
        (trees : List Formula) → AreNameOpens n d cell trees sets.now
        → IsFramedOpen n d (inputs (get_or trees a Empty) ++ inputs (get_or trees b Empty)) cell
        r) }
{
    let none = RectSet::empty(alloc);
    let set = with_name(alloc, sets, a, set_at(sets, b, &none))?;
    Ok(set)
}

// What lies over a cell from elsewhere on the input layer of a name; nothing where it is none.
fn form_zone<R: Reads<CellZones>>(
    alloc: Global,
    used: &UsedCell<'_>,
    reads: &R,
    name: usize,
    form: LayerForm,
    neighbours: &[Neighbour],
) -> Result<RectSet, AllocError>
    requires used { IsUsed used.now }
    requires neighbours { AreNear used.now.margin used.now.design.now used.now.cell
        used.now.uses.now neighbours.now }
    requires may { MayRead (R.may_read reads.now) used.now.uses.now }
    requires entries { HaveForm used.now.margin used.now.design.now (R.value reads.now) name
        used.now.uses.now form }
    ensures { IfOk result (IsFormZone used.now.margin used.now.design.now used.now.cell form) }
{
    match form {
        LayerForm::Input(key) => key_zone(alloc, used, reads, name, key, neighbours),
        _ => Ok(RectSet::empty(alloc)),
    }
}

/// Adds a set.
pub fn push_set(sets: &mut Vec<RectSet>, set: RectSet) -> Result<(), AllocError>
    requires { All IsCanonical sets.old.items }
    ensures list { OnOk result (sets.new.items ≡ sets.old.items ++ set ∷ []) }
    ensures canonical { OnOk result (All IsCanonical sets.new.items) }
{
    let _canonical = set.rects();
    sets.push(set)?;
    Ok(())
}

/// What lies over a cell from elsewhere on the input layer of each name that is one, in the cell's
/// hull grown by the margin, in the order of the rules. What lies beside its placements is looked
/// up once, in one window of the parent for each; then each input layer costs a walk of the
/// references to the cell and of the neighbours that lie differently.
pub fn input_zones<R: Reads<CellZones>>(
    alloc: Global,
    used: &UsedCell<'_>,
    reads: &R,
    names: &[LayerRule],
) -> Result<Vec<RectSet>, AllocError>
    requires used { IsUsed used.now }
    requires may { MayRead (R.may_read reads.now) used.now.uses.now }
    requires entries { HaveInputs used.now.margin used.now.design.now (R.value reads.now)
        (formulas names.now) used.now.uses.now }
    ensures zones { IfOk result (λ v. AreInputZones used.now.margin used.now.design.now
        used.now.cell (formulas names.now) v.items) }
    ensures canonical { IfOk result (λ v. All IsCanonical v.items) }
{
    let neighbours = neighbours_of(alloc, used)?;
    let mut sets = Vec::new(alloc);
    for (name, rule) in names.iter().enumerate() {
        let set = form_zone(alloc, used, reads, name, rule.form, &neighbours)?;
        push_set(&mut sets, set)?;
    }
    Ok(sets)
}

// The squares that a cell leaves for a name, over those of the names before it. Of an input layer
// they are given.
fn form_open(
    alloc: Global,
    form: LayerForm,
    input: RectSet,
    before: &[RectSet],
) -> Result<RectSet, AllocError>
    ensures opens { IfOk result (λ r. (n : ℕ) (d : Linked) (cell : ℕ) (trees : List Formula)
        → AreNameOpens n d cell trees before.now → IsFormOpen n d cell form input
        → IsFramedOpen n d (inputs (formula_by trees form)) cell r) }
    ensures kept { IfOk result (IsFormKept form input) }
{
    match form {
        LayerForm::Input(_) => Ok(input),
        LayerForm::Labels(_) => Ok(RectSet::empty(alloc)),
        LayerForm::Empty => Ok(RectSet::empty(alloc)),
        LayerForm::Binary(_, a, b) => two_zones(alloc, before, a, b),
        LayerForm::Sized(a, _) => copy_at(alloc, before, a),
    }
}

/// The squares that a cell leaves for each name, from those of the input layers: each other name
/// costs a union.
pub fn name_opens(
    alloc: Global,
    names: &[LayerRule],
    inputs: Vec<RectSet>,
) -> Result<Vec<RectSet>, AllocError>
    requires { length inputs.items ≡ length (formulas names.now) }
    ensures count { IfOk result (λ v. length v.items ≡ length (formulas names.now)) }
    ensures opens { IfOk result (λ v. (n : ℕ) (d : Linked) (cell : ℕ)
        → AreInputOpens n d cell (formulas names.now) inputs.items
        → AreNameOpens n d cell (formulas names.now) v.items) }
    ensures kept { IfOk result (λ v. AreInputsKept (formulas names.now) inputs.items v.items) }
    ensures canonical { IfOk result (λ v. All IsCanonical v.items) }
{
    let mut sets = Vec::new(alloc);
    for input in inputs {
        let form = names[sets.len()].form;
        let set = form_open(alloc, form, input, &sets)?;
        push_set(&mut sets, set)?;
    }
    Ok(sets)
}
