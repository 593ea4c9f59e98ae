//! What others may make of names without the cell.
ghost use Rattle.std.specs.Prelude.{◌≡◌, ◌↔◌, ◌≤◌, ◌+◌, ◌++◌, ◌^◌, ℕ, ℤ, true, List, [], map};
ghost use Rattle.std.specs.Prelude.{get_or, IfOk, OnOk};
ghost use Rattle.std.specs.List.{All};
ghost use Rattle.cell_graph.specs.Linked.{Linked};
ghost use Rattle.deep_laws.specs.Opens.{lone_of};
ghost use Rattle.flat_layout.specs.Layers.{Formula, Empty, Sized, reach};
ghost use Rattle.geo_base.specs.declared.shapes.Square.{Square};
ghost use Rattle.rect_sets.specs.Rects.{covers, IsCanonical};
ghost use Rattle.rule_layers.specs.Formulas.{formula_by, formulas};
ghost use Rattle.rule_text.specs.Seen.{rules_seen};
ghost use Rattle.rule_text.specs.declared.rules.LayerForm.TheVariants.{Sized as SizedForm};
ghost use Rattle.sized_layers.specs.Sizes.{IsSetWithin, IsSize};
ghost use Rattle.zone_phase.specs.Lone.{AreLones, AreRegionLones, IsLoneIn, IsNearZone};
ghost use Rattle.zone_phase.specs.Lone.{device_regions, further_region, mos_region};
ghost use Rattle.zone_phase.specs.Names.{AreInputZones};
ghost use Rattle.zone_phase.specs.Uses.{IsUsed};

use crate::names::push_set;
use crate::unions::{copy_at, set_at};
use crate::uses::UsedCell;
use geo_base::Op;
use rect_sets::RectSet;
use rule_text::{LayerForm, LayerRule, MoreRule, MosRule, RuleSet};
use sized_layers::size;
use std::alloc::{AllocError, Global};

// The most that others can make of a name of two others: what is taken away they needn't draw.
fn two_lones(alloc: Global, sets: &[RectSet], op: Op, a: u32, b: u32) -> Result<RectSet, AllocError>
    ensures { IfOk result (λ r. (q : Square) → covers r q ≡ lone_of op
        (covers (get_or sets.now a []) q) (covers (get_or sets.now b []) q)) }
{
    let none = RectSet::empty(alloc);
    let first = set_at(sets, a, &none);
    let second = set_at(sets, b, &none);
    match op {
        Op::And => first.combined(alloc, second, Op::And),
        Op::Or => first.combined(alloc, second, Op::Or),
        Op::Not => first.try_clone(alloc),
        Op::Xor => first.combined(alloc, second, Op::Or),
    }
}

// The same of a name that is another grown or shrunk.
fn sized_lone(alloc: Global, sets: &[RectSet], a: u32, by: i32) -> Result<RectSet, AllocError>
    requires size { IsSize by }
    requires within { IsSetWithin (2 ^ 39) (get_or sets.now a []) }
    ensures { IfOk result (λ r. (n : ℕ) (d : Linked) (cell : ℕ) (trees : List Formula)
        → AreLones n d cell trees sets.now → IsCanonical r
        → IsLoneIn n d cell (Sized by (get_or trees a Empty)) r) }
{
    let none = RectSet::empty(alloc);
    let operand = set_at(sets, a, &none);
    let set = size(alloc, operand, i64::from(by))?;
    Ok(set)
}

// What others may make of a name, over the names before it. Of an input layer that is what lies
// over the cell.
fn form_lone(
    alloc: Global,
    form: LayerForm,
    zone: &RectSet,
    before: &[RectSet],
) -> Result<RectSet, AllocError>
    requires sized { (a : ℕ) (by : ℤ) → form ≡ SizedForm a by
        → IsSize by × IsSetWithin (2 ^ 39) (get_or before.now a []) }
    ensures { IfOk result (λ r. (n : ℕ) (d : Linked) (cell : ℕ) (trees : List Formula)
        → AreLones n d cell trees before.now → IsNearZone n d cell form zone.now
        → IsCanonical r → IsLoneIn n d cell (formula_by trees form) r) }
{
    match form {
        LayerForm::Input(_) => zone.try_clone(alloc),
        LayerForm::Labels(_) => Ok(RectSet::empty(alloc)),
        LayerForm::Empty => Ok(RectSet::empty(alloc)),
        LayerForm::Binary(op, a, b) => two_lones(alloc, before, op, a, b),
        LayerForm::Sized(a, by) => sized_lone(alloc, before, a, by),
    }
}

// The same of all names, in order.
fn name_lones(
    alloc: Global,
    used: &UsedCell<'_>,
    names: &[LayerRule],
    zones: &[RectSet],
) -> Result<Vec<RectSet>, AllocError>
    requires used { IsUsed used.now }
    requires reach { (k : ℕ) → reach (get_or (formulas names.now) k Empty) ≤ 10000 }
    requires zones { AreInputZones used.now.margin used.now.design.now used.now.cell
        (formulas names.now) zones.now }
    requires canonical { All IsCanonical zones.now }
    ensures { IfOk result (λ v. AreLones used.now.margin used.now.design.now used.now.cell
        (formulas names.now) v.items) }
{
    used.design.sound();
    let mut sets = Vec::new(alloc);
    for (name, rule) in names.iter().enumerate() {
        let set = form_lone(alloc, rule.form, &zones[name], &sets)?;
        push_set(&mut sets, set)?;
    }
    Ok(sets)
}

// What others may make of the regions' layer of a device rule that is no transistor's.
fn further_lone(alloc: Global, sets: &[RectSet], rule: &MoreRule) -> Result<RectSet, AllocError>
    ensures { IfOk result (λ r. (n : ℕ) (d : Linked) (cell : ℕ) (trees : List Formula)
        → AreLones n d cell trees sets.now → IsCanonical r
        → IsLoneIn n d cell (further_region trees rule.now) r) }
{
    match rule {
        MoreRule::Resistor { r, .. } => copy_at(alloc, sets, *r),
        MoreRule::Diode { p, n, .. } => two_lones(alloc, sets, Op::And, *p, *n),
    }
}

// Those of transistors' rules.
fn push_mos_lones(
    alloc: Global,
    sets: &[RectSet],
    rules: &[MosRule],
    lones: &mut Vec<RectSet>,
) -> Result<(), AllocError>
    requires { All IsCanonical lones.old.items }
    ensures lones { OnOk result ((n : ℕ) (d : Linked) (cell : ℕ) (trees regions : List Formula)
        → AreLones n d cell trees sets.now → AreRegionLones n d cell regions lones.old.items
        → AreRegionLones n d cell (regions ++ map (mos_region trees) rules.now)
        lones.new.items) }
    ensures canonical { OnOk result (All IsCanonical lones.new.items) }
{
    for rule in rules {
        let set = copy_at(alloc, sets, rule.g)?;
        push_set(lones, set)?;
    }
    Ok(())
}

// Those of the other devices' rules.
fn push_further_lones(
    alloc: Global,
    sets: &[RectSet],
    rules: &[MoreRule],
    lones: &mut Vec<RectSet>,
) -> Result<(), AllocError>
    requires { All IsCanonical lones.old.items }
    ensures lones { OnOk result ((n : ℕ) (d : Linked) (cell : ℕ) (trees regions : List Formula)
        → AreLones n d cell trees sets.now → AreRegionLones n d cell regions lones.old.items
        → AreRegionLones n d cell (regions ++ map (further_region trees) rules.now)
        lones.new.items) }
    ensures canonical { OnOk result (All IsCanonical lones.new.items) }
{
    for rule in rules {
        let set = further_lone(alloc, sets, rule)?;
        push_set(lones, set)?;
    }
    Ok(())
}

/// What others may make without the cell of the layer of each device rule's regions, from what lies
/// over the cell: a Boolean, or a sized set, for each name, and a Boolean for each diode's rule.
pub fn device_lones(
    alloc: Global,
    used: &UsedCell<'_>,
    rules: &RuleSet,
    names: &[LayerRule],
    zones: &[RectSet],
) -> Result<Vec<RectSet>, AllocError>
    requires used { IsUsed used.now }
    requires reach { (k : ℕ) → reach (get_or (formulas names.now) k Empty) ≤ 10000 }
    requires zones { AreInputZones used.now.margin used.now.design.now used.now.cell
        (formulas names.now) zones.now }
    requires canonical { All IsCanonical zones.now }
    ensures lones { IfOk result (λ v. AreRegionLones used.now.margin used.now.design.now
        used.now.cell (device_regions (formulas names.now) (rules_seen rules.now)) v.items) }
    ensures canonical { IfOk result (λ v. All IsCanonical v.items) }
{
    let sets = name_lones(alloc, used, names, zones)?;
    let mut lones = Vec::new(alloc);
    push_mos_lones(alloc, &sets, &rules.devices, &mut lones)?;
    push_further_lones(alloc, &sets, &rules.more, &mut lones)?;
    Ok(lones)
}
