//! The squares that a cell holds itself, for each name of the rules.
ghost use Rattle.std.specs.Prelude.{◌≡◌, ◌<◌, ◌≤◌, ◌^◌, ◌==◌, ◌&&◌, ◌||◌, not, ℕ, List, [], Some};
ghost use Rattle.std.specs.Prelude.{length, get_or, slice_get, slice_set, IfOk, OnOk};
ghost use Rattle.geo_base.specs.declared.shapes.Rect.{Rect as Rectangle};
ghost use Rattle.geo_base.specs.declared.shapes.Square.{Square};
ghost use Rattle.rect_sets.specs.Rects.{covers};
ghost use Rattle.sized_layers.specs.Sizes.{IsSetWithin};
ghost use Rattle.cell_graph.specs.Linked.{plain};
ghost use Rattle.deep_laws.specs.Layers.{IsDerived};
ghost use Rattle.flat_layout.specs.Layers.{Input, Formula, reach};
ghost use Rattle.flat_layout.specs.Values.{IsLocalLayer};
ghost use Rattle.rule_layers.specs.Formulas.{formula_by, formulas};
ghost use Rattle.layer_phase.specs.Around.{around};
ghost use Rattle.layer_phase.specs.Groups.{AreFlatsAround, AreGroups, ArePlain, Finds};
ghost use Rattle.layer_phase.specs.Groups.{IsFlatAround, IsGroup, IsMember};
ghost use Rattle.layer_phase.specs.Keeps.{IsZoneAt};
ghost use Rattle.layer_phase.specs.Looks.{AreReadLooks};
ghost use Rattle.layer_phase.specs.Names.{AreLocals};
ghost use Rattle.layer_phase.specs.Work.{IsWork};

use crate::flats::name_flats;
use crate::groups::Group;
use crate::grown::around;
use crate::looks::looks;
use crate::own::own_copy;
use crate::parts::{kept_among, without};
use crate::squares::Squares;
use crate::work::{CellWork, View};
use cell_graph::Design;
use deep_tables::ZoneKey;
use geo_base::{LayerKey, Op};
use rect_sets::RectSet;
use rule_text::{LayerForm, LayerRule};
use std::alloc::{AllocError, Global};

// Of an input layer a cell holds its own squares.
fn own_layer(
    alloc: Global,
    design: &Design,
    cell: u32,
    key: LayerKey,
) -> Result<RectSet, AllocError>
    requires { cell < length design.now.cells }
    ensures { IfOk result (IsLocalLayer (plain design.now) (Input key) cell) }
{
    design.sound();
    let _sound = design.own(cell, key).rects();
    let set = own_copy(alloc, design, cell, key)?;
    let _canonical = set.rects();
    Ok(set)
}

// The flat squares among those that are looked at: where a name reaches further than its squares,
// others were found beside them.
fn seen(alloc: Global, flat: Squares<'_>, looks: &RectSet, far: u32) -> Result<RectSet, AllocError>
    ensures { IfOk result (λ r. (q : Square)
        → covers r q ≡ (covers flat.entry q && ((far == 0) || covers looks.now q))) }
{
    if far == 0 {
        return flat.into_set(alloc);
    }
    flat.set().combined(alloc, looks, Op::And)
}

// Squares that aren't near those that the cell leaves.
fn undisturbed(
    alloc: Global,
    squares: RectSet,
    zone: &RectSet,
    far: u32,
) -> Result<RectSet, AllocError>
    requires far { far ≤ 10000 }
    requires zone { IsSetWithin (2 ^ 39) zone.now }
    ensures { IfOk result (λ r. (q : Square)
        → covers r q ≡ (covers squares q && not (covers (around far zone.now) q))) }
{
    let stirred = around(alloc, zone, far)?;
    without(alloc, squares, stirred.set())
}

// Of a derived name it holds flat squares near which it leaves nothing and that no placed cell
// keeps.
fn derived_layer(
    alloc: Global,
    work: &CellWork,
    name: u32,
    looks: &RectSet,
    flat: Squares<'_>,
    far: u32,
) -> Result<RectSet, AllocError>
    requires work { IsWork work.now }
    requires far { far ≤ 10000 }
    requires zone { (v : List Rectangle) → IsZoneAt work.now.zones.now work.now.cell name v
        → IsSetWithin (2 ^ 39) v }
    requires looks { AreReadLooks far work.now.design.now work.now.zones.now
        work.now.rules.now.names.items name work.now.cell looks.now }
    requires member { IsMember work.now.rules.now.names.items far name }
    requires flat { (x : Formula) → IsDerived x → reach x ≡ far
        → slice_get (formulas work.now.rules.now.names.items) name ≡ Some x
        → IsFlatAround far work.now.design.now work.now.cell looks.now x flat }
    ensures { IfOk result (λ r. (x : Formula) → IsDerived x → reach x ≡ far
        → slice_get (formulas work.now.rules.now.names.items) name ≡ Some x
        → IsLocalLayer (plain work.now.design.now) x work.now.cell r) }
{
    work.design.sound();
    let zone = work.zones.left(work.cell, ZoneKey::Layer(name));
    let squares = seen(alloc, flat, looks, far)?;
    let still = undisturbed(alloc, squares, zone, far)?;
    let kept = kept_among(alloc, work, name, &still, looks, far)?;
    let local = without(alloc, still, &kept)?;
    let _canonical = local.rects();
    Ok(local)
}

// What a cell holds itself of a name that isn't derived; of a derived one nothing yet.
fn plain_layer(
    alloc: Global,
    design: &Design,
    cell: u32,
    form: LayerForm,
) -> Result<RectSet, AllocError>
    requires { cell < length design.now.cells }
    ensures { IfOk result (λ r. (trees : List Formula) → (IsDerived (formula_by trees form) → ⊥)
        → IsLocalLayer (plain design.now) (formula_by trees form) cell r) }
{
    match form {
        LayerForm::Input(key) => own_layer(alloc, design, cell, key),
        LayerForm::Labels(_) => Ok(RectSet::empty(alloc)),
        LayerForm::Empty => Ok(RectSet::empty(alloc)),
        LayerForm::Binary(_, _, _) => Ok(RectSet::empty(alloc)),
        LayerForm::Sized(_, _) => Ok(RectSet::empty(alloc)),
    }
}

// The same for each name.
fn plain_layers(
    alloc: Global,
    design: &Design,
    cell: u32,
    names: &[LayerRule],
) -> Result<Vec<RectSet>, AllocError>
    requires { cell < length design.now.cells }
    ensures count { IfOk result (λ v. length v.items ≡ length (formulas names.now)) }
    ensures layers { IfOk result (λ v. ArePlain design.now cell (formulas names.now) v.items) }
{
    let mut layers = Vec::new(alloc);
    for rule in names {
        let layer = plain_layer(alloc, design, cell, rule.form)?;
        layers.push(layer)?;
    }
    Ok(layers)
}

// Puts a layer in its place.
fn put(layers: &mut Vec<RectSet>, name: usize, layer: RectSet)
    requires { name < length layers.old.items }
    ensures { layers.new.items ≡ slice_set layers.old.items name layer }
{
    layers[name] = layer;
}

// Finds what the cell holds itself of a name, where it is one of a group.
fn fill_name(
    alloc: Global,
    work: &CellWork,
    group: &Group,
    name: u32,
    looks: &RectSet,
    flat: Squares<'_>,
    layers: &mut Vec<RectSet>,
) -> Result<(), AllocError>
    requires work { IsWork work.now }
    requires group { IsGroup work.now.rules.now.names.items group.now }
    requires looks { AreReadLooks group.now.reach work.now.design.now work.now.zones.now
        work.now.rules.now.names.items name work.now.cell looks.now }
    requires name { name < length (formulas work.now.rules.now.names.items) }
    requires flat { (x : Formula) → IsDerived x → reach x ≡ group.now.reach
        → slice_get (formulas work.now.rules.now.names.items) name ≡ Some x
        → IsFlatAround group.now.reach work.now.design.now work.now.cell looks.now x flat }
    requires layers { name < length layers.old.items }
    ensures count { OnOk result (length layers.new.items ≡ length layers.old.items) }
    ensures here { OnOk result ((x : Formula) → IsDerived x → reach x ≡ group.now.reach
        → slice_get (formulas work.now.rules.now.names.items) name ≡ Some x
        → IsLocalLayer (plain work.now.design.now) x work.now.cell
        (get_or layers.new.items name [])) }
    ensures none { OnOk result ((IsMember work.now.rules.now.names.items group.now.reach name → ⊥)
        → layers.new.items ≡ layers.old.items) }
    ensures rest { OnOk result ((k : ℕ) → (k ≡ name → ⊥)
        → get_or layers.new.items k [] ≡ get_or layers.old.items k []) }
{
    work.design.sound();
    if !group.members[name as usize] {
        return Ok(());
    }
    let layer = derived_layer(alloc, work, name, looks, flat, group.reach)?;
    put(layers, name as usize, layer);
    Ok(())
}

// The same of all names of a group, over the flat squares of the names as these see them.
fn fill_group(
    alloc: Global,
    work: &CellWork,
    group: &Group,
    looks: &RectSet,
    flats: Vec<Squares<'_>>,
    layers: &mut Vec<RectSet>,
) -> Result<(), AllocError>
    requires work { IsWork work.now }
    requires group { IsGroup work.now.rules.now.names.items group.now }
    requires looks { (k : ℕ) → AreReadLooks group.now.reach work.now.design.now work.now.zones.now
        work.now.rules.now.names.items k work.now.cell looks.now }
    requires flats { AreFlatsAround group.now.reach work.now.design.now work.now.cell looks.now
        (formulas work.now.rules.now.names.items) flats.items }
    requires count { length flats.items ≡ length (formulas work.now.rules.now.names.items) }
    requires layers { length layers.old.items ≡ length (formulas work.now.rules.now.names.items) }
    ensures { OnOk result (Finds group.now.reach work.now.design.now work.now.cell
        (length (formulas work.now.rules.now.names.items))
        (formulas work.now.rules.now.names.items) layers.old.items layers.new.items) }
{
    let mut name: usize = 0;
    for flat in flats {
        fill_name(alloc, work, group, name as u32, looks, flat, layers)?;
        name += 1;
    }
    Ok(())
}

// The same, with the squares that have to be looked at for the group.
fn find_group(
    alloc: Global,
    work: &CellWork,
    group: &Group,
    layers: &mut Vec<RectSet>,
) -> Result<(), AllocError>
    requires work { IsWork work.now }
    requires group { IsGroup work.now.rules.now.names.items group.now }
    requires layers { length layers.old.items ≡ length (formulas work.now.rules.now.names.items) }
    ensures { OnOk result (Finds group.now.reach work.now.design.now work.now.cell
        (length (formulas work.now.rules.now.names.items))
        (formulas work.now.rules.now.names.items) layers.old.items layers.new.items) }
{
    work.design.sound();
    let view = View {
        design: work.design,
        zones: work.zones,
        names: &group.names,
        members: &group.members,
        reach: group.reach,
    };
    let set = looks(alloc, &view, work.cell)?;
    let wide = around(alloc, &set, group.reach)?;
    let there = wide.set();
    let _rects = there.rects();
    let flats = name_flats(alloc, work.design, work.cell, there, &group.names)?;
    fill_group(alloc, work, group, &set, flats, layers)?;
    Ok(())
}

/// The squares that a cell holds itself, for each name in the order of the rules. What placed cells
/// keep is never walked: the work goes with the squares that have to be looked at, once for all
/// derived names of one reach, and with what these read.
pub fn name_layers(
    alloc: Global,
    work: &CellWork,
    groups: &[Group],
) -> Result<Vec<RectSet>, AllocError>
    requires work { IsWork work.now }
    requires groups { AreGroups work.now.rules.now.names.items groups.now }
    ensures count { IfOk result (λ v. length v.items
        ≡ length (formulas work.now.rules.now.names.items)) }
    ensures layers { IfOk result (λ v. AreLocals work.now.design.now work.now.cell
        (formulas work.now.rules.now.names.items) v.items) }
{
    let mut layers = plain_layers(alloc, work.design, work.cell, &work.rules.names)?;
    for group in groups {
        find_group(alloc, work, group, &mut layers)?;
    }
    Ok(layers)
}
