//! The squares of a cell that have to be looked at: its own shapes, and what is exposed in the
//! cells that it places. Everywhere else a placed cell keeps what lies there.
ghost use Rattle.std.specs.Prelude.{◌≡◌, ◌<◌, [], ℕ, length, Some};
ghost use Rattle.std.specs.Prelude.{slice_get, IfOk, OnOk};
ghost use Rattle.std.specs.List.{All};
ghost use Rattle.geo_base.specs.Near.{IsNearRect};
ghost use Rattle.geo_base.specs.Rects.{IsRect, has};
ghost use Rattle.geo_base.specs.declared.layer.LayerKey.{LayerKey};
ghost use Rattle.cell_context.specs.Arrays.{IsNearArray};
ghost use Rattle.cell_context.specs.Over.{IsPiece};
ghost use Rattle.cell_context.specs.Placed.{Brings, Grows};
ghost use Rattle.cell_graph.specs.Linked.{IsFrame, cell_at, hull_of, own_of, places_at};
ghost use Rattle.cell_graph.specs.declared.cells.Place.{Place};
ghost use Rattle.rule_text.specs.declared.rules.LayerForm.TheVariants.{Input};
ghost use Rattle.layer_phase.specs.Looks.{AreExposedLists, AreHeld, AreLooks};
ghost use Rattle.layer_phase.specs.Looks.{BringsExposed, BringsOwn, HasAll, HaveAll};
ghost use Rattle.layer_phase.specs.Looks.{HaveMarked, HoldsOwn};
ghost use Rattle.layer_phase.specs.Work.{IsReference, IsView};

use crate::exposed::{ExposedLists, expose, set_at};
use crate::grown::sized;
use crate::squares::whole;
use crate::stirred::{outside, stirred_of};
use crate::work::View;
use cell_context::{grown, push_array};
use cell_graph::{Design, Place};
use geo_base::Rect;
use rect_sets::RectSet;
use rule_text::{LayerForm, LayerRule};
use std::alloc::{AllocError, Global};

// Adds the images of a set of the placed cell through all elements of an array, in the window.
fn push_set(
    alloc: Global,
    out: &mut Vec<Rect>,
    place: &Place,
    below: &Rect,
    set: &RectSet,
    window: &Rect,
) -> Result<(), AllocError>
    requires near { IsNearArray place.now }
    requires some { 0 < place.now.columns }
    requires below { IsFrame below.now }
    requires window { IsFrame window.now }
    requires near_rects { All IsNearRect set.now }
    requires pieces { All (IsPiece window.now) out.old.items }
    ensures pieces { OnOk result (All (IsPiece window.now) out.new.items) }
    ensures grows { OnOk result (Grows out.old.items out.new.items) }
    ensures brings { OnOk result (Brings place.now below.now set.now window.now out.new.items) }
{
    push_array(alloc, out, place, below, set.rects(), window)
}

// The same of the placed cell's exposed squares, where it has a hull.
fn push_reference(
    alloc: Global,
    out: &mut Vec<Rect>,
    view: &View,
    place: &Place,
    window: &Rect,
    memo: &mut ExposedLists,
) -> Result<(), AllocError>
    requires there { IsReference view.now.design.now place.now }
    requires view { IsView view.now }
    requires window { IsFrame window.now }
    requires entries { HasAll view.now.zones.now place.now.cell (length view.now.names.now) }
    requires lists { AreExposedLists view.now.reach view.now.design.now view.now.zones.now
        view.now.names.now memo.old.lists.items }
    requires pieces { All (IsPiece window.now) out.old.items }
    ensures lists { OnOk result (AreExposedLists view.now.reach view.now.design.now
        view.now.zones.now view.now.names.now memo.new.lists.items) }
    ensures pieces { OnOk result (All (IsPiece window.now) out.new.items) }
    ensures grows { OnOk result (Grows out.old.items out.new.items) }
    ensures brings { OnOk result (BringsExposed view.now.reach view.now.design.now
        view.now.zones.now view.now.names.now place.now window.now out.new.items) }
{
    let design = view.design;
    design.sound();
    match design.hull(place.cell) {
        Some(below) => {
            let position = expose(alloc, view, place.cell, memo)?;
            let set = set_at(&memo.lists, position);
            let wide = grown(&below, view.reach);
            push_set(alloc, out, place, &wide, set, window)?;
            Ok(())
        }
        None => Ok(()),
    }
}

// The same of all references of a cell.
fn push_references(
    alloc: Global,
    out: &mut Vec<Rect>,
    view: &View,
    cell: u32,
    window: &Rect,
) -> Result<(), AllocError>
    requires cell { cell < length view.now.design.now.cells }
    requires view { IsView view.now }
    requires window { IsFrame window.now }
    requires entries { HaveAll view.now.design.now view.now.zones.now cell (length
        view.now.names.now) }
    requires pieces { All (IsPiece window.now) out.old.items }
    ensures pieces { OnOk result (All (IsPiece window.now) out.new.items) }
    ensures brings { OnOk result ((i : ℕ) (p : Place) → slice_get (places_at (cell_at
        view.now.design.now cell)) i ≡ Some p → BringsExposed view.now.reach view.now.design.now
        view.now.zones.now view.now.names.now p window.now out.new.items) }
{
    let mut memo = ExposedLists::new(alloc);
    for place in view.design.places(cell) {
        push_reference(alloc, out, view, place, window, &mut memo)?;
    }
    Ok(())
}

// Adds a cell's own squares on a name, where it is an input layer.
fn push_own(
    out: &mut Vec<Rect>,
    design: &Design,
    cell: u32,
    form: LayerForm,
) -> Result<(), AllocError>
    requires cell { cell < length design.now.cells }
    requires rects { All IsRect out.old.items }
    ensures rects { OnOk result (All IsRect out.new.items) }
    ensures held { (n : ℕ) → AreHeld n (hull_of (cell_at design.now cell)) out.old.items
        → OnOk result (AreHeld n (hull_of (cell_at design.now cell)) out.new.items) }
    ensures grows { OnOk result (Grows out.old.items out.new.items) }
    ensures brings { OnOk result ((key : LayerKey) → form ≡ Input key
        → Grows (own_of (cell_at design.now cell) key) out.new.items) }
{
    design.sound();
    match form {
        LayerForm::Input(key) => out.extend_from_slice(design.own(cell, key).rects()),
        _ => Ok(()),
    }
}

// The same of all names.
fn push_all_own(
    out: &mut Vec<Rect>,
    design: &Design,
    cell: u32,
    names: &[LayerRule],
) -> Result<(), AllocError>
    requires cell { cell < length design.now.cells }
    requires rects { All IsRect out.old.items }
    ensures rects { OnOk result (All IsRect out.new.items) }
    ensures held { (n : ℕ) → AreHeld n (hull_of (cell_at design.now cell)) out.old.items
        → OnOk result (AreHeld n (hull_of (cell_at design.now cell)) out.new.items) }
    ensures grows { OnOk result (Grows out.old.items out.new.items) }
    ensures brings { OnOk result (BringsOwn design.now cell names.now (length names.now)
        out.new.items) }
{
    for rule in names {
        push_own(out, design, cell, rule.form)?;
    }
    Ok(())
}

// Adds the squares within so many squares of the cell's own on input layers.
fn push_near_own(
    alloc: Global,
    out: &mut Vec<Rect>,
    view: &View,
    cell: u32,
) -> Result<(), AllocError>
    requires cell { cell < length view.now.design.now.cells }
    requires view { IsView view.now }
    requires rects { All IsRect out.old.items }
    requires held { AreHeld view.now.reach (hull_of (cell_at view.now.design.now cell))
        out.old.items }
    ensures rects { OnOk result (All IsRect out.new.items) }
    ensures held { OnOk result (AreHeld view.now.reach (hull_of (cell_at view.now.design.now cell))
        out.new.items) }
    ensures grows { OnOk result (Grows out.old.items out.new.items) }
    ensures brings { OnOk result (HoldsOwn view.now.reach view.now.design.now view.now.names.now
        cell out.new.items) }
{
    let design = view.design;
    design.sound();
    if view.reach == 0 {
        push_all_own(out, design, cell, view.names)?;
        return Ok(());
    }
    let mut own = Vec::new(alloc);
    push_all_own(&mut own, design, cell, view.names)?;
    let set = RectSet::canon(alloc, own)?;
    let _rects = set.rects();
    let wide = sized(alloc, &set, view.reach)?;
    let rects = wide.rects();
    out.extend_from_slice(rects)?;
    Ok(())
}

// The squares to be looked at of a cell that has a hull.
fn looks_in(alloc: Global, view: &View, cell: u32, hull: &Rect) -> Result<RectSet, AllocError>
    requires cell { cell < length view.now.design.now.cells }
    requires hull { hull_of (cell_at view.now.design.now cell) ≡ Some hull.now }
    requires view { IsView view.now }
    requires entries { HaveAll view.now.design.now view.now.zones.now cell (length
        view.now.names.now) }
    requires marked { HaveMarked view.now.zones.now cell view.now.members.now }
    ensures { IfOk result (AreLooks view.now.reach view.now.design.now view.now.zones.now
        view.now.names.now view.now.members.now cell) }
{
    view.design.sound();
    let mut found = Vec::new(alloc);
    let window = grown(hull, view.reach);
    push_references(alloc, &mut found, view, cell, &window)?;
    let all = whole(alloc, &window)?;
    let stirred = stirred_of(alloc, view, cell, all)?;
    let mut out = outside(alloc, found, &stirred)?;
    push_near_own(alloc, &mut out, view, cell)?;
    let set = RectSet::canon(alloc, out)?;
    Ok(set)
}

// The squares to be looked at of a cell that places no other: its whole hull, by one look.
fn leaf_looks(alloc: Global, view: &View, cell: u32, hull: &Rect) -> Result<RectSet, AllocError>
    requires hull { hull_of (cell_at view.now.design.now cell) ≡ Some hull.now }
    requires view { IsView view.now }
    requires leaf { places_at (cell_at view.now.design.now cell) ≡ [] }
    ensures { IfOk result (AreLooks view.now.reach view.now.design.now view.now.zones.now
        view.now.names.now view.now.members.now cell) }
{
    view.design.sound();
    let _ = cell;
    let wide = grown(hull, view.reach);
    let set = whole(alloc, &wide)?;
    Ok(set)
}

// The same of a cell that has a hull.
fn hull_looks(alloc: Global, view: &View, cell: u32, hull: &Rect) -> Result<RectSet, AllocError>
    requires cell { cell < length view.now.design.now.cells }
    requires hull { hull_of (cell_at view.now.design.now cell) ≡ Some hull.now }
    requires view { IsView view.now }
    requires entries { HaveAll view.now.design.now view.now.zones.now cell (length
        view.now.names.now) }
    requires marked { HaveMarked view.now.zones.now cell view.now.members.now }
    ensures { IfOk result (AreLooks view.now.reach view.now.design.now view.now.zones.now
        view.now.names.now view.now.members.now cell) }
{
    match view.design.places(cell) {
        [] => leaf_looks(alloc, view, cell, hull),
        _ => looks_in(alloc, view, cell, hull),
    }
}

/// The squares of a cell that have to be looked at. An array costs one look; beside that a placed
/// cell costs a walk in what it leaves, once for all its placements, and each element the
/// rectangles of what is exposed in it. What the cell itself leaves for all members of the group
/// isn't looked at, but where own shapes lie.
pub fn looks(alloc: Global, view: &View, cell: u32) -> Result<RectSet, AllocError>
    requires cell { cell < length view.now.design.now.cells }
    requires view { IsView view.now }
    requires entries { HaveAll view.now.design.now view.now.zones.now cell (length
        view.now.names.now) }
    requires marked { HaveMarked view.now.zones.now cell view.now.members.now }
    ensures { IfOk result (AreLooks view.now.reach view.now.design.now view.now.zones.now
        view.now.names.now view.now.members.now cell) }
{
    let design = view.design;
    design.sound();
    match design.hull(cell) {
        Some(hull) => hull_looks(alloc, view, cell, &hull),
        None => Ok(RectSet::empty(alloc)),
    }
}
