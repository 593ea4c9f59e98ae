//! The squares of placed cells that have to be looked at, found once for each cell: those that it
//! leaves for an input layer and that are flat on one. Everywhere else the placed cell keeps what
//! lies there, or nothing lies there.
ghost use Rattle.std.specs.Prelude.{◌≡◌, ◌<◌, ◌≤◌, ◌^◌, [], ◌++◌, ◌∷◌, List, Some, length};
ghost use Rattle.std.specs.Prelude.{slice_get, true, IfOk, IfSome, OnOk};
ghost use Rattle.std.specs.List.{All};
ghost use Rattle.geo_base.specs.Near.{IsNearRect};
ghost use Rattle.geo_base.specs.Rects.{IsRect, has};
ghost use Rattle.geo_base.specs.declared.layer.LayerKey.{LayerKey};
ghost use Rattle.geo_base.specs.declared.shapes.Rect.{Rect as Rectangle};
ghost use Rattle.geo_base.specs.declared.shapes.Square.{Square};
ghost use Rattle.rect_sets.specs.Rects.{covers};
ghost use Rattle.flat_layout.specs.Layout.{InFlatInput};
ghost use Rattle.cell_graph.specs.Linked.{IsFrame, cell_at, hull_of, plain};
ghost use Rattle.rule_text.specs.declared.rules.LayerForm.TheVariants.{Input};
ghost use Rattle.sized_layers.specs.Sizes.{IsSetWithin};
ghost use Rattle.layer_phase.specs.Around.{around};
ghost use Rattle.layer_phase.specs.Keeps.{HasEntry, IsZoneAt};
ghost use Rattle.layer_phase.specs.declared.exposed.Exposed.{Exposed as ExposedSet};
ghost use Rattle.layer_phase.specs.Work.{IsView};
ghost use Rattle.layer_phase.specs.Looks.{AreExposed, AreExposedLists, AreNear, HasAll};
ghost use Rattle.cell_context.specs.Placed.{Grows};
ghost use Rattle.layer_phase.specs.Looks.{HaveDisturbed, HaveFlat, HoldDisturbed, IsListAt};

use crate::grown::{sized, twice_around, twice_grown};
use crate::squares::fewer;
use crate::work::View;
use cell_context::{collect_in, grown};
use cell_graph::Design;
use deep_tables::{ZoneKey, Zones};
use geo_base::{Op, Rect};
use rect_sets::RectSet;
use rule_text::{LayerForm, LayerRule};
use std::alloc::{AllocError, Global};
use std::collections::HashMap;

/// The exposed squares of a cell.
#[derive(Drop)]
pub struct Exposed {
    pub cell: u32,
    pub set: RectSet,
}

/// Such sets as they are found, and the position of each by its cell.
pub struct ExposedLists {
    pub lists: Vec<Exposed>,
    pub positions: HashMap<u32, usize>,
}

// Written out, so that its owners drop it by one call.
impl Drop for ExposedLists {
    fn drop(self) {
        let ExposedLists {
            lists: _,
            positions: _,
        } = self;
    }
}

impl ExposedLists {
    // No set.
    pub fn new(alloc: Global) -> ExposedLists
        ensures { result.lists.items ≡ [] }
    {
        ExposedLists {
            lists: Vec::new(alloc),
            positions: HashMap::new(alloc),
        }
    }
}

// Adds the squares that a cell leaves for a name, where it is an input layer.
fn push_disturbed(
    out: &mut Vec<Rect>,
    zones: &Zones,
    cell: u32,
    name: u32,
    form: LayerForm,
) -> Result<(), AllocError>
    requires entry { HasEntry zones.now cell name }
    requires rects { All IsRect out.old.items }
    ensures rects { OnOk result (All IsRect out.new.items) }
    ensures grows { OnOk result (Grows out.old.items out.new.items) }
    ensures zone { OnOk result ((key : LayerKey) → form ≡ Input key
        → (zone : List Rectangle) → IsZoneAt zones.now cell name zone → Grows zone out.new.items) }
{
    match form {
        LayerForm::Input(_) => {
            let zone = zones.left(cell, ZoneKey::Layer(name));
            out.extend_from_slice(zone.rects())
        }
        _ => Ok(()),
    }
}

// The same of all names.
fn push_all_disturbed(
    out: &mut Vec<Rect>,
    zones: &Zones,
    cell: u32,
    names: &[LayerRule],
) -> Result<(), AllocError>
    requires few { length names.now < 2 ^ 32 }
    requires entries { HasAll zones.now cell (length names.now) }
    requires rects { All IsRect out.old.items }
    ensures rects { OnOk result (All IsRect out.new.items) }
    ensures zones { OnOk result (HaveDisturbed zones.now names.now (length names.now) cell
        out.new.items) }
{
    for (name, rule) in names.iter().enumerate() {
        push_disturbed(out, zones, cell, name as u32, rule.form)?;
    }
    Ok(())
}

// The squares in a window that a cell leaves for one of the input layers.
fn disturbed_in(
    alloc: Global,
    zones: &Zones,
    cell: u32,
    names: &[LayerRule],
    window: &Rect,
) -> Result<RectSet, AllocError>
    requires few { length names.now < 2 ^ 32 }
    requires entries { HasAll zones.now cell (length names.now) }
    requires window { IsFrame window.now }
    ensures within { IfOk result (IsSetWithin (2 ^ 37)) }
    ensures zones { IfOk result (HoldDisturbed zones.now names.now cell window.now) }
{
    let mut out = Vec::new(alloc);
    push_all_disturbed(&mut out, zones, cell, names)?;
    let all = RectSet::canon(alloc, out)?;
    let part = all.window(alloc, *window)?;
    Ok(part)
}

// Adds those of some squares that are flat on a name, where it is an input layer.
fn push_flat(
    alloc: Global,
    out: &mut Vec<Rect>,
    design: &Design,
    cell: u32,
    form: LayerForm,
    places: &RectSet,
) -> Result<(), AllocError>
    requires cell { cell < length design.now.cells }
    requires near { AreNear places.now }
    requires rects { All IsRect out.old.items }
    requires held { Grows out.old.items places.now }
    ensures rects { OnOk result (All IsRect out.new.items) }
    ensures held { OnOk result (Grows out.new.items places.now) }
    ensures grows { OnOk result (Grows out.old.items out.new.items) }
    ensures flat { OnOk result ((key : LayerKey) → form ≡ Input key
        → (s : Square) → covers places.now s ≡ true → InFlatInput (plain design.now) cell key s
        → covers out.new.items s ≡ true) }
{
    match form {
        LayerForm::Input(key) => {
            let set = collect_in(alloc, design, cell, key, places)?;
            out.extend_from_slice(set.rects())
        }
        _ => Ok(()),
    }
}

// The same of all names.
fn push_all_flat(
    alloc: Global,
    out: &mut Vec<Rect>,
    design: &Design,
    cell: u32,
    names: &[LayerRule],
    places: &RectSet,
) -> Result<(), AllocError>
    requires cell { cell < length design.now.cells }
    requires near { AreNear places.now }
    requires rects { All IsRect out.old.items }
    requires held { Grows out.old.items places.now }
    ensures rects { OnOk result (All IsRect out.new.items) }
    ensures held { OnOk result (Grows out.new.items places.now) }
    ensures flat { OnOk result (HaveFlat design.now names.now (length names.now) cell places.now
        out.new.items) }
{
    for rule in names {
        push_flat(alloc, out, design, cell, rule.form, places)?;
    }
    Ok(())
}

// Squares of a window, among them all that lie within so many squares of both sets: these, or all
// so near the first set, whatever takes fewer rectangles. Where the number is 0, the second lies in
// the first.
fn near_both(
    alloc: Global,
    places: &RectSet,
    flat: &RectSet,
    window: &Rect,
    most: u32,
) -> Result<RectSet, AllocError>
    requires places { IsSetWithin (2 ^ 39) places.now }
    requires flat { IsSetWithin (2 ^ 39) flat.now }
    requires window { IsFrame window.now }
    requires most { most ≤ 10000 }
    ensures near { IfOk result (All IsNearRect) }
    ensures both { IfOk result (λ r. (q : Square) → covers (around most places.now) q ≡ true
        → covers (around most flat.now) q ≡ true → has window.now q ≡ true
        → covers r q ≡ true) }
{
    if most == 0 {
        let chosen = fewer(flat, places);
        let part = chosen.window(alloc, *window)?;
        let _near = part.rects();
        return Ok(part);
    }
    let stirred = sized(alloc, places, most)?;
    let wide = sized(alloc, flat, most)?;
    let set = stirred.combined(alloc, &wide, Op::And)?;
    let chosen = fewer(&set, &stirred);
    let part = chosen.window(alloc, *window)?;
    let _near = part.rects();
    Ok(part)
}

// The exposed squares of a cell that has a hull.
fn hull_exposed(alloc: Global, view: &View, cell: u32, hull: &Rect) -> Result<RectSet, AllocError>
    requires cell { cell < length view.now.design.now.cells }
    requires hull { hull_of (cell_at view.now.design.now cell) ≡ Some hull.now }
    requires view { IsView view.now }
    requires entries { HasAll view.now.zones.now cell (length view.now.names.now) }
    ensures near { IfOk result (All IsNearRect) }
    ensures exposed { IfOk result (AreExposed view.now.reach view.now.design.now view.now.zones.now
        view.now.names.now cell) }
{
    let design = view.design;
    design.sound();
    let wide = twice_grown(hull, view.reach);
    let places = disturbed_in(alloc, view.zones, cell, view.names, &wide)?;
    let near = twice_around(alloc, &places, view.reach)?;
    let there = near.set();
    let _near_rects = there.rects();
    let mut out = Vec::new(alloc);
    push_all_flat(alloc, &mut out, design, cell, view.names, there)?;
    let flat = RectSet::canon(alloc, out)?;
    let window = grown(hull, view.reach);
    let set = near_both(alloc, &places, &flat, &window, view.reach)?;
    Ok(set)
}

// The exposed squares of a cell: a walk in what it leaves for each input layer.
fn find_exposed(alloc: Global, view: &View, cell: u32) -> Result<RectSet, AllocError>
    requires cell { cell < length view.now.design.now.cells }
    requires view { IsView view.now }
    requires entries { HasAll view.now.zones.now cell (length view.now.names.now) }
    ensures near { IfOk result (All IsNearRect) }
    ensures exposed { IfOk result (AreExposed view.now.reach view.now.design.now view.now.zones.now
        view.now.names.now cell) }
{
    let design = view.design;
    design.sound();
    match design.hull(cell) {
        Some(hull) => hull_exposed(alloc, view, cell, &hull),
        None => Ok(RectSet::empty(alloc)),
    }
}

// Whether the set at a position is of the cell.
fn is_of(lists: &[Exposed], position: usize, cell: u32) -> bool
    ensures { result ≡ true → IsListAt lists.now cell position }
{
    match lists.get(position) {
        None => false,
        Some(exposed) => exposed.cell == cell,
    }
}

// The position of a cell's set, where there is one.
fn known(memo: &ExposedLists, cell: u32) -> Option<usize>
    ensures { IfSome result (IsListAt memo.now.lists.items cell) }
{
    match memo.positions.get(&cell) {
        None => None,
        Some(position) => {
            if is_of(&memo.lists, *position, cell) {
                return Some(*position);
            }
            None
        }
    }
}

// Puts a set behind the others.
fn keep(memo: &mut ExposedLists, exposed: Exposed) -> Result<usize, AllocError>
    ensures lists { OnOk result (memo.new.lists.items ≡ memo.old.lists.items ++ exposed ∷ []) }
    ensures at { IfOk result (λ p. p ≡ length memo.old.lists.items) }
{
    let position = memo.lists.len();
    memo.positions.insert(exposed.cell, position)?;
    memo.lists.push(exposed)?;
    Ok(position)
}

/// The set at a position.
pub fn set_at(lists: &[Exposed], position: usize) -> &RectSet
    requires { position < length lists.now }
    ensures { (e : ExposedSet) → slice_get lists.now position ≡ Some e → result.now ≡ e.set }
{
    &lists[position].set
}

/// The position of a cell's exposed squares. Where they aren't known yet, they are found.
pub fn expose(
    alloc: Global,
    view: &View,
    cell: u32,
    memo: &mut ExposedLists,
) -> Result<usize, AllocError>
    requires cell { cell < length view.now.design.now.cells }
    requires view { IsView view.now }
    requires entries { HasAll view.now.zones.now cell (length view.now.names.now) }
    requires lists { AreExposedLists view.now.reach view.now.design.now view.now.zones.now
        view.now.names.now memo.old.lists.items }
    ensures lists { OnOk result (AreExposedLists view.now.reach view.now.design.now
        view.now.zones.now view.now.names.now memo.new.lists.items) }
    ensures at { IfOk result (IsListAt memo.new.lists.items cell) }
{
    match known(memo, cell) {
        Some(position) => Ok(position),
        None => {
            let set = find_exposed(alloc, view, cell)?;
            let last = keep(memo, Exposed { cell, set })?;
            Ok(last)
        }
    }
}
