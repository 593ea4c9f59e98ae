//! Where gates of a cell's own may begin: at its own shapes, and at what placed cells leave, or others
//! may make there without them.
ghost use Rattle.std.specs.Prelude.{◌≡◌, ◌<◌, ◌≤◌, ◌^◌, ℕ, true, List, length, slice_get, Some};
ghost use Rattle.std.specs.Prelude.{IfOk, OnOk, option_map};
ghost use Rattle.std.specs.List.{All};
ghost use Rattle.geo_base.specs.Near.{IsNearRect};
ghost use Rattle.geo_base.specs.Rects.{IsRect};
ghost use Rattle.geo_base.specs.declared.layer.LayerKey.{LayerKey};
ghost use Rattle.geo_base.specs.declared.shapes.Rect.{Rect};
ghost use Rattle.geo_base.specs.declared.shapes.Square.{Square};
ghost use Rattle.rect_sets.specs.Near.{IsNearSet};
ghost use Rattle.rect_sets.specs.Rects.{covers};
ghost use Rattle.flat_layout.specs.Gates.{Rule, geometry};
ghost use Rattle.gate_search.specs.SearchLaws.{HoldSeeds};
ghost use Rattle.cell_graph.specs.Linked.{IsFrame, IsHull, IsRectWithin, cell_at, own_of};
ghost use Rattle.cell_graph.specs.Linked.{places_at};
ghost use Rattle.cell_graph.specs.declared.cells.Place.{Place};
ghost use Rattle.cell_context.specs.Arrays.{IsNearArray};
ghost use Rattle.cell_context.specs.Over.{IsPiece};
ghost use Rattle.cell_context.specs.Placed.{Brings, Grows};
ghost use Rattle.rule_text.specs.declared.rules.LayerForm.TheVariants.{Input};
ghost use Rattle.deep_tables.specs.Frames.{grown};
ghost use Rattle.gate_phase.specs.Close.{HasOpen};
ghost use Rattle.gate_phase.specs.Kept.{HoldsNear};
ghost use Rattle.gate_phase.specs.Seeding.{BringsLone, BringsOpen, BringsOwn};
ghost use Rattle.gate_phase.specs.Site.{HasRule, IsReadyDevice, layout_at, wiring_at};

use crate::frame::{grown_hull, plane};
use crate::nearby::within_reach;
use crate::reads::names_read;
use crate::site::DeviceSite;
use cell_context::push_array;
use cell_graph::{Design, Place};
use deep_tables::ZoneKey;
use geo_base::Rect;
use rect_sets::RectSet;
use rule_text::{LayerForm, LayerRule};
use std::alloc::{AllocError, Global};

// Adds the images of the part of a set in the placed cell's grown hull through all elements of an
// array. Where it is empty no element is visited.
fn push_part(
    alloc: Global,
    out: &mut Vec<Rect>,
    place: &Place,
    below: &Rect,
    zone: &RectSet,
    plane: &Rect,
) -> Result<(), AllocError>
    requires near { IsNearArray place.now }
    requires some { 0 < place.now.columns }
    requires below { IsFrame below.now }
    requires plane { IsRectWithin (2 ^ 39) plane.now }
    requires pieces { All (IsPiece plane.now) out.old.items }
    ensures pieces { OnOk result (All (IsPiece plane.now) out.new.items) }
    ensures grows { OnOk result (Grows out.old.items out.new.items) }
    ensures brings { OnOk result (Brings place.now below.now zone.now plane.now out.new.items) }
{
    if zone.rects().is_empty() {
        return Ok(());
    }
    let part = zone.window(alloc, *below)?;
    push_array(alloc, out, place, below, part.rects(), plane)?;
    Ok(())
}

// The same of a set that may be told.
fn push_told(
    alloc: Global,
    out: &mut Vec<Rect>,
    place: &Place,
    below: &Rect,
    set: Option<&RectSet>,
    plane: &Rect,
) -> Result<(), AllocError>
    requires near { IsNearArray place.now }
    requires some { 0 < place.now.columns }
    requires below { IsFrame below.now }
    requires plane { IsRectWithin (2 ^ 39) plane.now }
    requires pieces { All (IsPiece plane.now) out.old.items }
    ensures pieces { OnOk result (All (IsPiece plane.now) out.new.items) }
    ensures grows { OnOk result (Grows out.old.items out.new.items) }
    ensures brings { OnOk result ((s : List Rect) → option_map (λ t. t.now) set.entry ≡ Some s
        → Brings place.now below.now s plane.now out.new.items) }
{
    match set {
        Some(set) => push_part(alloc, out, place, below, set, plane),
        None => Ok(()),
    }
}

// Adds what the cell of a reference leaves for a device rule, and what others may make of its
// regions' layer there, in the cell's hull grown so far, by all its elements.
fn push_reference(
    alloc: Global,
    out: &mut Vec<Rect>,
    at: &DeviceSite,
    index: usize,
    place: &Place,
    plane: &Rect,
    by: u32,
) -> Result<(), AllocError>
    requires by { by ≤ 20001 }
    requires there { slice_get (places_at (cell_at at.now.site.design.now at.now.site.cell)) index
        ≡ Some place.now }
    requires plane { IsRectWithin (2 ^ 39) plane.now }
    requires entry { HasOpen at.now.site.zones.now place.now.cell at.now.number }
    requires pieces { All (IsPiece plane.now) out.old.items }
    ensures pieces { OnOk result (All (IsPiece plane.now) out.new.items) }
    ensures grows { OnOk result (Grows out.old.items out.new.items) }
    ensures brings { OnOk result (BringsOpen by at.now.site.design.now at.now.site.zones.now
        at.now.number place.now plane.now out.new.items) }
    ensures lone { OnOk result (BringsLone by at.now.site.design.now at.now.site.zones.now
        at.now.number place.now plane.now out.new.items) }
{
    let site = &at.site;
    site.design.sound();
    match site.design.hull(place.cell) {
        Some(hull) => {
            let below = grown_hull(&hull, by);
            let zone = site.zones.left(place.cell, ZoneKey::Device(at.number));
            let lone = site.zones.lone(place.cell, at.number);
            push_part(alloc, out, place, &below, zone, plane)?;
            push_told(alloc, out, place, &below, lone, plane)
        }
        None => Ok(()),
    }
}

// The same of all references of a cell.
fn push_references(
    alloc: Global,
    out: &mut Vec<Rect>,
    at: &DeviceSite,
    plane: &Rect,
    by: u32,
) -> Result<(), AllocError>
    requires ready { IsReadyDevice at.now }
    requires by { by ≤ 20001 }
    requires plane { IsRectWithin (2 ^ 39) plane.now }
    requires pieces { All (IsPiece plane.now) out.old.items }
    ensures pieces { OnOk result (All (IsPiece plane.now) out.new.items) }
    ensures brings { OnOk result ((i : ℕ) (p : Place)
        → slice_get (places_at (cell_at at.now.site.design.now at.now.site.cell)) i ≡ Some p
        → BringsOpen by at.now.site.design.now at.now.site.zones.now at.now.number p plane.now
        out.new.items × BringsLone by at.now.site.design.now at.now.site.zones.now at.now.number p
        plane.now out.new.items) }
{
    let site = &at.site;
    site.design.sound();
    for (i, place) in site.design.places(site.cell).iter().enumerate() {
        push_reference(alloc, out, at, i, place, plane, by)?;
    }
    Ok(())
}

// Adds a cell's own squares on a name, where it is an input layer that is read.
fn push_own(
    out: &mut Vec<Rect>,
    design: &Design,
    cell: u32,
    form: LayerForm,
    is_read: bool,
    plane: &Rect,
) -> Result<(), AllocError>
    requires cell { cell < length design.now.cells }
    requires plane { HoldsNear plane.now }
    requires pieces { All (IsPiece plane.now) out.old.items }
    ensures pieces { OnOk result (All (IsPiece plane.now) out.new.items) }
    ensures grows { OnOk result (Grows out.old.items out.new.items) }
    ensures brings { OnOk result ((key : LayerKey) → is_read ≡ true → form ≡ Input key
        → Grows (own_of (cell_at design.now cell) key) out.new.items) }
{
    if !is_read {
        return Ok(());
    }
    design.sound();
    match form {
        LayerForm::Input(key) => out.extend_from_slice(design.own(cell, key).rects()),
        _ => Ok(()),
    }
}

// The same of all names.
fn push_all_own(
    out: &mut Vec<Rect>,
    design: &Design,
    cell: u32,
    names: &[LayerRule],
    marks: &[bool],
    plane: &Rect,
) -> Result<(), AllocError>
    requires cell { cell < length design.now.cells }
    requires plane { HoldsNear plane.now }
    requires marks { length marks.now ≡ length names.now }
    requires pieces { All (IsPiece plane.now) out.old.items }
    ensures pieces { OnOk result (All (IsPiece plane.now) out.new.items) }
    ensures grows { OnOk result (Grows out.old.items out.new.items) }
    ensures brings { OnOk result (BringsOwn design.now cell names.now marks.now (length names.now)
        out.new.items) }
{
    for (i, rule) in names.iter().enumerate() {
        push_own(out, design, cell, rule.form, marks[i], plane)?;
    }
    Ok(())
}

/// Squares of a cell around which all its own gates for a device rule lie: each gate that isn't a
/// placed cell's touches one of them. They are all squares within the rule's reach of its seeds. A
/// cell costs its own rectangles on the layers that the rule reads and, for each reference, what the
/// placed cell leaves and what others may make there, once for each element; a reference to a cell
/// that leaves nothing costs one look.
pub fn seeds_of(alloc: Global, at: &DeviceSite) -> Result<RectSet, AllocError>
    requires ready { IsReadyDevice at.now }
    ensures near { IfOk result IsNearSet }
    ensures all { IfOk result (λ s. (u : Rule) → HasRule at.now u
        → HoldSeeds (layout_at at.now.site) (geometry (wiring_at at.now.site) u) at.now.site.cell s) }
{
    let site = &at.site;
    site.design.sound();
    let names = site.rules.names.as_slice();
    let marks = names_read(alloc, names, &at.device)?;
    let plane = plane();
    let mut out = Vec::new(alloc);
    let by = at.reach + 1 + at.reach;
    push_references(alloc, &mut out, at, &plane, by)?;
    push_all_own(&mut out, site.design, site.cell, names, &marks, &plane)?;
    let set = RectSet::canon(alloc, out)?;
    let starts = within_reach(alloc, set, at.reach)?;
    Ok(starts)
}
