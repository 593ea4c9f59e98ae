//! Parts of the candidates, sorted: whole regions that are chosen, and parts that go up.

ghost use Rattle.std.specs.Prelude.{◌≡◌, ◌↔◌, ◌^◌, true, List, IfOk, OnOk};
ghost use Rattle.std.specs.List.{All};
ghost use Rattle.geo_base.specs.declared.shapes.Rect.{Rect as Rectangle};
ghost use Rattle.geo_base.specs.declared.shapes.Square.{Square};
ghost use Rattle.flat_layout.specs.Parts.{IsCloseTo};
ghost use Rattle.cell_graph.specs.Linked.{IsRectWithin};
ghost use Rattle.gate_phase.specs.Own.{IsHeldPart};
ghost use Rattle.gate_phase.specs.Site.{layout_at};
ghost use Rattle.gate_shapes.specs.Sets.{in_set};
ghost use Rattle.rule_stages.specs.Selections.{ask_of};
ghost use Rattle.select_laws.specs.Selects.{Has, OnSide, sight};
ghost use Rattle.select_phase.specs.Beside.{IsBeside};
ghost use Rattle.rule_stages.specs.Selections.{side_of};
ghost use Rattle.select_phase.specs.Selections.{IsReadySelection, meant_at};
ghost use Rattle.select_phase.specs.Sorted.{HaveRects, IsCalmPart, IsPartAt, SortsPart};

use deep_tables::ZoneKey;
use gate_phase::{Site, close_to, kept_in, misses};
use geo_base::Rect;
use rect_sets::RectSet;
use region_asks::has;
use rule_text::{Ask, SelectRule};
use std::alloc::{AllocError, Global};

/// The rectangles of the chosen regions, and of the parts that go up.
#[derive(Drop)]
pub struct Sorted {
    pub chosen: Vec<Rect>,
    pub rest: Vec<Rect>,
}

// What the cell keeps of the other name close to a region. An area is asked of the region alone.
fn beside(
    alloc: Global,
    site: &Site,
    selection: &SelectRule,
    close: &RectSet,
) -> Result<RectSet, AllocError>
    requires ready { IsReadySelection site.now selection.now }
    requires windows { All (IsRectWithin (2 ^ 39)) close.now }
    ensures { IfOk result (IsBeside (layout_at site.now) (meant_at site.now selection.now)
        site.now.cell close.now) }
{
    if let Ask::WithArea { .. } = selection.ask {
        return Ok(RectSet::empty(alloc));
    }
    site.design.sound();
    let windows = close.rects();
    let layers = site.layers;
    let kept = kept_in(
        alloc,
        site.design,
        layers,
        site.cell,
        selection.other,
        windows,
    )?;
    Ok(kept)
}

// Whether a region of the cell's own is chosen.
fn is_chosen(
    alloc: Global,
    site: &Site,
    selection: &SelectRule,
    part: &RectSet,
    close: &RectSet,
) -> Result<bool, AllocError>
    requires ready { IsReadySelection site.now selection.now }
    requires windows { All (IsRectWithin (2 ^ 39)) close.now }
    requires close { (q : Square) → in_set close.now q ↔ IsCloseTo (in_set part.now) q }
    ensures { IfOk result (λ told. (near : List Rectangle) × IsBeside (layout_at site.now)
        (meant_at site.now selection.now) site.now.cell close.now near × ((told ≡ true)
        ↔ OnSide (side_of selection.now.others) (Has (ask_of selection.now.ask) (in_set part.now)
        (in_set near)))) }
{
    let other = beside(alloc, site, selection, close)?;
    let told = has(alloc, selection.ask, part, close, &other)?;
    Ok(told != selection.others)
}

// Whether nothing is disturbed close to a part.
fn is_calm(
    alloc: Global,
    site: &Site,
    selection: &SelectRule,
    part: &RectSet,
    close: &RectSet,
) -> Result<bool, AllocError>
    requires ready { IsReadySelection site.now selection.now }
    requires held { IsHeldPart (sight (meant_at site.now selection.now)).reach
        site.now.design.now site.now.cell part.now }
    requires windows { All (IsRectWithin (2 ^ 39)) close.now }
    requires close { (q : Square) → in_set close.now q ↔ IsCloseTo (in_set part.now) q }
    ensures { IfOk result (λ told. (told ≡ true) ↔ IsCalmPart (layout_at site.now)
        (meant_at site.now selection.now) site.now.cell part.now) }
{
    site.design.sound();
    let zone = site
        .zones
        .indexed(site.cell, ZoneKey::Layer(selection.name));
    let reach = site.layers.reach(selection.name);
    let apart = misses(alloc, close, zone, reach)?;
    Ok(apart)
}

/// Sorts a part of the candidates: a region of the cell's own, where nothing is disturbed close to
/// it, else one that goes up.
pub fn sort_part(
    alloc: Global,
    site: &Site,
    selection: &SelectRule,
    part: &RectSet,
    sorted: &mut Sorted,
) -> Result<(), AllocError>
    requires ready { IsReadySelection site.now selection.now }
    requires part { (s : Square) × IsPartAt (layout_at site.now) (meant_at site.now selection.now)
        site.now.cell part.now s }
    requires rects { HaveRects sorted.old }
    ensures sorts { OnOk result (SortsPart (layout_at site.now) (meant_at site.now selection.now)
        site.now.cell part.now sorted.old sorted.new) }
    ensures rects { OnOk result (HaveRects sorted.new) }
{
    site.design.sound();
    let close = close_to(alloc, part)?;
    let rects = part.rects();
    if !is_calm(alloc, site, selection, part, &close)? {
        return sorted.rest.extend_from_slice(rects);
    }
    if is_chosen(alloc, site, selection, part, &close)? {
        return sorted.chosen.extend_from_slice(rects);
    }
    Ok(())
}
