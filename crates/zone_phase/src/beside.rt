//! Squares of a cell that elements of an array take onto what stands in the parent.
ghost use Rattle.std.specs.Prelude.{◌≡◌, ◌<◌, ◌^◌, length, Some, OnOk, slice_get};
ghost use Rattle.std.specs.List.{All};
ghost use Rattle.geo_base.specs.Rects.{IsRect};
ghost use Rattle.cell_graph.specs.Linked.{IsFrame, IsRectWithin, cell_at, own_of, places_at};
ghost use Rattle.cell_context.specs.Arrays.{IsNearArray};
ghost use Rattle.zone_phase.specs.Pulls.{Adds, OnRects, OnRectsIn, BesideIn};

use crate::frame::Frame;
use crate::pulls::push_pulled;
use cell_context::{gather, push_pieces};
use cell_graph::Place;
use deep_tables::IndexedSet;
use geo_base::Rect;
use std::alloc::{AllocError, Global};

// Adds the squares of a hull that some element takes onto rectangles.
pub fn push_onto(
    alloc: Global,
    out: &mut Vec<Rect>,
    place: &Place,
    hull: &Rect,
    rects: &[Rect],
) -> Result<(), AllocError>
    requires near { IsNearArray place.now }
    requires some { 0 < place.now.columns }
    requires hull { IsFrame hull.now }
    requires within { All (IsRectWithin (2 ^ 39)) rects.now }
    requires rects { All IsRect out.old.items }
    ensures rects { OnOk result (All IsRect out.new.items) }
    ensures exact { OnOk result (Adds place.now hull.now (OnRects place.now rects.now)
        out.old.items out.new.items) }
{
    for rect in rects {
        push_pulled(alloc, out, place, hull, rect)?;
    }
    Ok(())
}

// Adds the squares of a hull that some element takes, in windows of the parent, onto a set. What of
// the set reaches into no window costs nothing.
pub fn push_among(
    alloc: Global,
    out: &mut Vec<Rect>,
    place: &Place,
    hull: &Rect,
    zone: &IndexedSet,
    windows: &[Rect],
) -> Result<(), AllocError>
    requires near { IsNearArray place.now }
    requires some { 0 < place.now.columns }
    requires hull { IsFrame hull.now }
    requires within { All (IsRectWithin (2 ^ 39)) windows.now }
    requires rects { All IsRect out.old.items }
    ensures rects { OnOk result (All IsRect out.new.items) }
    ensures exact { OnOk result (Adds place.now hull.now
        (OnRectsIn windows.now place.now zone.now) out.old.items out.new.items) }
{
    for window in windows {
        let near = zone.near(alloc, window)?;
        let mut pieces = Vec::new(alloc);
        push_pieces(&mut pieces, zone.set().rects(), &near, window)?;
        push_onto(alloc, out, place, hull, &pieces)?;
    }
    Ok(())
}

// The same of the parent's own shapes on a layer.
pub fn push_own(
    alloc: Global,
    out: &mut Vec<Rect>,
    frame: &Frame<'_>,
    parent: u32,
    place: &Place,
    windows: &[Rect],
) -> Result<(), AllocError>
    requires parent { parent < length frame.now.design.now.cells }
    requires near { IsNearArray place.now }
    requires some { 0 < place.now.columns }
    requires hull { IsFrame frame.now.grown }
    requires within { All (IsRectWithin (2 ^ 39)) windows.now }
    requires rects { All IsRect out.old.items }
    ensures rects { OnOk result (All IsRect out.new.items) }
    ensures exact { OnOk result (Adds place.now frame.now.grown (OnRectsIn windows.now place.now
        (own_of (cell_at frame.now.design.now parent) frame.now.key)) out.old.items
        out.new.items) }
{
    let own = frame.design.own(parent, frame.key).rects();
    for window in windows {
        let near = frame.design.own_in(alloc, parent, frame.key, *window)?;
        let mut pieces = Vec::new(alloc);
        push_pieces(&mut pieces, own, &near, window)?;
        push_onto(alloc, out, place, &frame.grown, &pieces)?;
    }
    Ok(())
}

// Adds the squares of a hull that some element takes, in windows of the parent, onto shapes beside
// the array.
pub fn push_beside(
    alloc: Global,
    out: &mut Vec<Rect>,
    frame: &Frame<'_>,
    parent: u32,
    index: usize,
    place: &Place,
    windows: &[Rect],
) -> Result<(), AllocError>
    requires parent { parent < length frame.now.design.now.cells }
    requires near { IsNearArray place.now }
    requires some { 0 < place.now.columns }
    requires hull { IsFrame frame.now.grown }
    requires within { All (IsRectWithin (2 ^ 39)) windows.now }
    requires rects { All IsRect out.old.items }
    ensures rects { OnOk result (All IsRect out.new.items) }
    ensures exact { OnOk result (Adds place.now frame.now.grown (BesideIn windows.now
        frame.now.design.now parent index frame.now.key place.now) out.old.items out.new.items) }
{
    for window in windows {
        let rects = gather(alloc, frame.design, parent, frame.key, window, Some(index))?;
        push_onto(alloc, out, place, &frame.grown, &rects)?;
    }
    Ok(())
}
