//! Squares of a cell that one reference of a parent brings onto what stands there.

ghost use Rattle.std.specs.Prelude.{◌≡◌, ◌<◌, [], true, length, OnOk};
ghost use Rattle.std.specs.List.{All};
ghost use Rattle.geo_base.specs.Rects.{IsRect};
ghost use Rattle.cell_graph.specs.Linked.{cell_at, own_of};
ghost use Rattle.zone_phase.specs.Framed.{IsFramed, IsFramedReference};
ghost use Rattle.cell_context.specs.Arrays.{IsAlone};
ghost use Rattle.zone_phase.specs.Neighbours.{WhyHere};
ghost use Rattle.zone_phase.specs.Pulls.{Adds, Why};

use crate::beside::{push_among, push_beside, push_own};
use crate::frame::Frame;
use crate::siblings::push_siblings;
use crate::windows::windows;
use cell_context::is_alone;
use cell_graph::{Design, Place};
use deep_tables::IndexedSet;
use geo_base::{LayerKey, Rect};
use std::alloc::{AllocError, Global};

// Whether nothing is disturbed in a cell, and it has no shape of its own on a layer.
fn is_calm(design: &Design, zone: &IndexedSet, cell: u32, key: LayerKey) -> bool
    requires { cell < length design.now.cells }
    ensures zone { result ≡ true → zone.now ≡ [] }
    ensures own { result ≡ true → own_of (cell_at design.now cell) key ≡ [] }
{
    zone.set().rects().is_empty() && design.own(cell, key).rects().is_empty()
}

// Adds the squares of a grown hull that a placement by itself brings onto the parent's disturbed
// squares, or onto its own shapes.
fn push_alone(
    alloc: Global,
    out: &mut Vec<Rect>,
    frame: &Frame<'_>,
    zone: &IndexedSet,
    parent: u32,
    index: usize,
    place: &Place,
) -> Result<(), AllocError>
    requires reference { IsFramedReference frame.now parent index place.now }
    requires alone { IsAlone place.now }
    requires frame { IsFramed frame.now }
    requires rects { All IsRect out.old.items }
    ensures rects { OnOk result (All IsRect out.new.items) }
    ensures exact { OnOk result (Adds place.now frame.now.grown (WhyHere zone.now
        frame.now.design.now parent index frame.now.key place.now) out.old.items out.new.items) }
{
    frame.design.sound();
    let list = windows(alloc, place, &frame.grown)?;
    push_among(alloc, out, place, &frame.grown, zone, &list)?;
    push_own(alloc, out, frame, parent, place, &list)?;
    Ok(())
}

// The same of any reference; of one that isn't by itself, also onto what other references bring.
fn push_array(
    alloc: Global,
    out: &mut Vec<Rect>,
    frame: &Frame<'_>,
    zone: &IndexedSet,
    parent: u32,
    index: usize,
    place: &Place,
) -> Result<(), AllocError>
    requires reference { IsFramedReference frame.now parent index place.now }
    requires frame { IsFramed frame.now }
    requires rects { All IsRect out.old.items }
    ensures rects { OnOk result (All IsRect out.new.items) }
    ensures exact { OnOk result (Adds place.now frame.now.grown (Why zone.now
        frame.now.design.now parent index frame.now.key place.now) out.old.items out.new.items) }
{
    frame.design.sound();
    let list = windows(alloc, place, &frame.grown)?;
    push_among(alloc, out, place, &frame.grown, zone, &list)?;
    push_beside(alloc, out, frame, parent, index, place, &list)?;
    push_siblings(alloc, out, frame, place)?;
    Ok(())
}

// Adds the squares of a cell's grown hull that an element of a reference brings onto the parent's
// disturbed squares, or onto shapes beside it: of one by itself, onto the parent's own alone.
pub fn push_reference(
    alloc: Global,
    out: &mut Vec<Rect>,
    frame: &Frame<'_>,
    zone: &IndexedSet,
    parent: u32,
    index: usize,
    place: &Place,
) -> Result<(), AllocError>
    requires reference { IsFramedReference frame.now parent index place.now }
    requires frame { IsFramed frame.now }
    requires rects { All IsRect out.old.items }
    ensures rects { OnOk result (All IsRect out.new.items) }
    ensures exact { OnOk result (Adds place.now frame.now.grown (WhyHere zone.now
        frame.now.design.now parent index frame.now.key place.now) out.old.items out.new.items) }
{
    if !is_alone(place) {
        push_array(alloc, out, frame, zone, parent, index, place)?;
        return Ok(());
    }
    if is_calm(frame.design, zone, parent, frame.key) {
        return Ok(());
    }
    push_alone(alloc, out, frame, zone, parent, index, place)
}
