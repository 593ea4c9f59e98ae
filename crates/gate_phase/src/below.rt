//! Whether a gate is the image of one of a placed cell.
ghost use Rattle.std.specs.Prelude.{◌≡◌, ◌↔◌, ◌<◌, ◌≤◌, ◌^◌, true, length, IfOk};
ghost use Rattle.geo_base.specs.Motions.{moved_square};
ghost use Rattle.geo_base.specs.Near.{IsNearMotion};
ghost use Rattle.geo_base.specs.declared.shapes.Square.{Square};
ghost use Rattle.rect_sets.specs.Near.{IsNearSet};
ghost use Rattle.rect_sets.specs.Rects.{covers};
ghost use Rattle.cell_graph.specs.Linked.{IsFrame, IsRectWithin};
ghost use Rattle.gate_phase.specs.Below.{IsFree, IsFreeElement, IsFreeIn};
ghost use Rattle.gate_phase.specs.Close.{HasOpen};
ghost use Rattle.gate_phase.specs.Site.{IsReadyDevice};

use crate::close::{is_mine, misses};
use crate::frame::grown_hull;
use crate::site::DeviceSite;
use cell_context::{Visit, visits};
use deep_tables::{IndexedSet, ZoneKey};
use gate_shapes::least;
use geo_base::{Motion, Op, Rect};
use rect_sets::{RectSet, combine_rects};
use std::alloc::{AllocError, Global};

// The set as a placed cell has it, which the motion takes here.
fn pulled(alloc: Global, set: &RectSet, motion: &Motion) -> Result<RectSet, AllocError>
    requires near { IsNearSet set.now }
    requires motion { IsNearMotion motion.now }
    ensures { IfOk result (λ r. (q : Square) → covers r q
        ≡ covers set.now (moved_square motion.now q)) }
{
    set.moved(alloc, &motion.inverse())
}

// Whether all that the motion takes to the set lies in the frame, and nothing of the zone within
// reach of it.
fn is_free(
    alloc: Global,
    close: &RectSet,
    motion: &Motion,
    frame: &Rect,
    zone: &IndexedSet,
    reach: u32,
) -> Result<bool, AllocError>
    requires near { IsNearSet close.now }
    requires motion { IsNearMotion motion.now }
    requires frame { IsFrame frame.now }
    ensures { IfOk result (λ b. (b ≡ true)
        ↔ IsFree reach close.now motion.now frame.now zone.now) }
{
    let there = pulled(alloc, close, motion)?;
    let outside = combine_rects(alloc, there.rects(), &[*frame], Op::Not)?;
    match least(&outside) {
        Some(_) => Ok(false),
        None => misses(alloc, &there, zone, reach),
    }
}

// Whether all that is close lies in the grown hull of the visit's cell, which leaves nothing within
// reach of it, and others can't make all of the part there.
fn is_free_visit(
    alloc: Global,
    at: &DeviceSite,
    part: &RectSet,
    close: &RectSet,
    visit: &Visit,
) -> Result<bool, AllocError>
    requires ready { IsReadyDevice at.now }
    requires part { IsNearSet part.now }
    requires cell { visit.now.cell < length at.now.site.design.now.cells }
    requires near { IsNearSet close.now }
    requires motion { IsNearMotion visit.now.motion }
    requires zone { HasOpen at.now.site.zones.now visit.now.cell at.now.number }
    ensures { IfOk result (λ b. (b ≡ true)
        ↔ IsFreeIn at.now.reach at.now.site.design.now at.now.site.zones.now at.now.number part.now
        close.now visit.now.cell visit.now.motion) }
{
    let site = &at.site;
    site.design.sound();
    match site.design.hull(visit.cell) {
        Some(hull) => {
            let zone = site.zones.indexed(visit.cell, ZoneKey::Device(at.number));
            let frame = grown_hull(&hull, at.reach + 1);
            if !is_free(alloc, close, &visit.motion, &frame, zone, at.reach)? {
                return Ok(false);
            }
            let there = pulled(alloc, part, &visit.motion)?;
            is_mine(alloc, &there, site.zones.lone(visit.cell, at.number))
        }
        None => Ok(false),
    }
}

/// Whether a gate of the cell comes from below, by its part and what is close to it: through some
/// element that reaches into `start`, a rectangle of the gate.
pub fn is_below(
    alloc: Global,
    at: &DeviceSite,
    part: &RectSet,
    close: &RectSet,
    start: &Rect,
) -> Result<bool, AllocError>
    requires ready { IsReadyDevice at.now }
    requires part { IsNearSet part.now }
    requires near { IsNearSet close.now }
    requires start { IsRectWithin (2 ^ 39) start.now }
    ensures { IfOk result (λ b. (b ≡ true)
        ↔ IsFreeElement at.now.reach at.now.site.design.now at.now.site.zones.now at.now.site.cell
        at.now.number part.now close.now start.now) }
{
    let site = &at.site;
    site.design.sound();
    let list = visits(alloc, site.design, site.cell, start, None, at.reach)?;
    for visit in &list {
        if is_free_visit(alloc, at, part, close, visit)? {
            return Ok(true);
        }
    }
    Ok(false)
}
