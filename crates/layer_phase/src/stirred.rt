//! What a cell leaves to those above for all derived names of a group: of this it holds nothing,
//! so that it needn't be looked at.
ghost use Rattle.std.specs.Prelude.{◌≡◌, ◌<◌, ◌^◌, ◌&&◌, not, List, true, length, IfOk};
ghost use Rattle.std.specs.List.{All};
ghost use Rattle.geo_base.specs.Rects.{IsRect};
ghost use Rattle.geo_base.specs.declared.shapes.Rect.{Rect as Rectangle};
ghost use Rattle.geo_base.specs.declared.shapes.Square.{Square};
ghost use Rattle.rect_sets.specs.Rects.{covers};
ghost use Rattle.layer_phase.specs.Keeps.{HasEntry, IsZoneAt};
ghost use Rattle.layer_phase.specs.Looks.{AreStirredFor, HaveMarked};
ghost use Rattle.cell_context.specs.Placed.{Grows};

use crate::work::View;
use deep_tables::{ZoneKey, Zones};
use geo_base::{Op, Rect};
use rect_sets::{RectSet, combine_rects};
use std::alloc::{AllocError, Global};

// Of two sets the squares of both: the first one itself, where it is empty.
fn shared(alloc: Global, set: RectSet, other: &RectSet) -> Result<RectSet, AllocError>
    ensures { IfOk result (λ r. (q : Square) → covers r q ≡ (covers set q && covers other.now q)) }
{
    if set.rects().is_empty() {
        return Ok(set);
    }
    set.combined(alloc, other, Op::And)
}

// Those of a set that the cell leaves for a name, where it is marked.
fn disturbed_of(
    alloc: Global,
    zones: &Zones,
    cell: u32,
    name: u32,
    marked: bool,
    set: RectSet,
) -> Result<RectSet, AllocError>
    requires entry { marked ≡ true → HasEntry zones.now cell name }
    ensures less { IfOk result (λ r. Grows r set) }
    ensures zone { IfOk result (λ r. marked ≡ true → (zone : List Rectangle)
        → IsZoneAt zones.now cell name zone → Grows r zone) }
{
    if !marked {
        return Ok(set);
    }
    let zone = zones.left(cell, ZoneKey::Layer(name));
    shared(alloc, set, zone)
}

/// Those squares of a set that a cell leaves for all members of the view's group. A set
/// that is or becomes empty costs nothing more.
pub fn stirred_of(
    alloc: Global,
    view: &View,
    cell: u32,
    set: RectSet,
) -> Result<RectSet, AllocError>
    requires few { length view.now.members.now < 2 ^ 32 }
    requires entries { HaveMarked view.now.zones.now cell view.now.members.now }
    ensures { IfOk result (AreStirredFor view.now.zones.now cell view.now.members.now
        (length view.now.members.now)) }
{
    let mut found = set;
    for (name, marked) in view.members.iter().enumerate() {
        found = disturbed_of(alloc, view.zones, cell, name as u32, *marked, found)?;
    }
    Ok(found)
}

/// What rectangles cover outside a set: they themselves, where it is empty.
pub fn outside(alloc: Global, rects: Vec<Rect>, set: &RectSet) -> Result<Vec<Rect>, AllocError>
    requires { All IsRect rects.items }
    ensures rects { IfOk result (λ r. All IsRect r.items) }
    ensures exact { IfOk result (λ r. (q : Square)
        → covers r.items q ≡ (covers rects.items q && not (covers set.now q))) }
{
    if set.rects().is_empty() {
        return Ok(rects);
    }
    let left = combine_rects(alloc, &rects, set.rects(), Op::Not)?;
    left.rects().to_vec(alloc)
}
