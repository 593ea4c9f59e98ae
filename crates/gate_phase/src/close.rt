//! What is close to a part: its squares and those of its ring.
ghost use Rattle.std.specs.Prelude.{◌≡◌, ◌↔◌, ◌≤◌, ◌^◌, true, option_map, IfOk};
ghost use Rattle.std.specs.List.{All};
ghost use Rattle.geo_base.specs.declared.shapes.Square.{Square};
ghost use Rattle.rect_sets.specs.Near.{IsNearSet};
ghost use Rattle.flat_layout.specs.Parts.{IsCloseTo};
ghost use Rattle.cell_graph.specs.Linked.{IsRectWithin};
ghost use Rattle.gate_shapes.specs.Sets.{in_set};
ghost use Rattle.gate_phase.specs.Close.{AreApart, IsMine, MissesOpen};
ghost use Rattle.gate_phase.specs.Site.{IsReadyDevice};

use crate::site::DeviceSite;
use cell_context::grown;
use deep_tables::{IndexedSet, ZoneKey};
use gate_shapes::{grown as ring_windows, least};
use geo_base::Op;
use rect_sets::RectSet;
use std::alloc::{AllocError, Global};

/// The squares of a part and of its ring.
pub fn close_to(alloc: Global, part: &RectSet) -> Result<RectSet, AllocError>
    requires { IsNearSet part.now }
    ensures { IfOk result (λ s. (q : Square) → in_set s q ↔ IsCloseTo (in_set part.now) q) }
{
    let windows = ring_windows(alloc, part.rects())?;
    RectSet::canon(alloc, windows)
}

/// Whether no square of the one lies within so many of one of the other, by windows of the one in
/// the other.
pub fn misses(
    alloc: Global,
    set: &RectSet,
    other: &IndexedSet,
    reach: u32,
) -> Result<bool, AllocError>
    requires { All (IsRectWithin (2 ^ 39)) set.now }
    ensures { IfOk result (λ b. (b ≡ true) ↔ AreApart reach set.now other.now) }
{
    for rect in set.rects() {
        let near = other.near(alloc, &grown(rect, reach))?;
        if !near.is_empty() {
            return Ok(false);
        }
    }
    Ok(true)
}

/// Whether the cell leaves nothing for a device rule within the rule's reach of what is close.
pub fn is_undisturbed(alloc: Global, at: &DeviceSite, close: &RectSet) -> Result<bool, AllocError>
    requires ready { IsReadyDevice at.now }
    requires windows { All (IsRectWithin (2 ^ 39)) close.now }
    ensures { IfOk result (λ b. (b ≡ true)
        ↔ MissesOpen at.now.reach at.now.site.zones.now at.now.site.cell at.now.number close.now) }
{
    at.site.design.sound();
    let zone = at
        .site
        .zones
        .indexed(at.site.cell, ZoneKey::Device(at.number));
    misses(alloc, close, zone, at.reach)
}

/// Whether others can't make all of a part without the cell, by what they may make; where that isn't
/// told they can make none that the cell doesn't leave.
pub fn is_mine(alloc: Global, part: &RectSet, lone: Option<&RectSet>) -> Result<bool, AllocError>
    ensures { IfOk result (λ b. (b ≡ true)
        ↔ IsMine (option_map (λ s. s.now) lone.entry) (in_set part.now)) }
{
    match lone {
        Some(lone) => {
            let mine = part.combined(alloc, lone, Op::Not)?;
            Ok(least(&mine).is_some())
        }
        None => Ok(least(part).is_some()),
    }
}
