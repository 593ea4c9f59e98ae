//! The nets over a conductor's squares in a window, by a walk through the cells below.

ghost use Rattle.std.specs.Prelude.{◌≡◌, ◌<◌, ◌^◌, length, IfOk, IfSome, IfNone};
ghost use Rattle.geo_base.specs.Near.{IsNearRect, IsNearMotion};
ghost use Rattle.geo_base.specs.Rects.{IsRect};
ghost use Rattle.net_link_laws.specs.Laws.{AreNetsUnder};
ghost use Rattle.net_link_laws.specs.Places.{owned_before};
ghost use Rattle.net_walk.specs.Walk.{place_of, HasNoPart, IsCollection, IsPart, IsPartIn};
ghost use Rattle.flat_layout.specs.Plane.{IsIn};
ghost use Rattle.geo_base.specs.Motions.{moved_square};
ghost use Rattle.geo_base.specs.declared.shapes.Square.{Square};

use crate::cells::{Cells, Element};
use crate::pushes::{push_moved, push_own};
use geo_base::{Motion, Rect};
use net_link_laws::NetPiece;
use std::alloc::{AllocError, Global};

// Of a hull, what a motion brings into the window, where there is something.
fn part_in(hull: &Rect, motion: &Motion, window: &Rect) -> Option<Rect>
    requires rect { IsRect hull.now }
    requires near { IsNearRect hull.now }
    requires near_motion { IsNearMotion motion.now }
    requires near_window { IsNearRect window.now }
    ensures some { IfSome result (IsPartIn hull.now motion.now window.now) }
    ensures none { IfNone result ((m : Square) → IsIn m hull.now
        → IsIn (moved_square motion.now m) window.now → ⊥) }
{
    let span = motion.rect(*hull);
    let part = span.common(window);
    if part.is_rect() {
        return Some(motion.inverse().rect(part));
    }
    None
}

// The part of a placed cell that its placement brings into the window, where there is one.
pub fn part_of<C: Cells>(cells: &C, element: &Element, window: &Rect) -> Option<Rect>
    requires motion { IsNearMotion element.now.motion }
    requires near { IsNearRect window.now }
    ensures some { IfSome result (IsPart (C.design cells.now) (C.tables cells.now)
        (place_of element.now) window.now) }
    ensures none { IfNone result (HasNoPart (C.design cells.now) (C.tables cells.now)
        (place_of element.now) window.now) }
{
    match cells.hull(element.cell) {
        None => None,
        Some(hull) => part_in(&hull, &element.motion, window),
    }
}

// How many rectangles the first conductors have.
pub(crate) fn owned_before<C: Cells>(cells: &C, cell: u32, conductors: u32) -> usize
    requires { owned_before (C.tables cells.now) cell conductors < 2 ^ 64 }
    ensures { result ≡ owned_before (C.tables cells.now) cell conductors }
{
    let mut at = 0;
    for conductor in 0..conductors {
        at += cells.own(cell, conductor).len();
    }
    at
}

/// The cell's nets over the squares of a conductor in the window. Cost: what the cells tell of
/// rectangles and placements in the window, with the rectangles' lists of the conductors for each
/// cell that is entered; a cell that is known to have nothing of the conductor isn't.
pub fn collect_nets<C: Cells>(
    alloc: Global,
    cells: &C,
    cell: u32,
    conductor: u32,
    window: &Rect,
) -> Result<Vec<NetPiece>, AllocError>
    requires known { conductor < length (C.wiring cells.now).conductors }
    requires nets { AreNetsUnder (C.design cells.now) (C.wiring cells.now) (C.tables cells.now)
        cell }
    requires near { IsNearRect window.now }
    ensures { IfOk result (λ v. IsCollection (C.design cells.now) (C.tables cells.now) cell
        conductor window.now v.items) }
{
    cells.sound();
    if cells.is_bare(cell, conductor) {
        return Ok(Vec::new(alloc));
    }
    let mut out = Vec::new(alloc);
    let net_of = cells.net_of(cell);
    let first = owned_before(cells, cell, conductor);
    let own = cells.own_near(alloc, cell, conductor, window)?;
    push_own(
        cells.own(cell, conductor),
        &own,
        net_of,
        first,
        window,
        &mut out,
    )?;
    let near = cells.places_near(alloc, cell, window)?;
    let elements = cells.places(cell);
    for number in &near {
        let element = &elements[*number as usize];
        match part_of(cells, element, window) {
            None => {}
            Some(inner) => {
                let below = collect_nets(alloc, cells, element.cell, conductor, &inner)?;
                let at = cells.first_place(cell, *number);
                push_moved(
                    &below,
                    &element.motion,
                    net_of,
                    at,
                    window,
                    &inner,
                    &mut out,
                )?;
            }
        }
    }
    Ok(out)
}
