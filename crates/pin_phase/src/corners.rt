//! The nets at whose squares' corners a point stands.
ghost use Rattle.std.specs.Prelude.{◌≡◌, ◌↔◌, ◌<◌, true, length, IfOk};
ghost use Rattle.geo_base.specs.Near.{IsNearPoint, IsNearRect};
ghost use Rattle.net_link_laws.specs.Laws.{AreNetsUnder};
ghost use Rattle.pin_phase.specs.Corners.{AreAtCorners, IsAt, IsBetween, IsCornerWindow};
ghost use Rattle.pin_phase.specs.Corners.{around};

use cell_context::meet;
use geo_base::{Point, Rect};
use net_link_laws::NetPiece;
use net_walk::{Cells, collect_nets};
use std::alloc::{AllocError, Global};

fn is_between(low: i64, z: i64, high: i64) -> bool
    ensures { (result ≡ true) ↔ IsBetween low z high }
{
    low <= z && z <= high
}

// Whether a point lies in a rectangle or on a side of it.
fn is_at(at: Point, frame: &Rect) -> bool
    ensures { (result ≡ true) ↔ IsAt at frame.now }
{
    is_between(frame.x1, at.x, frame.x2) && is_between(frame.y1, at.y, frame.y2)
}

// The squares that have the point as a corner.
fn around(at: Point) -> Rect
    requires { IsNearPoint at }
    ensures { result ≡ around at }
{
    Rect {
        x1: at.x - 1,
        y1: at.y - 1,
        x2: at.x + 1,
        y2: at.y + 1,
    }
}

// Those of them that lie in a rectangle.
fn corner_window(at: Point, frame: &Rect) -> Option<Rect>
    requires { IsNearRect frame.now }
    ensures { IsCornerWindow at frame.now result }
{
    if !is_at(at, frame) {
        return None;
    }
    meet(&around(at), frame)
}

/// Pieces of the nets of a cell that have, on a conductor, a square with the point as a corner. One
/// walk in a window of at most four squares; none where the point lies outside the cell.
pub fn pieces_at<C: Cells>(
    alloc: Global,
    cells: &C,
    cell: u32,
    conductor: u32,
    at: Point,
) -> Result<Vec<NetPiece>, AllocError>
    requires known { conductor < length (C.wiring cells.now).conductors }
    requires nets { AreNetsUnder (C.design cells.now) (C.wiring cells.now) (C.tables cells.now)
        cell }
    ensures { IfOk result (λ v. AreAtCorners (C.design cells.now) (C.tables cells.now) cell
        conductor at v.items) }
{
    match cells.hull(cell) {
        Some(hull) => match corner_window(at, &hull) {
            Some(window) => collect_nets(alloc, cells, cell, conductor, &window),
            None => Ok(Vec::new(alloc)),
        },
        None => Ok(Vec::new(alloc)),
    }
}
