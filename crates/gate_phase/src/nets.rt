//! The nets of nodes that a cell keeps: of a square of a conductor, and of a global.
ghost use Rattle.std.specs.Prelude.{◌≡◌, ◌<◌, length, IfOk};
ghost use Rattle.flat_layout.specs.Nets.{NetHolds};
ghost use Rattle.flat_layout.specs.Regions.{At, Ground};
ghost use Rattle.net_link_laws.specs.Laws.{AreNetsUnder};
ghost use Rattle.gate_phase.specs.Own.{IsUnitNear};
ghost use Rattle.gate_phase.specs.Rows.{IsNetAt};

use crate::own::unit;
use geo_base::Square;
use net_walk::{Cells, collect_nets};
use std::alloc::{AllocError, Global};

/// The net of a cell that holds a square of a conductor; none where the cell doesn't keep it. One
/// walk in a window of one square.
pub fn net_at<C: Cells>(
    alloc: Global,
    cells: &C,
    cell: u32,
    conductor: u32,
    square: Square,
) -> Result<Option<u32>, AllocError>
    requires known { conductor < length (C.wiring cells.now).conductors }
    requires nets { AreNetsUnder (C.design cells.now) (C.wiring cells.now) (C.tables cells.now)
        cell }
    requires near { IsUnitNear square }
    ensures { IfOk result (IsNetAt (C.design cells.now) (C.tables cells.now) cell
        (At conductor square)) }
{
    let pieces = collect_nets(alloc, cells, cell, conductor, &unit(square))?;
    match pieces.first() {
        Some(piece) => Ok(Some(piece.net)),
        None => Ok(None),
    }
}

/// The net of a cell that holds a global, by its place among all globals. In constant time.
pub fn net_of_global<C: Cells>(cells: &C, cell: u32, globals: u32, global: u32) -> u32
    requires globals { globals ≡ length (C.wiring cells.now).globals }
    requires global { global < globals }
    requires nets { AreNetsUnder (C.design cells.now) (C.wiring cells.now) (C.tables cells.now)
        cell }
    ensures { NetHolds (C.design cells.now) (C.tables cells.now) cell result (Ground global) }
{
    let net_of = cells.net_of(cell);
    net_of[net_of.len() - globals as usize + global as usize]
}
