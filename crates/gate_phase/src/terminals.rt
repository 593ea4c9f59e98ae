//! The nets of a good device's terminals.
ghost use Rattle.std.specs.Prelude.{◌≡◌, ◌<◌, ℕ, length, IfOk};
ghost use Rattle.flat_layout.specs.Nets.{NetHolds};
ghost use Rattle.flat_layout.specs.Regions.{At};
ghost use Rattle.net_link_laws.specs.Laws.{AreNetsUnder};
ghost use Rattle.gate_phase.specs.Own.{IsUnitNear};
ghost use Rattle.gate_phase.specs.Terminals.{AreHeld, HoldNodes, IsHeldRegion, grounds_seen};
ghost use Rattle.gate_phase.specs.Terminals.{region_node};

use crate::bulks::Grounds;
use crate::device::Device;
use crate::nets::{net_at, net_of_global};
use gate_shapes::GateForm;
use geo_base::Square;
use net_walk::Cells;
use plain_netlist::DeviceKind;
use std::alloc::{AllocError, Global};

/// What the nets of terminals are looked up by: the nets of cells, one of the cells, a device rule,
/// the globals at the rule's ends and at its bulk, and how many globals there are.
#[derive(Clone, Copy)]
pub struct Terminals<'a, C> {
    pub cells: &'a C,
    pub cell: u32,
    pub device: Device,
    pub grounds: Grounds,
    pub globals: u32,
}

// The net of a square that some net holds.
fn held_net<C: Cells>(
    alloc: Global,
    cells: &C,
    cell: u32,
    conductor: u32,
    square: Square,
) -> Result<u32, AllocError>
    requires known { conductor < length (C.wiring cells.now).conductors }
    requires nets { AreNetsUnder (C.design cells.now) (C.wiring cells.now) (C.tables cells.now)
        cell }
    requires near { IsUnitNear square }
    requires held { (x : ℕ) × NetHolds (C.design cells.now) (C.tables cells.now) cell x
        (At conductor square) }
    ensures { IfOk result (λ x. NetHolds (C.design cells.now) (C.tables cells.now) cell x
        (At conductor square)) }
{
    match net_at(alloc, cells, cell, conductor, square)? {
        Some(net) => Ok(net),
        None => unreachable!(),
    }
}

// The net of a region on a conductor: that of the conductor's global, or else of the region's
// least square on it.
fn region_net<C: Cells>(
    alloc: Global,
    at: &Terminals<'_, C>,
    conductor: u32,
    global: Option<u32>,
    least: Square,
) -> Result<u32, AllocError>
    requires globals { at.now.globals ≡ length (C.wiring at.now.cells.now).globals }
    requires nets { AreNetsUnder (C.design at.now.cells.now) (C.wiring at.now.cells.now)
        (C.tables at.now.cells.now) at.now.cell }
    requires held { IsHeldRegion (C.design at.now.cells.now) (C.wiring at.now.cells.now)
        (C.tables at.now.cells.now) at.now.cell conductor least global }
    ensures { IfOk result (λ x. NetHolds (C.design at.now.cells.now) (C.tables at.now.cells.now)
        at.now.cell x (region_node conductor least global)) }
{
    match global {
        Some(number) => Ok(net_of_global(at.cells, at.cell, at.globals, number)),
        None => held_net(alloc, at.cells, at.cell, conductor, least),
    }
}

/// The nets of a good device's terminals, in the order of a netlist's `DeviceRow`, and 0 behind
/// them. Of a device between groups its ends are on the nets of their least squares. A transistor's
/// gate is on that of its least square; a bulk, an anode or a cathode on that of its conductor's
/// global, or else of the region's least square.
pub fn terminal_nets<C: Cells>(
    alloc: Global,
    at: &Terminals<'_, C>,
    least: Square,
    form: &GateForm,
) -> Result<[u32; 4], AllocError>
    requires globals { at.now.globals ≡ length (C.wiring at.now.cells.now).globals }
    requires nets { AreNetsUnder (C.design at.now.cells.now) (C.wiring at.now.cells.now)
        (C.tables at.now.cells.now) at.now.cell }
    requires held { AreHeld (C.design at.now.cells.now) (C.wiring at.now.cells.now)
        (C.tables at.now.cells.now) at.now.device at.now.cell (grounds_seen at.now.grounds) least
        form.now }
    ensures { IfOk result (HoldNodes (C.design at.now.cells.now) (C.tables at.now.cells.now)
        at.now.device at.now.cell (grounds_seen at.now.grounds) least form.now) }
{
    let cells = at.cells;
    let device = &at.device;
    let bulk = region_net(alloc, at, device.tb, at.grounds.bulk, least)?;
    match device.kind {
        DeviceKind::Mos4 => {
            let drain = held_net(alloc, cells, at.cell, device.ts, form.drain)?;
            let gate = held_net(alloc, cells, at.cell, device.tg, least)?;
            let source = held_net(alloc, cells, at.cell, device.ts, form.source)?;
            Ok([drain, gate, source, bulk])
        }
        DeviceKind::ResistorWithBulk => {
            let second = held_net(alloc, cells, at.cell, device.ts, form.drain)?;
            let first = held_net(alloc, cells, at.cell, device.ts, form.source)?;
            Ok([second, bulk, first, 0])
        }
        DeviceKind::Diode => {
            let anode = region_net(alloc, at, device.ts, at.grounds.ends, least)?;
            Ok([anode, bulk, 0, 0])
        }
    }
}
