//! The gates of a cell's list for one device rule, from the cell's own gates.
ghost use Rattle.std.specs.Prelude.{◌≡◌, ℕ, Some, length, slice_get, IfOk};
ghost use Rattle.net_link_laws.specs.Laws.{AreNetsUnder};
ghost use Rattle.gate_phase.specs.Judged.{AreGatesOf, IsGateOf, IsHeldShape, IsStateOf};
ghost use Rattle.gate_phase.specs.Terminals.{grounds_seen};
ghost use Rattle.gate_phase.specs.declared.own.OwnGate.{OwnGate};

use crate::own::OwnGate;
use crate::terminals::{Terminals, terminal_nets};
use deep_tables::{Gate, GateState};
use gate_shapes::GateShape;
use geo_base::Square;
use net_walk::Cells;
use std::alloc::{AllocError, Global};

// The verdict on a gate of this shape.
fn state_of<C: Cells>(
    alloc: Global,
    at: &Terminals<'_, C>,
    least: Square,
    shape: GateShape,
) -> Result<GateState, AllocError>
    requires globals { at.now.globals ≡ length (C.wiring at.now.cells.now).globals }
    requires nets { AreNetsUnder (C.design at.now.cells.now) (C.wiring at.now.cells.now)
        (C.tables at.now.cells.now) at.now.cell }
    requires held { IsHeldShape (C.design at.now.cells.now) (C.wiring at.now.cells.now)
        (C.tables at.now.cells.now) at.now.device at.now.cell (grounds_seen at.now.grounds) least
        shape }
    ensures { IfOk result (IsStateOf (C.design at.now.cells.now) (C.wiring at.now.cells.now)
        (C.tables at.now.cells.now) at.now.device (grounds_seen at.now.grounds) at.now.cell least
        shape) }
{
    match shape {
        GateShape::Bad(cause) => Ok(GateState::Bad(cause)),
        GateShape::Good(form) => {
            let nets = terminal_nets(alloc, at, least, &form)?;
            Ok(GateState::Good {
                kind: at.device.kind,
                twice_w: form.twice_w,
                twice_l: form.twice_l,
                nets,
            })
        }
    }
}

/// The gates of a cell's list for the device rule of this number, one for each of the cell's own
/// gates for it, in their order. A walk in a window of one square for each terminal.
pub fn judged_gates<C: Cells>(
    alloc: Global,
    at: &Terminals<'_, C>,
    number: u32,
    own: Vec<OwnGate>,
) -> Result<Vec<Gate>, AllocError>
    requires globals { at.now.globals ≡ length (C.wiring at.now.cells.now).globals }
    requires nets { AreNetsUnder (C.design at.now.cells.now) (C.wiring at.now.cells.now)
        (C.tables at.now.cells.now) at.now.cell }
    requires held { (i : ℕ) (x : OwnGate) → slice_get own.items i ≡ Some x → IsHeldShape
        (C.design at.now.cells.now) (C.wiring at.now.cells.now) (C.tables at.now.cells.now)
        at.now.device at.now.cell (grounds_seen at.now.grounds) x.least x.shape }
    ensures { IfOk result (λ v. AreGatesOf (IsGateOf (C.design at.now.cells.now)
        (C.wiring at.now.cells.now) (C.tables at.now.cells.now) at.now.device
        (grounds_seen at.now.grounds) number at.now.cell) own.items v.items) }
{
    let mut gates = Vec::with_capacity(alloc, own.len())?;
    for gate in own {
        let state = state_of(alloc, at, gate.least, gate.shape)?;
        gates.push(Gate {
            device: number,
            area: gate.area,
            least: gate.least,
            state,
        })?;
    }
    Ok(gates)
}
