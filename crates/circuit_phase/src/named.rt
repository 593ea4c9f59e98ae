//! The names of a circuit's nets in the order of the circuit.
ghost use Rattle.std.specs.Prelude.{◌≡◌, ◌<◌, ◌^◌, ℕ, true, Some, length, slice_get, IfOk};
ghost use Rattle.deep_tables.specs.Pins.{plain_pins};
ghost use Rattle.flat_layout.specs.Circuits.{drawn_names, drawn_nets};

use crate::drawn::{drawn_names, drawn_nets};
use deep_tables::{CellPins, positions};
use net_names::Name;
use std::alloc::{AllocError, Global};

/// The names of drawn nets of a cell, in any order: each gets the name that it has among all drawn
/// nets of the cell in their order. Linear in the cell's nets and the bytes of their names.
pub fn circuit_net_names(
    alloc: Global,
    pins: &CellPins,
    drawn: &[bool],
    nets: &[u32],
) -> Result<Vec<Name>, AllocError>
    requires few { length drawn.now < 2 ^ 32 }
    requires count { length pins.now.names.items ≡ length drawn.now }
    requires drawn { (i x : ℕ) → slice_get nets.now i ≡ Some x → slice_get drawn.now x ≡ Some true }
    ensures count { IfOk result (λ v. length v.items ≡ length nets.now) }
    ensures named { IfOk result (λ v. (a k x : ℕ) → slice_get nets.now a ≡ Some x
        → slice_get (drawn_nets drawn.now) k ≡ Some x → slice_get v.items a
        ≡ slice_get (drawn_names (plain_pins pins.now) drawn.now) k) }
{
    let names = drawn_names(alloc, pins, drawn)?;
    let order = drawn_nets(alloc, drawn)?;
    let places = positions(alloc, drawn.len() as u32, &order)?;
    let mut out = Vec::with_capacity(alloc, nets.len())?;
    for net in nets {
        let place = places[*net as usize];
        out.push(names[place as usize].try_clone(alloc)?)?;
    }
    Ok(out)
}
