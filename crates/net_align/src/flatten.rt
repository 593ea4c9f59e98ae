//! Circuits flattened, callees first.
ghost use Rattle.std.specs.Prelude.{◌≡◌, ◌<◌, ℕ, List, IfOk, length, replicate, None};
ghost use Rattle.align_laws.specs.Lists.{plain};
ghost use Rattle.call_order.specs.Order.{IsCallOrder};
ghost use Rattle.net_align.specs.Flattened.{Flattening, IsFlattening, AreClosed, AreFlats};
ghost use Rattle.net_align.specs.Laid.{goes_of};
ghost use Rattle.net_model.specs.Faults.{call_lists};
ghost use Rattle.net_model.specs.Rows.{plain_netlist};

use crate::inline::inline;
use crate::walk::is_marked;
use net_model::{Circuit, Netlist};
use std::alloc::{AllocError, Global};

/// The flat circuits of those that are marked, by their numbers. `goes` says of each circuit
/// whether it goes into its callers.
///
/// Linear in what is made: a circuit that goes is appended once for each call.
pub fn flatten(
    alloc: Global,
    netlist: &Netlist,
    order: &[u32],
    marks: &[bool],
    goes: &[bool],
) -> Result<Vec<Option<Circuit>>, AllocError>
    ghost f: { Flattening }
    requires flattening { IsFlattening (plain_netlist netlist.now) (goes_of goes.now) f }
    requires order { IsCallOrder (call_lists (plain_netlist netlist.now)) order.now }
    requires closed { AreClosed (plain_netlist netlist.now) marks.now }
    requires long { length goes.now ≡ length netlist.now.circuits.items }
    ensures { IfOk result (λ flats.
        AreFlats (plain_netlist netlist.now) f.flats marks.now flats.items) }
{
    let mut flats = no_circuits(alloc, netlist.circuits.len())?;
    for circuit in order {
        if is_marked(marks, *circuit) {
            let flat = inline(alloc, &netlist.circuits[*circuit as usize], goes, &flats)?;
            flats[*circuit as usize] = Some(flat);
        }
    }
    Ok(flats)
}

// A place for each circuit.
fn no_circuits(alloc: Global, count: usize) -> Result<Vec<Option<Circuit>>, AllocError>
    ensures { IfOk result (λ flats. length flats.items ≡ count) }
{
    let mut flats = Vec::with_capacity(alloc, count)?;
    for _ in 0..count {
        flats.push(None)?;
    }
    Ok(flats)
}
