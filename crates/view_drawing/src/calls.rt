//! The motions of calls.

ghost use Rattle.std.specs.Prelude.{◌≡◌, ◌≤◌, ◌↔◌, ◌++◌, ◌∷◌, [], ℕ, IfOk, IsErrOf, IsSome, IsTrue};
ghost use Rattle.std.specs.Prelude.{OnOk, Some, length, slice_get};
ghost use Rattle.deep_tables.specs.Entries.{entry};
ghost use Rattle.net_walk.specs.declared.cells.Element.{Element};
ghost use Rattle.std.specs.List.{All};
ghost use Rattle.view_netlist.specs.Drawing.{IsSmallShift};
ghost use Rattle.view_drawing.specs.Calls.{called_motions, has_circuit};
ghost use Rattle.view_drawing.specs.Far.{HasFarCall, IsFarCall, IsFarShift};

use crate::small::is_small_point;
use deep_tables::Circuits;
use geo_base::{Motion, Point};
use net_walk::Element;
use std::alloc::Global;
use view_shapes::ShowFault;

/// Whether a cell has a circuit.
pub fn has_circuit(circuits: &Circuits, cell: u32) -> bool
    requires { IsSome (entry circuits.now cell) }
    ensures { result ≡ has_circuit circuits.now cell }
{
    match circuits.of(cell) {
        Some(_) => true,
        None => false,
    }
}

/// Whether both parts of a motion's shift are small.
pub fn is_small_shift(motion: &Motion) -> bool
    ensures { IsTrue result ↔ IsSmallShift motion.now }
{
    is_small_point(Point {
        x: motion.dx,
        y: motion.dy,
    })
}

fn keep(out: &mut Vec<Motion>, motion: Motion) -> Result<(), ShowFault>
    ensures kept { OnOk result (out.new.items ≡ out.old.items ++ motion ∷ []) }
    ensures small { OnOk result (All IsSmallShift out.old.items → All IsSmallShift out.new.items) }
    ensures far { IsErrOf result ShowFault.TooFar → IsFarShift motion }
{
    if !is_small_shift(&motion) {
        return Err(ShowFault::TooFar);
    }
    match out.push(motion) {
        Ok(()) => Ok(()),
        Err(_) => Err(ShowFault::NoMemory),
    }
}

// Adds the motion of a placement whose cell has a circuit.
fn add_call(circuits: &Circuits, element: &Element, out: &mut Vec<Motion>) -> Result<(), ShowFault>
    requires { IsSome (entry circuits.now element.now.cell) }
    ensures added { OnOk result (out.new.items
        ≡ out.old.items ++ called_motions circuits.now (element.now ∷ [])) }
    ensures small { OnOk result (All IsSmallShift out.old.items → All IsSmallShift out.new.items) }
    ensures far { IsErrOf result ShowFault.TooFar → IsFarCall circuits.now element.now }
{
    if has_circuit(circuits, element.cell) {
        keep(out, element.motion)?;
        return Ok(());
    }
    Ok(())
}

// One where a placement's cell has a circuit.
fn count_call(circuits: &Circuits, element: &Element) -> usize
    requires { IsSome (entry circuits.now element.now.cell) }
    ensures calls { result ≡ length (called_motions circuits.now (element.now ∷ [])) }
    ensures most { result ≤ 1 }
{
    let is_call = has_circuit(circuits, element.cell);
    if is_call { 1 } else { 0 }
}

// How many placements of a cell have circuits.
fn count_calls(circuits: &Circuits, elements: &[Element]) -> usize
    requires { (k : ℕ) (e : Element) → slice_get elements.now k ≡ Some e
        → IsSome (entry circuits.now e.cell) }
    ensures { result ≡ length (called_motions circuits.now elements.now) }
{
    let mut count = 0usize;
    'elements: for k in 0..elements.len() {
        count += count_call(circuits, &elements[k]);
    }
    count
}

/// The motions of those placements of a cell whose cells have circuits, in order. `TooFar` where
/// one is 2^30 or more from the origin. Linear in the placements.
pub fn call_motions(
    alloc: Global,
    circuits: &Circuits,
    elements: &[Element],
) -> Result<Vec<Motion>, ShowFault>
    requires { (k : ℕ) (e : Element) → slice_get elements.now k ≡ Some e
        → IsSome (entry circuits.now e.cell) }
    ensures motions { IfOk result (λ v. v.items ≡ called_motions circuits.now elements.now) }
    ensures small { IfOk result (λ v. All IsSmallShift v.items) }
    ensures far { IsErrOf result ShowFault.TooFar → HasFarCall circuits.now elements.now }
{
    let mut out = Vec::with_capacity(alloc, count_calls(circuits, elements))?;
    'elements: for k in 0..elements.len() {
        add_call(circuits, &elements[k], &mut out)?;
    }
    Ok(out)
}
