//! One side of an aligned pair.
ghost use Rattle.std.specs.Prelude.{◌≡◌, ◌&&◌, not, IfOk, length};
ghost use Rattle.call_order.specs.Order.{IsCallOrder};
ghost use Rattle.net_align.specs.Flattened.{AreClosed};
ghost use Rattle.net_align.specs.Kept.{Flattened};
ghost use Rattle.net_align.specs.Side.{AreGoing, AreMarkedCircuits, IsGiven, IsSide};
ghost use Rattle.net_align.specs.Sights.{is_kept};
ghost use Rattle.net_align.specs.Walked.{AreHolding};
ghost use Rattle.net_model.specs.Faults.{call_lists};
ghost use Rattle.net_model.specs.Rows.{plain_netlist};
ghost use Rattle.plain_netlist.specs.Lists.{AreApart};

use crate::flatten::flatten;
use crate::held::{cut_kept, held_pins};
use crate::numbers::Numbers;
use net_model::Netlist;
use std::alloc::{AllocError, Global};

/// The kept circuits of a netlist, each flattened and cut, in the order given. `marks` has the
/// circuits that the top calls, `holds` those with a device in or below them.
///
/// Linear in what is made: a circuit that goes is appended once for each call.
pub fn align_side(
    alloc: Global,
    netlist: &Netlist,
    order: &[u32],
    marks: &[bool],
    holds: &[bool],
    circuits: &[u32],
) -> Result<Netlist, AllocError>
    ghost given: { Flattened }
    requires given { IsGiven (plain_netlist netlist.now)
        order.now marks.now holds.now circuits.now given }
    requires order { IsCallOrder (call_lists (plain_netlist netlist.now)) order.now }
    requires closed { AreClosed (plain_netlist netlist.now) marks.now }
    requires holds { AreHolding (plain_netlist netlist.now) holds.now }
    requires marked { AreMarkedCircuits (plain_netlist netlist.now) marks.now circuits.now }
    requires apart { AreApart circuits.now }
    ensures { IfOk result (λ side.
        IsSide (plain_netlist netlist.now) circuits.now (plain_netlist side)) }
{
    let numbers = Numbers::of(alloc, circuits, netlist.circuits.len())?;
    let goes = going(alloc, &numbers.places, holds)?;
    let flats = flatten(alloc, netlist, order, marks, &goes)?;
    let held = held_pins(alloc, order, &flats, &numbers.places)?;
    let kept = cut_kept(alloc, circuits, &flats, &numbers.places, &held)?;
    Ok(Netlist { circuits: kept })
}

// The circuits that go into their callers.
fn going(alloc: Global, numbers: &[Option<u32>], holds: &[bool]) -> Result<Vec<bool>, AllocError>
    ensures { IfOk result (λ goes.
        AreGoing numbers.now holds.now (length holds.now) goes.items) }
{
    let mut goes = Vec::with_capacity(alloc, holds.len())?;
    for c in 0..holds.len() {
        goes.push(goes_in(numbers, holds[c], c))?;
    }
    Ok(goes)
}

fn goes_in(numbers: &[Option<u32>], holds: bool, c: usize) -> bool
    ensures { result ≡ (not (is_kept numbers.now c) && holds) }
{
    let kept = match numbers.get(c) {
        Some(number) => number.is_some(),
        None => false,
    };
    !kept && holds
}
