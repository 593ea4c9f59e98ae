//! The circuits of a netlist with callees first, those that are called from a top, and those with
//! devices in or below them.
ghost use Rattle.std.specs.Prelude.{◌≡◌, ◌<◌, ◌^◌, ℕ, IfOk, length, slice_index_or, false};
ghost use Rattle.std.specs.List.{list_any};
ghost use Rattle.call_order.specs.Order.{IsCallOrder};
ghost use Rattle.net_align.specs.Marks.{AreCallsOfCircuits};
ghost use Rattle.net_align.specs.Walked.{AreReached, AreHolding, holds};
ghost use Rattle.net_model.specs.Faults.{call_lists};
ghost use Rattle.net_model.specs.Rows.{plain_netlist};
ghost use Rattle.plain_netlist.specs.Sound.{IsInCycle};

use crate::marks::mark_called;
use call_order::{CallOrder, call_order};
use net_model::{CallRow, Circuit, Netlist, call_lists};
use std::alloc::{AllocError, Global};

/// The numbers of all circuits, each behind those that it calls. Linear in the calls.
pub fn circuit_order(alloc: Global, netlist: &Netlist) -> Result<Vec<u32>, AllocError>
    requires calls { AreCallsOfCircuits (plain_netlist netlist.now) }
    requires no_cycle { (c : ℕ) → IsInCycle (plain_netlist netlist.now) c → ⊥ }
    requires few { length netlist.now.circuits.items < 2 ^ 32 }
    ensures { IfOk result (λ order.
        IsCallOrder (call_lists (plain_netlist netlist.now)) order.items) }
{
    let calls = call_lists(alloc, &netlist.circuits)?;
    match call_order(alloc, &calls)? {
        CallOrder::CalleesFirst(order) => Ok(order),
        CallOrder::Cycle(_) => Ok(Vec::new(alloc)),
    }
}

/// For each circuit whether it is the top or called from it, at once or through others.
///
/// Linear in the calls.
pub fn reached(
    alloc: Global,
    netlist: &Netlist,
    order: &[u32],
    top: usize,
) -> Result<Vec<bool>, AllocError>
    requires calls { AreCallsOfCircuits (plain_netlist netlist.now) }
    requires order { IsCallOrder (call_lists (plain_netlist netlist.now)) order.now }
    requires top { top < length netlist.now.circuits.items }
    ensures { IfOk result (λ marks. AreReached (plain_netlist netlist.now) top marks.items) }
{
    let mut marks = vec![in alloc; false; netlist.circuits.len()]?;
    marks[top] = true;
    for i in 0..order.len() {
        let circuit = order[order.len() - 1 - i];
        if is_marked(&marks, circuit) {
            mark_called(&netlist.circuits[circuit as usize].calls, &mut marks);
        }
    }
    Ok(marks)
}

/// For each circuit whether a device stands in it or below it. Linear in the calls.
pub fn holding(alloc: Global, netlist: &Netlist, order: &[u32]) -> Result<Vec<bool>, AllocError>
    requires { IsCallOrder (call_lists (plain_netlist netlist.now)) order.now }
    ensures { IfOk result (λ marks. AreHolding (plain_netlist netlist.now) marks.items) }
{
    let mut marks = vec![in alloc; false; netlist.circuits.len()]?;
    for circuit in order {
        let found = holds(&marks, &netlist.circuits[*circuit as usize]);
        marks[*circuit as usize] = found;
    }
    Ok(marks)
}

fn holds(marks: &[bool], circuit: &Circuit) -> bool
    ensures { result ≡ holds marks.now circuit.now }
{
    !circuit.devices.is_empty() || calls_marked(marks, &circuit.calls)
}

fn calls_marked(marks: &[bool], calls: &[CallRow]) -> bool
    ensures { result ≡ list_any (λ r. slice_index_or marks.now r.circuit false) calls.now }
{
    calls.iter().any(|call| is_marked(marks, call.circuit))
}

/// Whether there is a mark and it is set.
pub fn is_marked(marks: &[bool], circuit: u32) -> bool
    ensures { result ≡ slice_index_or marks.now circuit false }
{
    match marks.get(circuit as usize) {
        Some(mark) => *mark,
        None => false,
    }
}
