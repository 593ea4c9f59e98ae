//! Which circuits each circuit calls, and the first that calls itself.

ghost use Rattle.std.specs.Prelude.{◌≡◌, ◌<◌, ◌^◌, IfOk, length, map};
ghost use Rattle.call_order.specs.Order.{lists, AreInRange};
ghost use Rattle.net_model.specs.Faults.{called_by, FindsCycle, CallListsLaw};
ghost use Rattle.net_model.specs.Rows.{plain_circuit};

use crate::netlist::{CallRow, Circuit};
use call_order::{CallOrder, call_order};
use std::alloc::{AllocError, Global};

/// For each circuit, the numbers of those that its calls call, in the calls' order.
pub fn call_lists(alloc: Global, circuits: &[Circuit]) -> Result<Vec<Vec<u32>>, AllocError>
    ensures { IfOk result (λ rows.
        lists rows.items ≡ map called_by (map plain_circuit circuits.now)) }
{
    let mut rows = Vec::with_capacity(alloc, circuits.len())?;
    for circuit in circuits {
        rows.push(called_by(alloc, circuit)?)?;
    }
    Ok(rows)
}

fn called_by(alloc: Global, circuit: &Circuit) -> Result<Vec<u32>, AllocError>
    ensures { IfOk result (λ row. row.items ≡ called_by (plain_circuit circuit.now)) }
{
    numbers(alloc, &circuit.calls)
}

fn numbers(alloc: Global, calls: &[CallRow]) -> Result<Vec<u32>, AllocError>
    ensures { IfOk result (λ row. row.items ≡ map (λ r. r.circuit) calls.now) }
{
    calls.iter().map(|r| r.circuit).collect(alloc)
}

/// The first circuit that calls itself, at once or through others.
pub fn first_cycle(alloc: Global, circuits: &[Circuit]) -> Result<Option<u32>, AllocError>
    requires range { AreInRange (map called_by (map plain_circuit circuits.now)) }
    requires few { length circuits.now < 2 ^ 32 }
    ensures { IfOk result (FindsCycle (map called_by (map plain_circuit circuits.now))) }
{
    let calls = call_lists(alloc, circuits)?;
    match call_order(alloc, &calls)? {
        CallOrder::CalleesFirst(_) => Ok(None),
        CallOrder::Cycle(k) => Ok(Some(k)),
    }
}

/// Calls and cycles of a netlist are those of its lists of calls.
pub fn call_list_laws()
    ensures { CallListsLaw }
{}
