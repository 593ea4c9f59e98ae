//! Marks of circuits.
ghost use Rattle.std.specs.Prelude.{◌≡◌, ◌<◌, IfOk, length, map};
ghost use Rattle.net_align.specs.Laid.{AreCircuitsBelow};
ghost use Rattle.net_align.specs.Marks.{AreCallsOfCircuits, FindsSole, circuits_called, marked};
ghost use Rattle.net_model.specs.Rows.{plain_netlist};

use net_model::{CallRow, Netlist};
use std::alloc::{AllocError, Global};

/// For each circuit whether a call names it. Linear in the calls.
pub fn called_circuits(alloc: Global, netlist: &Netlist) -> Result<Vec<bool>, AllocError>
    requires { AreCallsOfCircuits (plain_netlist netlist.now) }
    ensures { IfOk result (λ marks. marks.items ≡ circuits_called (plain_netlist netlist.now)) }
{
    let mut marks = vec![in alloc; false; netlist.circuits.len()]?;
    for circuit in &netlist.circuits {
        mark_called(&circuit.calls, &mut marks);
    }
    Ok(marks)
}

/// Sets the mark of each circuit that is called.
pub fn mark_called(calls: &[CallRow], marks: &mut Vec<bool>)
    requires { AreCircuitsBelow calls.now (length marks.old.items) }
    ensures { marks.new.items ≡ marked (map (λ r. r.circuit) calls.now) marks.old.items }
{
    for call in calls {
        marks[call.circuit as usize] = true;
    }
}

/// The number whose mark isn't set, where there is exactly one.
pub fn sole_unmarked(marks: &[bool]) -> Option<usize>
    ensures { FindsSole marks.now result }
{
    let mut found = None;
    for i in 0..marks.len() {
        if !marks[i] {
            if found.is_some() {
                return None;
            }
            found = Some(i);
        }
    }
    found
}
