//! Whether a netlist is sound, or its first fault.

ghost use Rattle.std.specs.Prelude.{OnOk, IfErr, map};
ghost use Rattle.plain_netlist.specs.Sound.{IsSoundNetlist};
ghost use Rattle.net_model.specs.Faults.{IsNetFault};
ghost use Rattle.net_model.specs.Rows.{plain_netlist, plain_circuit};

use crate::calls::first_cycle;
use crate::fault::NetFault;
use crate::names::first_clash;
use crate::netlist::{Circuit, Netlist};
use crate::ranges::{first_bad_terminal, first_missing, first_other_count};
use list_base::number;
use std::alloc::Global;

/// Ok where the netlist is sound, else its first fault, in the order of `NetFault`, with the first
/// circuit that shows it.
///
/// Linear in the netlist: names are found by their hashes, and calls are walked once.
pub fn check(alloc: Global, n: &Netlist) -> Result<(), NetFault>
    ensures sound { OnOk result (IsSoundNetlist (plain_netlist n.now)) }
    ensures fault { IfErr result (IsNetFault (plain_netlist n.now)) }
{
    check_circuits(alloc, &n.circuits)
}

fn check_circuits(alloc: Global, circuits: &[Circuit]) -> Result<(), NetFault>
    ensures sound { OnOk result
        (IsSoundNetlist (record { circuits = map plain_circuit circuits.now })) }
    ensures fault { IfErr result
        (IsNetFault (record { circuits = map plain_circuit circuits.now })) }
{
    number(circuits.len())?;
    if let Some(k) = first_clash(alloc, circuits)? {
        return Err(NetFault::NameClash(k));
    }
    if let Some(k) = first_bad_terminal(circuits) {
        return Err(NetFault::BadTerminal(k));
    }
    if let Some(k) = first_missing(circuits) {
        return Err(NetFault::NoSuchCircuit(k));
    }
    if let Some(k) = first_other_count(circuits) {
        return Err(NetFault::PinCount(k));
    }
    if let Some(k) = first_cycle(alloc, circuits)? {
        return Err(NetFault::CircuitCycle(k));
    }
    Ok(())
}
