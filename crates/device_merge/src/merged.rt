//! Netlists in which each group of alike transistors of a circuit is one.

ghost use Rattle.std.specs.Prelude.{◌≡◌, ◌++◌, ◌∷◌, [], ℕ, false, None, Some, IfErr, IfOk, OnOk};
ghost use Rattle.std.specs.Prelude.{map, slice_get};
ghost use Rattle.merge_laws.specs.Grouped.{is_too_wide, is_wide, merged_circuit, merged_netlist};
ghost use Rattle.net_model.specs.Rows.{plain_call, plain_circuit, plain_netlist};
ghost use Rattle.net_model.specs.Tests.{first_of};
ghost use Rattle.plain_netlist.specs.Netlist.{DeviceRow};
ghost use Rattle.plain_netlist.specs.Normal.{IsNormalNetlist};
ghost use Rattle.plain_netlist.specs.Sound.{IsSoundNetlist};
ghost use Rattle.device_merge.specs.Merged.{AreAllUnlike, AreMergedAlike, IsCircuitMergedBy};
ghost use Rattle.device_merge.specs.Merged.{IsMergeFault, IsMergedCircuit, IsNarrow};
ghost use Rattle.device_merge.specs.Merged.{has_alike, is_shorter};

use crate::fault::MergeFault;
use crate::groups::{WIDEST, merge_up_to};
use list_base::number;
use merge_laws::{merged_expansions, merging};
use net_model::{CallRow, Circuit, Netlist, copy_names};
use std::alloc::{AllocError, Global};

// The same calls.
fn copy_calls(alloc: Global, calls: &[CallRow]) -> Result<Vec<CallRow>, AllocError>
    ensures { IfOk result (λ copy. map plain_call copy.items ≡ map plain_call calls.now) }
{
    let mut copy = Vec::new(alloc);
    let mut rest = calls;
    'calls: while let [row, more @ ..] = rest {
        copy.push(row.try_clone(alloc)?)?;
        rest = more;
    }
    Ok(copy)
}

// The circuit with each group of alike transistors as one; none where one of them is wider than
// this, in femtometres.
fn circuit_up_to(alloc: Global, c: &Circuit, most: u128) -> Result<Option<Circuit>, AllocError>
    ensures { IfOk result (IsCircuitMergedBy most (plain_circuit c.now)) }
{
    let Some(devices) = merge_up_to(alloc, &c.devices, most)? else {
        return Ok(None);
    };
    Ok(Some(Circuit {
        name: c.name.try_clone(alloc)?,
        nets: copy_names(alloc, &c.nets)?,
        pins: c.pins.as_slice().to_vec(alloc)?,
        devices,
        calls: copy_calls(alloc, &c.calls)?,
    }))
}

// The circuit with each group of alike transistors as one; none where one of them is too wide.
fn merge_circuit(alloc: Global, c: &Circuit) -> Result<Option<Circuit>, AllocError>
    ensures { IfOk result (IsMergedCircuit (plain_circuit c.now)) }
{
    circuit_up_to(alloc, c, WIDEST)
}

fn add(circuits: &mut Vec<Circuit>, c: Circuit) -> Result<(), AllocError>
    ensures { OnOk result (map plain_circuit circuits.new.items
        ≡ map plain_circuit circuits.old.items ++ plain_circuit c ∷ []) }
{
    circuits.push(c)?;
    Ok(())
}

// The circuits of the netlist with each group of alike transistors as one.
fn merge_circuits(alloc: Global, n: &Netlist) -> Result<Vec<Circuit>, MergeFault>
    ensures merged { IfOk result (λ made. map plain_circuit made.items
        ≡ map merged_circuit (plain_netlist n.now).circuits) }
    ensures narrow { OnOk result (first_of is_too_wide (plain_netlist n.now).circuits ≡ None) }
    ensures cause { IfErr result (IsMergeFault (plain_netlist n.now)) }
{
    number(n.circuits.len())?;
    let mut circuits = Vec::new(alloc);
    let mut count = 0;
    let mut rest = n.circuits.as_slice();
    'circuits: while let [circuit, more @ ..] = rest {
        match merge_circuit(alloc, circuit)? {
            Some(merged) => add(&mut circuits, merged)?,
            None => return Err(MergeFault::TooWide(count)),
        }
        count += 1;
        rest = more;
    }
    Ok(circuits)
}

/// The netlist in which each group of alike transistors of a circuit is one, at the place and with
/// the terminals of its first, with the sum of the widths. All else stays. Transistors are alike
/// where they have one class whose first byte is above 32, the same length, gate and bulk, and the
/// same two source and drain nets, in either order.
///
/// `TooWide` names the first circuit of whose merged transistors one, of such a class, is wider
/// than 10^27 femtometres. No two alike transistors are left, and where both netlists are expanded
/// and each class of alike transistors is one, they are the same. Linear in the netlist: alike
/// transistors are found by a hash.
pub fn merge(alloc: Global, n: &Netlist) -> Result<Netlist, MergeFault>
    requires sound { IsSoundNetlist (plain_netlist n.now) }
    requires normal { IsNormalNetlist (plain_netlist n.now) }
    ensures merged { IfOk result (λ m. plain_netlist m ≡ merged_netlist (plain_netlist n.now)) }
    ensures sound { IfOk result (λ m. IsSoundNetlist (plain_netlist m)) }
    ensures normal { IfOk result (λ m. IsNormalNetlist (plain_netlist m)) }
    ensures unlike { IfOk result (λ m. AreAllUnlike (plain_netlist m)) }
    ensures same { IfOk result (λ m. AreMergedAlike (plain_netlist n.now) (plain_netlist m)) }
    ensures narrow { OnOk result (first_of is_too_wide (plain_netlist n.now).circuits ≡ None) }
    ensures widths { IfOk result (λ m. IsNarrow (plain_netlist m)) }
    ensures cause { IfErr result (IsMergeFault (plain_netlist n.now)) }
{
    merging();
    merged_expansions();
    let circuits = merge_circuits(alloc, n)?;
    Ok(Netlist { circuits })
}

// A circuit without too wide devices, with each group of alike transistors as one.
fn merge_narrow(alloc: Global, c: &Circuit) -> Result<Circuit, AllocError>
    requires { (i : ℕ) (row : DeviceRow) → slice_get (plain_circuit c.now).devices i ≡ Some row
        → is_wide row ≡ false }
    ensures { IfOk result (λ m. plain_circuit m ≡ merged_circuit (plain_circuit c.now)) }
{
    number(c.devices.len())?;
    let Some(merged) = circuit_up_to(alloc, c, u128::MAX)? else {
        unreachable!()
    };
    Ok(merged)
}

// Whether a merged circuit has less devices than the one that it was made of.
fn is_shorter(merged: &Circuit, c: &Circuit) -> bool
    requires { plain_circuit merged.now ≡ merged_circuit (plain_circuit c.now) }
    ensures { result ≡ is_shorter (plain_circuit c.now) }
{
    merged.devices.len() < c.devices.len()
}

/// A netlist merged once more, and whether that is another one: whether some transistors of a
/// circuit were alike.
#[derive(Drop)]
pub struct MergedAgain {
    pub netlist: Netlist,
    pub had_alike: bool,
}

/// A netlist without too wide devices, with each group of alike transistors of a circuit as one, as
/// in `merge`. It may have wider ones than `merge` leaves, and is never refused for that: less than
/// 2^32 devices of at most 10^27 femtometres are less than 2^128 wide. Linear. An `Err` is want of
/// memory, or 2^32 devices or more in a circuit.
pub fn merge_again(alloc: Global, n: &Netlist) -> Result<MergedAgain, AllocError>
    requires { IsNarrow (plain_netlist n.now) }
    ensures merged { IfOk result (λ m. plain_netlist m.netlist
        ≡ merged_netlist (plain_netlist n.now)) }
    ensures alike { IfOk result (λ m. m.had_alike ≡ has_alike (plain_netlist n.now)) }
{
    let mut circuits = Vec::new(alloc);
    let mut had_alike = false;
    let mut rest = n.circuits.as_slice();
    'circuits: while let [circuit, more @ ..] = rest {
        let merged = merge_narrow(alloc, circuit)?;
        had_alike = had_alike || is_shorter(&merged, circuit);
        add(&mut circuits, merged)?;
        rest = more;
    }
    Ok(MergedAgain {
        netlist: Netlist { circuits },
        had_alike,
    })
}
