//! The section of the schematic.

ghost use Rattle.std.specs.Prelude.{◌≡◌, ◌<◌, ◌^◌, ℕ, IfOk, OnOk, length, map};
ghost use Rattle.std.specs.List.{All};
ghost use Rattle.call_order.specs.Order.{AreInRange, IsCallOrder, ReachesItself};
ghost use Rattle.net_model.specs.Faults.{called_by};
ghost use Rattle.net_model.specs.Rows.{plain_circuit};
ghost use Rattle.spice_text.specs.Written.{Adds};
ghost use Rattle.view_netlist.specs.Kinds.{class_seen};
ghost use Rattle.view_netlist.specs.Section.{AreOwnNames, IsSchematicText, IsSectionText};

use crate::circuits::push_circuits;
use crate::classes::{push_classes, used_classes};
use crate::drawing::Names;
use crate::kinds::DeviceClass;
use call_order::{CallOrder, call_order};
use net_model::{Circuit, call_lists};
use std::alloc::{AllocError, Global};

fn own_names(alloc: Global, circuits: &[Circuit]) -> Result<Names, AllocError>
    ensures { IfOk result (AreOwnNames (map plain_circuit circuits.now)) }
{
    let mut names = Vec::new(alloc);
    let mut rest = circuits;
    'circuits: while let [c, more @ ..] = rest {
        names.push(c.name.try_clone(alloc)?)?;
        rest = more;
    }
    Ok(Names {
        layers: Vec::new(alloc),
        circuits: names,
    })
}

// The numbers of all circuits, each behind those that it calls.
fn callees_first(alloc: Global, circuits: &[Circuit]) -> Result<Vec<u32>, AllocError>
    requires range { AreInRange (map called_by (map plain_circuit circuits.now)) }
    requires no_cycle { (k : ℕ)
        → ReachesItself (map called_by (map plain_circuit circuits.now)) k → ⊥ }
    requires few { length circuits.now < 2 ^ 32 }
    ensures { IfOk result (λ order.
        IsCallOrder (map called_by (map plain_circuit circuits.now)) order.items) }
{
    let calls = call_lists(alloc, circuits)?;
    match call_order(alloc, &calls)? {
        CallOrder::CalleesFirst(order) => Ok(order),
        CallOrder::Cycle(_) => Ok(Vec::new(alloc)),
    }
}

fn push_section(
    alloc: Global,
    out: &mut Vec<u8>,
    names: &Names,
    classes: &[DeviceClass<'_>],
    circuits: &[Circuit],
    order: &[u32],
) -> Result<(), AllocError>
    requires { All (λ k. k < length circuits.now) order.now }
    ensures { OnOk result (Adds (IsSectionText names.now (map class_seen classes.now)
        (map plain_circuit circuits.now) order.now) out.old.items out.new.items) }
{
    out.extend_from_slice(b"\nH(")?;
    push_classes(alloc, out, classes)?;
    push_circuits(alloc, out, names, &[], circuits, order)?;
    out.extend_from_slice(b"\n)")
}

/// Appends the section of a schematic: the classes of its devices, then its circuits, each behind
/// those that it calls. Linear in the text. An `Err` is want of memory, or 2^32 of a kind in a
/// circuit.
pub fn push_schematic(
    alloc: Global,
    out: &mut Vec<u8>,
    circuits: &[Circuit],
) -> Result<(), AllocError>
    requires range { AreInRange (map called_by (map plain_circuit circuits.now)) }
    requires no_cycle { (k : ℕ)
        → ReachesItself (map called_by (map plain_circuit circuits.now)) k → ⊥ }
    requires few { length circuits.now < 2 ^ 32 }
    ensures { OnOk result (Adds (IsSchematicText (map plain_circuit circuits.now))
        out.old.items out.new.items) }
{
    let names = own_names(alloc, circuits)?;
    let order = callees_first(alloc, circuits)?;
    let classes = used_classes(alloc, circuits)?;
    push_section(alloc, out, &names, &classes, circuits, &order)?;
    Ok(())
}
