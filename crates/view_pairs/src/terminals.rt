//! The terminals of all devices and calls of a pair.

ghost use Rattle.std.specs.Prelude.{◌≡◌, ◌++◌, IfOk, OnOk, map, slice_get};
ghost use Rattle.net_model.specs.Rows.{plain_call, plain_circuit, plain_device};
ghost use Rattle.plain_netlist.specs.Devices.{terminal_nets};
ghost use Rattle.view_pairs.specs.Joints.{call_joints, device_joints};
ghost use Rattle.view_pairs.specs.Marks.{joints_of};
ghost use Rattle.view_pairs.specs.Rows.{pins_of};
ghost use Rattle.view_pairs.specs.Terminals.{call_nets, entry_joints, free_joint, free_joints};
ghost use Rattle.view_pairs.specs.Terminals.{joints_of_calls, joints_of_devices, left_joints};

use crate::alike::{call_at, device_at};
use crate::joints::{Joint, push_call, push_device, push_lone};
use crate::partners::{Partner, Partners};
use crate::proposal::Proposal;
use match_types::Side;
use net_model::{CallRow, Circuit, DeviceRow};
use std::alloc::{AllocError, Global};

fn push_left_device(
    out: &mut Vec<Joint>,
    nets: &Partners,
    rights: &[DeviceRow],
    d: &DeviceRow,
    entry: Option<Partner>,
) -> Result<(), AllocError>
    ensures { OnOk result (out.new.items ≡ out.old.items ++ entry_joints terminal_nets
        (device_joints nets.now) (map plain_device rights.now) (plain_device d.now) entry) }
{
    match entry {
        Some(partner) => match device_at(rights, partner.number) {
            Some(e) => push_device(out, nets, d, e),
            None => Ok(()),
        },
        None => push_lone(out, Side::Layout, d.terminal_nets()),
    }
}

fn push_left_devices(
    out: &mut Vec<Joint>,
    nets: &Partners,
    rights: &[DeviceRow],
    lefts: &[DeviceRow],
    entries: &[Option<Partner>],
) -> Result<(), AllocError>
    ensures { OnOk result (out.new.items ≡ out.old.items ++ left_joints terminal_nets
        (device_joints nets.now) (map plain_device rights.now) (map plain_device lefts.now)
        entries.now) }
{
    let mut devices = lefts;
    let mut rest = entries;
    'devices: while let [d, others @ ..] = devices {
        let [entry, more @ ..] = rest else {
            return Ok(());
        };
        push_left_device(out, nets, rights, d, *entry)?;
        devices = others;
        rest = more;
    }
    Ok(())
}

fn push_free_device(out: &mut Vec<Joint>, rights: &[DeviceRow], k: u32) -> Result<(), AllocError>
    ensures { OnOk result (out.new.items ≡ out.old.items
        ++ free_joint terminal_nets (slice_get (map plain_device rights.now) k)) }
{
    match device_at(rights, k) {
        Some(e) => push_lone(out, Side::Schematic, e.terminal_nets()),
        None => Ok(()),
    }
}

fn push_free_devices(
    out: &mut Vec<Joint>,
    rights: &[DeviceRow],
    free: &[u32],
) -> Result<(), AllocError>
    ensures { OnOk result (out.new.items ≡ out.old.items
        ++ free_joints terminal_nets (map plain_device rights.now) free.now) }
{
    let mut rest = free;
    'devices: while let [k, more @ ..] = rest {
        push_free_device(out, rights, *k)?;
        rest = more;
    }
    Ok(())
}

fn push_devices(
    out: &mut Vec<Joint>,
    left: &Circuit,
    right: &Circuit,
    nets: &Partners,
    devices: &Partners,
) -> Result<(), AllocError>
    ensures { OnOk result (out.new.items ≡ out.old.items ++ joints_of_devices
        (plain_circuit left.now) (plain_circuit right.now) nets.now devices.now) }
{
    push_left_devices(out, nets, &right.devices, &left.devices, &devices.lefts)?;
    push_free_devices(out, &right.devices, &devices.free)
}

fn push_left_call(
    out: &mut Vec<Joint>,
    before: &[Proposal],
    rights: &[CallRow],
    c: &CallRow,
    entry: Option<Partner>,
) -> Result<(), AllocError>
    ensures { OnOk result (out.new.items ≡ out.old.items ++ entry_joints call_nets
        (call_joints (pins_of before.now)) (map plain_call rights.now) (plain_call c.now) entry) }
{
    match entry {
        Some(partner) => match call_at(rights, partner.number) {
            Some(e) => push_call(out, before, c, e),
            None => Ok(()),
        },
        None => push_lone(out, Side::Layout, &c.nets),
    }
}

fn push_left_calls(
    out: &mut Vec<Joint>,
    before: &[Proposal],
    rights: &[CallRow],
    lefts: &[CallRow],
    entries: &[Option<Partner>],
) -> Result<(), AllocError>
    ensures { OnOk result (out.new.items ≡ out.old.items ++ left_joints call_nets
        (call_joints (pins_of before.now)) (map plain_call rights.now) (map plain_call lefts.now)
        entries.now) }
{
    let mut calls = lefts;
    let mut rest = entries;
    'calls: while let [c, others @ ..] = calls {
        let [entry, more @ ..] = rest else {
            return Ok(());
        };
        push_left_call(out, before, rights, c, *entry)?;
        calls = others;
        rest = more;
    }
    Ok(())
}

fn push_free_call(out: &mut Vec<Joint>, rights: &[CallRow], k: u32) -> Result<(), AllocError>
    ensures { OnOk result (out.new.items ≡ out.old.items
        ++ free_joint call_nets (slice_get (map plain_call rights.now) k)) }
{
    match call_at(rights, k) {
        Some(e) => push_lone(out, Side::Schematic, &e.nets),
        None => Ok(()),
    }
}

fn push_free_calls(out: &mut Vec<Joint>, rights: &[CallRow], free: &[u32]) -> Result<(), AllocError>
    ensures { OnOk result (out.new.items ≡ out.old.items
        ++ free_joints call_nets (map plain_call rights.now) free.now) }
{
    let mut rest = free;
    'calls: while let [k, more @ ..] = rest {
        push_free_call(out, rights, *k)?;
        rest = more;
    }
    Ok(())
}

fn push_calls(
    out: &mut Vec<Joint>,
    left: &Circuit,
    right: &Circuit,
    before: &[Proposal],
    calls: &Partners,
) -> Result<(), AllocError>
    ensures { OnOk result (out.new.items ≡ out.old.items ++ joints_of_calls
        (plain_circuit left.now) (plain_circuit right.now) (pins_of before.now) calls.now) }
{
    push_left_calls(out, before, &right.calls, &left.calls, &calls.lefts)?;
    push_free_calls(out, &right.calls, &calls.free)
}

/// The terminals of all devices and calls, with those of their partners. Linear in them.
pub fn joints_of(
    alloc: Global,
    left: &Circuit,
    right: &Circuit,
    before: &[Proposal],
    proposal: &Proposal,
) -> Result<Vec<Joint>, AllocError>
    ensures { IfOk result (λ joints. joints.items ≡ joints_of (plain_circuit left.now)
        (plain_circuit right.now) (pins_of before.now) proposal.now) }
{
    let mut out = Vec::new(alloc);
    push_devices(&mut out, left, right, &proposal.nets, &proposal.devices)?;
    push_calls(&mut out, left, right, before, &proposal.calls)?;
    Ok(out)
}
