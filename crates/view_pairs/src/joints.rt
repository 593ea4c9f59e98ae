//! Terminals of partners, and whether they are met.

ghost use Rattle.std.specs.Prelude.{◌≡◌, ◌++◌, ◌≤◌, ◌||◌, IfOk, OnOk, [], get_or, slice_get, take};
ghost use Rattle.std.specs.List.{list_all};
ghost use Rattle.net_model.specs.Rows.{plain_call, plain_device};
ghost use Rattle.view_pairs.specs.Joints.{call_joints, device_joints, ends_seen, met_joints};
ghost use Rattle.view_pairs.specs.Joints.{other_joints};
ghost use Rattle.view_pairs.specs.Joints.{is_met, joint_at, lone, lone_joints, net_in};
ghost use Rattle.view_pairs.specs.Joints.{odd_left, odd_lefts, odd_right, odd_rights, pin_joints};
ghost use Rattle.view_pairs.specs.Partners.{meets, number_in};
ghost use Rattle.view_pairs.specs.Rows.{pins_of};

use crate::alike::number_at;
use crate::partners::{Partner, Partners};
use crate::proposal::Proposal;
use list_base::number;
use match_types::Side;
use net_model::{CallRow, DeviceRow};
use plain_netlist::DeviceKind;
use std::alloc::{AllocError, Global};

/// The nets at a terminal of a left node and of its partner; or the only one's, where a node has no
/// partner.
#[derive(Clone, Copy, Debug, PartialEq, Eq)]
pub enum Joint {
    Both(u32, u32),
    Left(u32),
    Right(u32),
}

/// Whether the nets at a terminal are partners.
pub fn is_met(nets: &Partners, joint: Joint) -> bool
    ensures { result ≡ is_met nets.now joint }
{
    match joint {
        Joint::Both(n, m) => nets.meet(n, m),
        Joint::Left(_) => false,
        Joint::Right(_) => false,
    }
}

/// Whether all are.
pub fn are_met(nets: &Partners, joints: &[Joint]) -> bool
    ensures { result ≡ list_all (is_met nets.now) joints.now }
{
    let mut rest = joints;
    'joints: while let [joint, more @ ..] = rest {
        if !is_met(nets, *joint) {
            return false;
        }
        rest = more;
    }
    true
}

// The two ends, if the device has such.
fn ends_of(d: &DeviceRow) -> Option<(u32, u32)>
    ensures { ends_seen result ≡ (plain_device d.now).ends }
{
    match d.kind {
        DeviceKind::Mos4 => Some((d.nets[2], d.nets[0])),
        DeviceKind::ResistorWithBulk => Some((d.nets[2], d.nets[0])),
        DeviceKind::Diode => None,
    }
}

fn are_ends_met(nets: &Partners, x: (u32, u32), y: (u32, u32)) -> bool
    ensures { result ≡ meets nets.now x.0 y.0 || meets nets.now x.1 y.1 }
{
    nets.meet(x.0, y.0) || nets.meet(x.1, y.1)
}

fn push_ends(
    out: &mut Vec<Joint>,
    nets: &Partners,
    x: Option<(u32, u32)>,
    y: Option<(u32, u32)>,
) -> Result<(), AllocError>
    ensures { OnOk result (out.new.items ≡ out.old.items ++ met_joints nets.now (ends_seen x) (ends_seen y)) }
{
    let (Some(ends), Some(others)) = (x, y) else {
        return Ok(());
    };
    let turned = (others.1, others.0);
    let is_crossed = !are_ends_met(nets, ends, others) && are_ends_met(nets, ends, turned);
    let right = if is_crossed { turned } else { others };
    out.push(Joint::Both(ends.0, right.0))?;
    out.push(Joint::Both(ends.1, right.1))?;
    Ok(())
}

// The other terminals: so many of these, in their order.
fn others_of(d: &DeviceRow) -> ([u32; 2], usize)
    ensures few { result.1 ≤ 2 }
    ensures others { take result.1 result.0 ≡ (plain_device d.now).others }
{
    match d.kind {
        DeviceKind::Mos4 => ([d.nets[1], d.nets[3]], 2),
        DeviceKind::ResistorWithBulk => ([d.nets[1], 0], 1),
        DeviceKind::Diode => ([d.nets[0], d.nets[1]], 2),
    }
}

fn push_others(out: &mut Vec<Joint>, lefts: &[u32], rights: &[u32]) -> Result<(), AllocError>
    ensures { OnOk result (out.new.items ≡ out.old.items ++ other_joints lefts.now rights.now) }
{
    let mut rest = lefts;
    let mut behind = rights;
    'others: while let [n, more @ ..] = rest {
        let [m, later @ ..] = behind else {
            return Ok(());
        };
        out.push(Joint::Both(*n, *m))?;
        rest = more;
        behind = later;
    }
    Ok(())
}

/// Adds the terminals of a device and its partner.
pub fn push_device(
    out: &mut Vec<Joint>,
    nets: &Partners,
    d: &DeviceRow,
    e: &DeviceRow,
) -> Result<(), AllocError>
    ensures { OnOk result (out.new.items ≡ out.old.items
        ++ device_joints nets.now (plain_device d.now) (plain_device e.now)) }
{
    let (lefts, left_count) = others_of(d);
    let (rights, right_count) = others_of(e);
    push_others(out, &lefts[..left_count], &rights[..right_count])?;
    push_ends(out, nets, ends_of(d), ends_of(e))
}

fn lone(side: Side, n: u32) -> Joint
    ensures { result ≡ lone side n }
{
    match side {
        Side::Layout => Joint::Left(n),
        Side::Schematic => Joint::Right(n),
    }
}

/// Adds the nets of a device or call that has no partner.
pub fn push_lone(out: &mut Vec<Joint>, side: Side, nets: &[u32]) -> Result<(), AllocError>
    ensures { OnOk result (out.new.items ≡ out.old.items ++ lone_joints side nets.now) }
{
    let mut rest = nets;
    'nets: while let [net, more @ ..] = rest {
        out.push(lone(side, *net))?;
        rest = more;
    }
    Ok(())
}

// The partner of a pin.
fn pin_at(pins: &[Option<Partner>], k: u32) -> Option<u32>
    ensures { result ≡ number_in (slice_get pins.now k) }
{
    match pins.get(k as usize) {
        Some(Some(partner)) => Some(partner.number),
        Some(None) => None,
        None => None,
    }
}

fn net_in(nets: &[u32], pin: Option<u32>) -> Option<u32>
    ensures { result ≡ net_in nets.now pin }
{
    match pin {
        Some(k) => number_at(nets, k),
        None => None,
    }
}

fn push_joint(out: &mut Vec<Joint>, n: u32, m: Option<u32>) -> Result<(), AllocError>
    ensures { OnOk result (out.new.items ≡ out.old.items ++ joint_at n m) }
{
    match m {
        Some(right) => {
            out.push(Joint::Both(n, right))?;
            Ok(())
        }
        None => Ok(()),
    }
}

fn push_pins(
    out: &mut Vec<Joint>,
    pins: &[Option<Partner>],
    lefts: &[u32],
    rights: &[u32],
) -> Result<(), AllocError>
    ensures { OnOk result (out.new.items ≡ out.old.items
        ++ pin_joints pins.now 0 lefts.now rights.now) }
{
    number(lefts.len())?;
    let mut k = 0;
    let mut rest = lefts;
    'pins: while let [n, more @ ..] = rest {
        push_joint(out, *n, net_in(rights, pin_at(pins, k)))?;
        k += 1;
        rest = more;
    }
    Ok(())
}

// The partners of the pins of a pair; none past the last pair.
fn pins_in<'a>(proposals: &'a [Proposal], pair: u32) -> &'a [Option<Partner>]
    ensures { result.now ≡ get_or (pins_of proposals.now) pair [] }
{
    match proposals.get(pair as usize) {
        Some(proposal) => proposal.pins.lefts.as_slice(),
        None => &[],
    }
}

/// Adds the pins of a call and its partner, where they have partners in the called pair.
pub fn push_call(
    out: &mut Vec<Joint>,
    proposals: &[Proposal],
    c: &CallRow,
    e: &CallRow,
) -> Result<(), AllocError>
    ensures { OnOk result (out.new.items ≡ out.old.items
        ++ call_joints (pins_of proposals.now) (plain_call c.now) (plain_call e.now)) }
{
    push_pins(out, pins_in(proposals, c.circuit), &c.nets, &e.nets)
}

// The left net at a terminal that isn't met.
fn push_odd_left(out: &mut Vec<u32>, nets: &Partners, joint: Joint) -> Result<(), AllocError>
    ensures { OnOk result (out.new.items ≡ out.old.items ++ odd_left nets.now joint) }
{
    match joint {
        Joint::Both(n, m) => {
            if !nets.meet(n, m) {
                out.push(n)?;
            }
            Ok(())
        }
        Joint::Left(n) => {
            out.push(n)?;
            Ok(())
        }
        Joint::Right(_) => Ok(()),
    }
}

fn push_odd_right(out: &mut Vec<u32>, nets: &Partners, joint: Joint) -> Result<(), AllocError>
    ensures { OnOk result (out.new.items ≡ out.old.items ++ odd_right nets.now joint) }
{
    match joint {
        Joint::Both(n, m) => {
            if !nets.meet(n, m) {
                out.push(m)?;
            }
            Ok(())
        }
        Joint::Left(_) => Ok(()),
        Joint::Right(m) => {
            out.push(m)?;
            Ok(())
        }
    }
}

/// The left nets at terminals that aren't met.
pub fn odd_lefts(alloc: Global, nets: &Partners, joints: &[Joint]) -> Result<Vec<u32>, AllocError>
    ensures { IfOk result (λ out. out.items ≡ odd_lefts nets.now joints.now) }
{
    let mut out = Vec::new(alloc);
    let mut rest = joints;
    'joints: while let [joint, more @ ..] = rest {
        push_odd_left(&mut out, nets, *joint)?;
        rest = more;
    }
    Ok(out)
}

/// The right ones.
pub fn odd_rights(alloc: Global, nets: &Partners, joints: &[Joint]) -> Result<Vec<u32>, AllocError>
    ensures { IfOk result (λ out. out.items ≡ odd_rights nets.now joints.now) }
{
    let mut out = Vec::new(alloc);
    let mut rest = joints;
    'joints: while let [joint, more @ ..] = rest {
        push_odd_right(&mut out, nets, *joint)?;
        rest = more;
    }
    Ok(out)
}
