//! How partners are marked.

ghost use Rattle.std.specs.Prelude.{◌≡◌, [], IfOk, bytes_eq, get_or, map};
ghost use Rattle.std.specs.Option.{option_map};
ghost use Rattle.net_names.specs.Folding.{folded_bytes};
ghost use Rattle.net_model.specs.Rows.{plain_call, plain_circuit, plain_device};
ghost use Rattle.view_pairs.specs.Alike.{marks_of, pin_marks};
ghost use Rattle.view_pairs.specs.Joints.{odd_lefts, odd_rights};
ghost use Rattle.view_pairs.specs.Marks.{call_mark, device_mark, is_misnamed, left_odds, mark_both};
ghost use Rattle.view_pairs.specs.Marks.{mark_by, net_mark, pin_net_mark, right_odds, same_sizes};
ghost use Rattle.view_pairs.specs.Marks.{sized_mark};
ghost use Rattle.view_pairs.specs.Rows.{pins_of};

use crate::alike::{Sides, mark_at, marks_of};
use crate::joints::{Joint, are_met, odd_lefts, odd_rights, push_call, push_device};
use crate::partners::{Partner, Partners};
use crate::proposal::Proposal;
use crate::terminals::joints_of;
use fixed_num::Femto;
use net_model::{CallRow, Circuit, DeviceRow};
use net_names::{Name, folded};
use std::alloc::{AllocError, Global};
use view_cross::Mark;

/// For each net of both circuits whether a terminal on it isn't met.
#[derive(Drop)]
pub struct Odds {
    pub lefts: Vec<bool>,
    pub rights: Vec<bool>,
}

// Which of so many left nets have a terminal that isn't met.
fn odd_left_marks(
    alloc: Global,
    count: usize,
    nets: &Partners,
    joints: &[Joint],
) -> Result<Vec<bool>, AllocError>
    ensures { IfOk result (λ marks. marks.items
        ≡ marks_of count (odd_lefts nets.now joints.now)) }
{
    let odd = odd_lefts(alloc, nets, joints)?;
    marks_of(alloc, count, &odd)
}

// Which of so many right ones.
fn odd_right_marks(
    alloc: Global,
    count: usize,
    nets: &Partners,
    joints: &[Joint],
) -> Result<Vec<bool>, AllocError>
    ensures { IfOk result (λ marks. marks.items
        ≡ marks_of count (odd_rights nets.now joints.now)) }
{
    let odd = odd_rights(alloc, nets, joints)?;
    marks_of(alloc, count, &odd)
}

/// Linear in the circuits.
pub fn odds_of(
    alloc: Global,
    left: &Circuit,
    right: &Circuit,
    before: &[Proposal],
    proposal: &Proposal,
) -> Result<Odds, AllocError>
    ensures lefts { IfOk result (λ odds. odds.lefts.items ≡ left_odds (plain_circuit left.now)
        (plain_circuit right.now) (pins_of before.now) proposal.now) }
    ensures rights { IfOk result (λ odds. odds.rights.items ≡ right_odds (plain_circuit left.now)
        (plain_circuit right.now) (pins_of before.now) proposal.now) }
{
    let joints = joints_of(alloc, left, right, before, proposal)?;
    let lefts = odd_left_marks(alloc, left.nets.len(), &proposal.nets, &joints)?;
    let rights = odd_right_marks(alloc, right.nets.len(), &proposal.nets, &joints)?;
    Ok(Odds { lefts, rights })
}

fn mark_by(partner: Partner, odd: bool) -> Mark
    ensures { result ≡ mark_by partner odd }
{
    if partner.tied {
        Mark::Warned
    } else if odd {
        Mark::Mismatched
    } else {
        Mark::Matched
    }
}

// The name of a number, empty past the last.
fn name_at(names: &[Name], k: u32) -> &[u8]
    ensures { result.now ≡ get_or names.now k [] }
{
    match names.get(k as usize) {
        Some(name) => name.bytes(),
        None => b"",
    }
}

// Whether two names are one, small letters being large ones.
fn are_one_name(a: &[u8], b: &[u8]) -> bool
    ensures { result ≡ bytes_eq (folded_bytes a.now) (folded_bytes b.now) }
{
    let mut left = a;
    let mut right = b;
    'bytes: while let [x, others @ ..] = left {
        let [y, more @ ..] = right else {
            return false;
        };
        if x.to_ascii_uppercase() != y.to_ascii_uppercase() {
            return false;
        }
        left = others;
        right = more;
    }
    right.is_empty()
}

fn is_misnamed(told: bool, sides: &Sides<'_>, n: u32, m: u32) -> bool
    requires { sides.now.left_pins.items ≡ pin_marks (plain_circuit sides.now.left.now) }
    ensures { result ≡ is_misnamed told (plain_circuit sides.now.left.now)
        (plain_circuit sides.now.right.now) n m }
{
    if !told {
        return false;
    }
    if !mark_at(&sides.left_pins, n) {
        return false;
    }
    let name = name_at(&sides.left.nets, n);
    !are_one_name(name, name_at(&sides.right.nets, m))
}

/// The mark of a left net and its partner.
pub fn net_mark(told: bool, sides: &Sides<'_>, odds: &Odds, n: u32, partner: Partner) -> Mark
    requires { sides.now.left_pins.items ≡ pin_marks (plain_circuit sides.now.left.now) }
    ensures { result ≡ net_mark told (plain_circuit sides.now.left.now)
        (plain_circuit sides.now.right.now) odds.now.lefts.items odds.now.rights.items n partner }
{
    let odd = mark_at(&odds.lefts, n)
        || mark_at(&odds.rights, partner.number)
        || is_misnamed(told, sides, n, partner.number);
    mark_by(partner, odd)
}

/// That of a pin, by the nets at it and at its partner.
pub fn pin_mark(
    told: bool,
    sides: &Sides<'_>,
    odds: &Odds,
    n: Option<u32>,
    m: Option<u32>,
    partner: Partner,
) -> Mark
    requires { sides.now.left_pins.items ≡ pin_marks (plain_circuit sides.now.left.now) }
    ensures { result ≡ mark_both (pin_net_mark told (plain_circuit sides.now.left.now)
        (plain_circuit sides.now.right.now) odds.now.lefts.items odds.now.rights.items) n m
        partner }
{
    let Some(left) = n else {
        return Mark::Mismatched;
    };
    let Some(right) = m else {
        return Mark::Mismatched;
    };
    let net = Partner {
        number: right,
        tied: partner.tied,
    };
    net_mark(told, sides, odds, left, net)
}

fn sized_mark(mark: Mark, same: bool) -> Mark
    ensures { result ≡ sized_mark mark same }
{
    match mark {
        Mark::Matched => { if same { Mark::Matched } else { Mark::Warned } }
        Mark::Mismatched => Mark::Mismatched,
        Mark::Warned => Mark::Warned,
        Mark::Skipped => Mark::Skipped,
        Mark::Unmatched => Mark::Unmatched,
    }
}

/// Whether two devices have the same sizes.
pub fn same_sizes(d: &DeviceRow, e: &DeviceRow) -> bool
    ensures { result ≡ same_sizes (plain_device d.now) (plain_device e.now) }
{
    are_equal(d.sizes, e.sizes)
}

fn are_equal(some: [Femto; 2], others: [Femto; 2]) -> bool
    ensures { result ≡ bytes_eq (map (λ (f : Femto). f.0) some) (map (λ (f : Femto). f.0) others) }
{
    some[0].0 == others[0].0 && some[1].0 == others[1].0
}

fn one_device_mark(
    alloc: Global,
    nets: &Partners,
    d: &DeviceRow,
    e: &DeviceRow,
    partner: Partner,
) -> Result<Mark, AllocError>
    ensures { IfOk result (λ mark. mark
        ≡ device_mark nets.now (plain_device d.now) (plain_device e.now) partner) }
{
    let mut joints = Vec::new(alloc);
    push_device(&mut joints, nets, d, e)?;
    let odd = !are_met(nets, &joints);
    Ok(sized_mark(mark_by(partner, odd), same_sizes(d, e)))
}

/// The mark of a device and its partner.
pub fn device_mark(
    alloc: Global,
    nets: &Partners,
    d: Option<&DeviceRow>,
    e: Option<&DeviceRow>,
    partner: Partner,
) -> Result<Mark, AllocError>
    ensures { IfOk result (λ mark. mark ≡ mark_both (device_mark nets.now)
        (option_map (λ x. plain_device x.now) d.entry)
        (option_map (λ x. plain_device x.now) e.entry) partner) }
{
    let Some(left) = d else {
        return Ok(Mark::Mismatched);
    };
    let Some(right) = e else {
        return Ok(Mark::Mismatched);
    };
    one_device_mark(alloc, nets, left, right, partner)
}

fn one_call_mark(
    alloc: Global,
    nets: &Partners,
    before: &[Proposal],
    c: &CallRow,
    e: &CallRow,
    partner: Partner,
) -> Result<Mark, AllocError>
    ensures { IfOk result (λ mark. mark ≡ call_mark nets.now (pins_of before.now)
        (plain_call c.now) (plain_call e.now) partner) }
{
    let mut joints = Vec::new(alloc);
    push_call(&mut joints, before, c, e)?;
    let odd = !are_met(nets, &joints);
    Ok(mark_by(partner, odd))
}

/// The mark of a call and its partner.
pub fn call_mark(
    alloc: Global,
    nets: &Partners,
    before: &[Proposal],
    c: Option<&CallRow>,
    e: Option<&CallRow>,
    partner: Partner,
) -> Result<Mark, AllocError>
    ensures { IfOk result (λ mark. mark ≡ mark_both (call_mark nets.now (pins_of before.now))
        (option_map (λ x. plain_call x.now) c.entry) (option_map (λ x. plain_call x.now) e.entry)
        partner) }
{
    let Some(left) = c else {
        return Ok(Mark::Mismatched);
    };
    let Some(right) = e else {
        return Ok(Mark::Mismatched);
    };
    one_call_mark(alloc, nets, before, left, right, partner)
}
