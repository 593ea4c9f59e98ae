//! The rows of a proposal.

ghost use Rattle.std.specs.Prelude.{◌≡◌, ◌++◌, IfOk, OnOk, map};
ghost use Rattle.net_model.specs.Rows.{plain_circuit};
ghost use Rattle.view_cross.specs.Matched.{right_alone};
ghost use Rattle.view_pairs.specs.Alike.{pin_marks};
ghost use Rattle.view_pairs.specs.Rows.{asked, entry_row, kind_rows, left_rows, mark_at};
ghost use Rattle.view_pairs.specs.Rows.{proposal_rows};
ghost use Rattle.view_pairs.specs.Shown.{IsShown, asked_of};

use crate::alike::{Sides, call_at, device_at, number_at};
use crate::marks::{Odds, call_mark, device_mark, net_mark, odds_of, pin_mark};
use crate::partners::{Partner, Partners};
use crate::proposal::Proposal;
use list_base::number;
use std::alloc::{AllocError, Global};
use view_cross::{Kind, Mark, Row};

/// What the rows of a pair are made from.
#[derive(Drop)]
pub struct Shown<'a> {
    pub told: bool,
    pub sides: &'a Sides<'a>,
    pub before: &'a [Proposal],
    pub proposal: &'a Proposal,
    pub odds: Odds,
}

/// With names that tell the pins apart or not, and the proposals of the pairs before. Linear in the
/// circuits.
pub fn show<'a>(
    alloc: Global,
    told: bool,
    sides: &'a Sides<'a>,
    before: &'a [Proposal],
    proposal: &'a Proposal,
) -> Result<Shown<'a>, AllocError>
    requires { sides.now.left_pins.items ≡ pin_marks (plain_circuit sides.now.left.now) }
    ensures shown { IfOk result (λ q. IsShown q) }
    ensures asked { IfOk result (λ q. asked_of q ≡ asked told (plain_circuit sides.now.left.now)
        (plain_circuit sides.now.right.now) before.now proposal.now) }
{
    let odds = odds_of(alloc, sides.left, sides.right, before, proposal)?;
    Ok(Shown {
        told,
        sides,
        before,
        proposal,
        odds,
    })
}

fn mark_at(
    alloc: Global,
    q: &Shown<'_>,
    kind: Kind,
    k: u32,
    partner: Partner,
) -> Result<Mark, AllocError>
    requires { IsShown q.now }
    ensures { IfOk result (λ mark. mark ≡ mark_at (asked_of q.now) kind k partner) }
{
    let m = partner.number;
    match kind {
        Kind::Net => Ok(net_mark(q.told, q.sides, &q.odds, k, partner)),
        Kind::Pin => {
            let left = number_at(&q.sides.left.pins, k);
            let right = number_at(&q.sides.right.pins, m);
            Ok(pin_mark(q.told, q.sides, &q.odds, left, right, partner))
        }
        Kind::Device => {
            let left = device_at(&q.sides.left.devices, k);
            let right = device_at(&q.sides.right.devices, m);
            device_mark(alloc, &q.proposal.nets, left, right, partner)
        }
        Kind::Call => {
            let left = call_at(&q.sides.left.calls, k);
            let right = call_at(&q.sides.right.calls, m);
            call_mark(alloc, &q.proposal.nets, q.before, left, right, partner)
        }
    }
}

fn entry_row(
    alloc: Global,
    q: &Shown<'_>,
    kind: Kind,
    k: u32,
    entry: Option<Partner>,
) -> Result<Row, AllocError>
    requires { IsShown q.now }
    ensures { IfOk result (λ row. row ≡ entry_row (mark_at (asked_of q.now) kind) kind k entry) }
{
    match entry {
        Some(partner) => {
            let mark = mark_at(alloc, q, kind, k, partner)?;
            Ok(Row {
                kind,
                left: Some(k),
                right: Some(partner.number),
                mark,
            })
        }
        None => Ok(Row {
            kind,
            left: Some(k),
            right: None,
            mark: Mark::Mismatched,
        }),
    }
}

fn push_lefts(
    alloc: Global,
    out: &mut Vec<Row>,
    q: &Shown<'_>,
    kind: Kind,
    entries: &[Option<Partner>],
) -> Result<(), AllocError>
    requires { IsShown q.now }
    ensures { OnOk result (out.new.items ≡ out.old.items
        ++ left_rows (mark_at (asked_of q.now) kind) kind 0 entries.now) }
{
    number(entries.len())?;
    let mut k = 0;
    let mut rest = entries;
    'nodes: while let [entry, more @ ..] = rest {
        out.push(entry_row(alloc, q, kind, k, *entry)?)?;
        k += 1;
        rest = more;
    }
    Ok(())
}

fn right_alone(kind: Kind, k: u32) -> Row
    ensures { result ≡ right_alone kind k }
{
    Row {
        kind,
        left: None,
        right: Some(k),
        mark: Mark::Mismatched,
    }
}

fn push_rights(out: &mut Vec<Row>, kind: Kind, free: &[u32]) -> Result<(), AllocError>
    ensures { OnOk result (out.new.items ≡ out.old.items ++ map (right_alone kind) free.now) }
{
    let mut rest = free;
    'nodes: while let [k, more @ ..] = rest {
        out.push(right_alone(kind, *k))?;
        rest = more;
    }
    Ok(())
}

fn push_kind(
    alloc: Global,
    out: &mut Vec<Row>,
    q: &Shown<'_>,
    kind: Kind,
    partners: &Partners,
) -> Result<(), AllocError>
    requires { IsShown q.now }
    ensures { OnOk result (out.new.items ≡ out.old.items
        ++ kind_rows (asked_of q.now) kind partners.now) }
{
    push_lefts(alloc, out, q, kind, &partners.lefts)?;
    push_rights(out, kind, &partners.free)
}

/// The rows of all nodes of a pair: nets, pins, devices, calls. Linear in the circuits.
pub fn proposal_rows(alloc: Global, q: &Shown<'_>) -> Result<Vec<Row>, AllocError>
    requires { IsShown q.now }
    ensures { IfOk result (λ rows. rows.items ≡ proposal_rows (asked_of q.now)) }
{
    let mut out = Vec::new(alloc);
    push_kind(alloc, &mut out, q, Kind::Net, &q.proposal.nets)?;
    push_kind(alloc, &mut out, q, Kind::Pin, &q.proposal.pins)?;
    push_kind(alloc, &mut out, q, Kind::Device, &q.proposal.devices)?;
    push_kind(alloc, &mut out, q, Kind::Call, &q.proposal.calls)?;
    Ok(out)
}
