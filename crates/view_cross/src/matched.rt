//! The rows of a pair of circuits.

ghost use Rattle.std.specs.Prelude.{◌≡◌, ◌++◌, ◌∷◌, [], OnOk, IfOk};
ghost use Rattle.view_cross.specs.Matched.{apart_rows, left_alone, lone_of, matched_rows};
ghost use Rattle.view_cross.specs.Matched.{partner_rows, partners, pin_on, pin_row, pin_rows};
ghost use Rattle.view_cross.specs.Matched.{right_alone};

use crate::rows::{Kind, Mark, Row};
use list_base::number;
use std::alloc::{AllocError, Global};

fn partners(kind: Kind, a: u32, b: u32) -> Row
    ensures { result ≡ partners kind a b }
{
    Row {
        kind,
        left: Some(a),
        right: Some(b),
        mark: Mark::Matched,
    }
}

// Adds the rows of nodes whose right ones stand in a list of less than 2^32.
fn push_partners(out: &mut Vec<Row>, kind: Kind, rights: &[u32]) -> Result<(), AllocError>
    ensures { OnOk result (out.new.items ≡ out.old.items ++ partner_rows kind 0 rights.now) }
{
    number(rights.len())?;
    let mut k = 0;
    let mut rest = rights;
    'nodes: while let [n, more @ ..] = rest {
        out.push(partners(kind, k, *n))?;
        k += 1;
        rest = more;
    }
    Ok(())
}

// The position of a circuit's pin on a net; the number of pins where there is none.
fn pin_on(pins: &[u32], net: u32) -> usize
    ensures { result ≡ pin_on pins.now net }
{
    let mut k = 0;
    let mut rest = pins;
    'pins: while let [pin, more @ ..] = rest {
        if *pin == net {
            return k;
        }
        k += 1;
        rest = more;
    }
    k
}

// Adds the row of the k-th left pin, which is on a net.
fn push_pin(
    out: &mut Vec<Row>,
    nets: &[u32],
    rights: &[u32],
    k: u32,
    net: u32,
) -> Result<(), AllocError>
    ensures { OnOk result (out.new.items
        ≡ out.old.items ++ pin_row nets.now rights.now k net ∷ []) }
{
    let partner = match nets.get(net as usize) {
        Some(n) => *n,
        None => 0,
    };
    let right = number(pin_on(rights, partner))?;
    out.push(partners(Kind::Pin, k, right))?;
    Ok(())
}

fn push_pins(
    out: &mut Vec<Row>,
    nets: &[u32],
    lefts: &[u32],
    rights: &[u32],
) -> Result<(), AllocError>
    ensures { OnOk result (out.new.items
        ≡ out.old.items ++ pin_rows nets.now rights.now 0 lefts.now) }
{
    number(lefts.len())?;
    let mut k = 0;
    let mut rest = lefts;
    'pins: while let [n, more @ ..] = rest {
        push_pin(out, nets, rights, k, *n)?;
        k += 1;
        rest = more;
    }
    Ok(())
}

/// The rows of a pair that matches: `nets`, `devices` and `calls` have the right number of each
/// left one, `lefts` and `rights` the nets at the pins. Linear in these, but for the pins: for each
/// left one the right ones are gone through. An `Err` is want of memory, or 2^32 of a kind.
pub fn matched_rows(
    alloc: Global,
    nets: &[u32],
    lefts: &[u32],
    rights: &[u32],
    devices: &[u32],
    calls: &[u32],
) -> Result<Vec<Row>, AllocError>
    ensures { IfOk result (λ rows. rows.items
        ≡ matched_rows nets.now lefts.now rights.now devices.now calls.now) }
{
    let mut out = Vec::new(alloc);
    push_partners(&mut out, Kind::Net, nets)?;
    push_pins(&mut out, nets, lefts, rights)?;
    push_partners(&mut out, Kind::Device, devices)?;
    push_partners(&mut out, Kind::Call, calls)?;
    Ok(out)
}

fn left_alone(kind: Kind, k: u32) -> Row
    ensures { result ≡ left_alone kind k }
{
    Row {
        kind,
        left: Some(k),
        right: None,
        mark: Mark::Mismatched,
    }
}

fn right_alone(kind: Kind, k: u32) -> Row
    ensures { result ≡ right_alone kind k }
{
    Row {
        kind,
        left: None,
        right: Some(k),
        mark: Mark::Mismatched,
    }
}

// Adds a row for each of so many left nodes of a kind, and then for each of so many right ones,
// all alone.
fn push_alone(out: &mut Vec<Row>, kind: Kind, lefts: u32, rights: u32) -> Result<(), AllocError>
    ensures { OnOk result (out.new.items ≡ out.old.items ++ lone_of kind lefts rights) }
{
    'lefts: for k in 0..lefts {
        out.push(left_alone(kind, k))?;
    }
    'rights: for k in 0..rights {
        out.push(right_alone(kind, k))?;
    }
    Ok(())
}

/// How many nodes of each kind a circuit has.
#[derive(Clone, Copy, Debug, PartialEq, Eq)]
pub struct Counts {
    pub nets: u32,
    pub pins: u32,
    pub devices: u32,
    pub calls: u32,
}

/// The rows of two circuits of so many nodes, each alone. Linear in these.
pub fn apart_rows(alloc: Global, a: Counts, b: Counts) -> Result<Vec<Row>, AllocError>
    ensures { IfOk result (λ rows. rows.items ≡ apart_rows a b) }
{
    let mut rows = Vec::new(alloc);
    push_alone(&mut rows, Kind::Net, a.nets, b.nets)?;
    push_alone(&mut rows, Kind::Pin, a.pins, b.pins)?;
    push_alone(&mut rows, Kind::Device, a.devices, b.devices)?;
    push_alone(&mut rows, Kind::Call, a.calls, b.calls)?;
    Ok(rows)
}
