//! The couples that shall be partners, by kind.

ghost use Rattle.std.specs.Prelude.{◌≡◌, ◌++◌, IfOk};
ghost use Rattle.view_pairs.specs.Only.{AreOnlyFirst, in_order, is_given};
ghost use Rattle.view_pairs.specs.Wanted.{AreOfPairing};

use crate::alike::Sides;
use crate::graph::Graph;
use crate::only::only_nets;
use crate::partners::{Couple, Partner, Partners, sure};
use crate::search::Search;
use list_base::number;
use match_types::{NodeKind, Pairing};
use std::alloc::{AllocError, Global};

/// Couples of nets, devices and calls.
#[derive(Drop)]
pub struct Wanted {
    pub nets: Vec<Couple>,
    pub devices: Vec<Couple>,
    pub calls: Vec<Couple>,
}

fn nothing(alloc: Global) -> Wanted {
    Wanted {
        nets: Vec::new(alloc),
        devices: Vec::new(alloc),
        calls: Vec::new(alloc),
    }
}

fn push(wanted: &mut Wanted, kind: NodeKind, couple: Couple) -> Result<(), AllocError> {
    match kind {
        NodeKind::Net => wanted.nets.push(couple)?,
        NodeKind::Device => wanted.devices.push(couple)?,
        NodeKind::Call => wanted.calls.push(couple)?,
    }
    Ok(())
}

// A left node and its partner, by their numbers among those of their kind.
fn push_node(
    wanted: &mut Wanted,
    graph: &Graph,
    node: u32,
    mate: Partner,
) -> Result<(), AllocError> {
    let (left, right) = (&graph.left, &graph.right);
    if node < left.first || node >= left.end() {
        return Ok(());
    }
    if mate.number < right.first || mate.number >= right.end() {
        return Ok(());
    }
    let (kind, place) = left.kind_of(node);
    let (_, partner) = right.kind_of(mate.number);
    let couple = Couple {
        left: place,
        right: Partner {
            number: partner,
            tied: mate.tied,
        },
    };
    push(wanted, kind, couple)
}

/// Those that a search has found.
pub fn found(alloc: Global, search: &Search) -> Result<Wanted, AllocError> {
    let mut wanted = nothing(alloc);
    for node in 0..search.graph.left.end() {
        if let Some(mate) = search.mates.of(node) {
            push_node(&mut wanted, &search.graph, node, mate)?;
        }
    }
    Ok(wanted)
}

// The right number of each left node.
fn in_order(alloc: Global, rights: &[u32]) -> Result<Vec<Couple>, AllocError>
    ensures { IfOk result (λ couples. couples.items ≡ in_order 0 rights.now) }
{
    number(rights.len())?;
    let mut couples = Vec::new(alloc);
    let mut left = 0;
    let mut rest = rights;
    'rights: while let [right, more @ ..] = rest {
        couples.push(sure(left, *right))?;
        left += 1;
        rest = more;
    }
    Ok(couples)
}

/// Those of a match. Linear.
pub fn matched(alloc: Global, pairing: &Pairing) -> Result<Wanted, AllocError>
    ensures { IfOk result (AreOfPairing pairing.now) }
{
    let nets = in_order(alloc, &pairing.nets)?;
    let devices = in_order(alloc, &pairing.devices)?;
    let calls = in_order(alloc, &pairing.calls)?;
    Ok(Wanted {
        nets,
        devices,
        calls,
    })
}

/// These, behind nets that alone have a name on both sides. Linear in the nets.
pub fn named_first(alloc: Global, sides: &Sides<'_>, wanted: Wanted) -> Result<Wanted, AllocError>
    ensures { IfOk result (λ w. AreOnlyFirst is_given sides.now.left.now.nets.items
        sides.now.right.now.nets.items w.nets.items) }
{
    let first = only_nets(alloc, &sides.left.nets, &sides.right.nets)?;
    let nets = behind(first, &wanted.nets)?;
    Ok(Wanted {
        nets,
        devices: wanted.devices,
        calls: wanted.calls,
    })
}

// The first couples, and others behind them.
fn behind(first: Vec<Couple>, others: &[Couple]) -> Result<Vec<Couple>, AllocError>
    ensures { IfOk result (λ couples. couples.items ≡ first.items ++ others.now) }
{
    let mut couples = first;
    couples.extend_from_slice(others)?;
    Ok(couples)
}

// The pin of each net; the last where several are on one.
fn pins_by_net(alloc: Global, count: usize, pins: &[u32]) -> Result<Vec<Option<u32>>, AllocError> {
    let mut places = vec![in alloc; None; count]?;
    let mut k: u32 = 0;
    for net in pins {
        if let Some(place) = places.get_mut(*net as usize) {
            *place = Some(k);
        }
        k = k.wrapping_add(1);
    }
    Ok(places)
}

/// The pins on nets that are partners. `rights` are the nets at the right pins, of so many.
pub fn pin_couples(
    alloc: Global,
    nets: &Partners,
    lefts: &[u32],
    rights: &[u32],
    count: usize,
) -> Result<Vec<Couple>, AllocError> {
    let places = pins_by_net(alloc, count, rights)?;
    let mut couples = Vec::new(alloc);
    let mut left: u32 = 0;
    for net in lefts {
        if let Some(Some(partner)) = nets.lefts.get(*net as usize) {
            if let Some(Some(pin)) = places.get(partner.number as usize) {
                couples.push(Couple {
                    left,
                    right: Partner {
                        number: *pin,
                        tied: partner.tied,
                    },
                })?;
            }
        }
        left = left.wrapping_add(1);
    }
    Ok(couples)
}
