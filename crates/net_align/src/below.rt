//! What stands below a top.
ghost use Rattle.std.specs.Prelude.{◌<◌, IfOk, length};
ghost use Rattle.net_align.specs.Compared.{AreTables};
ghost use Rattle.net_align.specs.Selected.{IsSelection};
ghost use Rattle.net_align.specs.Side.{IsSide};
ghost use Rattle.net_align.specs.Walked.{AreReached};
ghost use Rattle.net_model.specs.Rows.{plain_netlist};
ghost use Rattle.plain_netlist.specs.Sound.{IsSoundNetlist};

use crate::side::align_side;
use crate::walk::{circuit_order, holding, reached};
use job_board::Crew;
use list_base::number;
use net_model::Netlist;
use std::alloc::{AllocError, Global};
use std::thread::Threads;

/// All circuits of a netlist, each behind those that it calls; for each circuit whether the top
/// calls it, and whether a device stands in it or below it.
#[derive(Drop)]
pub struct Below {
    pub order: Vec<u32>,
    pub reached: Vec<bool>,
    pub holds: Vec<bool>,
}

/// Circuits of a netlist that an aligned one keeps, in its order, with what stands below the top.
#[derive(Clone, Copy)]
pub struct Selection<'a> {
    pub netlist: &'a Netlist,
    pub below: &'a Below,
    pub circuits: &'a [u32],
}

// What stands below this top. Linear in the calls.
fn walk_below(alloc: Global, netlist: &Netlist, top: usize) -> Result<Below, AllocError>
    requires sound { IsSoundNetlist (plain_netlist netlist.now) }
    requires top { top < length netlist.now.circuits.items }
    ensures tables { IfOk result (AreTables (plain_netlist netlist.now)) }
    ensures reached { IfOk result (λ b.
        AreReached (plain_netlist netlist.now) top b.reached.items) }
{
    number(netlist.circuits.len())?;
    let order = circuit_order(alloc, netlist)?;
    let reached = reached(alloc, netlist, &order, top)?;
    let holds = holding(alloc, netlist, &order)?;
    Ok(Below {
        order,
        reached,
        holds,
    })
}

// The selected circuits, flattened and cut, in the order given.
//
// Linear in what is made: a circuit that goes is appended once for each call.
fn side_of(alloc: Global, selection: &Selection<'_>) -> Result<Netlist, AllocError>
    requires { IsSelection selection.now }
    ensures { IfOk result (λ side. IsSide (plain_netlist selection.now.netlist.now)
        selection.now.circuits.now (plain_netlist side)) }
{
    let below = selection.below;
    align_side(
        alloc,
        selection.netlist,
        &below.order,
        &below.reached,
        &below.holds,
        selection.circuits,
    )
}

/// What stands below the tops of two netlists, walked side by side. Linear in the calls.
pub fn walk_both<R: Threads, G>(
    alloc: Global,
    layout: &Netlist,
    top: usize,
    schematic: &Netlist,
    right_top: usize,
    crew: &Crew<R, G>,
) -> Result<(Below, Below), AllocError>
    requires layout { IsSoundNetlist (plain_netlist layout.now) }
    requires schematic { IsSoundNetlist (plain_netlist schematic.now) }
    requires top { top < length layout.now.circuits.items }
    requires right_top { right_top < length schematic.now.circuits.items }
    ensures left { IfOk result (λ b. AreTables (plain_netlist layout.now) b.0) }
    ensures left_reached { IfOk result (λ b.
        AreReached (plain_netlist layout.now) top b.0.reached.items) }
    ensures right { IfOk result (λ b. AreTables (plain_netlist schematic.now) b.1) }
    ensures right_reached { IfOk result (λ b.
        AreReached (plain_netlist schematic.now) right_top b.1.reached.items) }
{
    let (left, right) = crew.both(
        || walk_below(alloc, layout, top),
        || walk_below(alloc, schematic, right_top),
    );
    Ok((left?, right?))
}

/// The selected circuits of a layout and of a schematic, flattened and cut, in the orders given; the
/// two sides are worked side by side. Linear in what is made: a circuit that goes is appended once
/// for each call.
pub fn both_sides<R: Threads, G>(
    alloc: Global,
    layout: &Selection<'_>,
    schematic: &Selection<'_>,
    crew: &Crew<R, G>,
) -> Result<(Netlist, Netlist), AllocError>
    requires layout { IsSelection layout.now }
    requires schematic { IsSelection schematic.now }
    ensures left { IfOk result (λ sides. IsSide (plain_netlist layout.now.netlist.now)
        layout.now.circuits.now (plain_netlist sides.0)) }
    ensures right { IfOk result (λ sides. IsSide (plain_netlist schematic.now.netlist.now)
        schematic.now.circuits.now (plain_netlist sides.1)) }
{
    let first = move || -> Result<Netlist, AllocError>
        requires { IsSelection layout.now }
        ensures { IfOk result (λ side. IsSide (plain_netlist layout.entry.now.netlist.now)
            layout.entry.now.circuits.now (plain_netlist side)) }
    { side_of(alloc, layout) };
    let second = move || -> Result<Netlist, AllocError>
        requires { IsSelection schematic.now }
        ensures { IfOk result (λ side. IsSide (plain_netlist schematic.entry.now.netlist.now)
            schematic.entry.now.circuits.now (plain_netlist side)) }
    { side_of(alloc, schematic) };
    let (one, other) = crew.both(first, second);
    Ok((one?, other?))
}
