//! The items of a cell in order.
ghost use Rattle.std.specs.Prelude.{◌≡◌, ◌++◌, ◌<◌, ◌≤◌, true, false, length, map, IfOk, OnOk};
ghost use Rattle.std.specs.List.Sorted.{IsPartitionPoint, IsPartitionedBy};
ghost use Rattle.deep_tables.specs.Nets.{plain_item};
ghost use Rattle.flat_layout.specs.Nets.{Child, Global as GlobalItem, Own, child_items, items_of};
ghost use Rattle.flat_layout.specs.Nets.{own_items, run};
ghost use Rattle.net_link_laws.specs.Places.{places_of};
ghost use Rattle.net_phase.specs.Items.{stands_before};

use deep_tables::Item;
use net_walk::Cells;
use std::alloc::{AllocError, Global};

fn push_own(conductor: u32, rects: u32, out: &mut Vec<Item>) -> Result<(), AllocError>
    ensures { OnOk result (map plain_item out.new.items
        ≡ map plain_item out.old.items ++ run (Own conductor) 0 rects) }
{
    for rect in 0..rects {
        out.push(Item::Own { conductor, rect })?;
    }
    Ok(())
}

fn push_nets(place: u64, nets: u32, out: &mut Vec<Item>) -> Result<(), AllocError>
    ensures { OnOk result (map plain_item out.new.items
        ≡ map plain_item out.old.items ++ run (Child place) 0 nets) }
{
    for net in 0..nets {
        out.push(Item::Child { place, net })?;
    }
    Ok(())
}

fn push_globals(globals: u32, out: &mut Vec<Item>) -> Result<(), AllocError>
    ensures { OnOk result (map plain_item out.new.items
        ≡ map plain_item out.old.items ++ run GlobalItem 0 globals) }
{
    for global in 0..globals {
        out.push(Item::Global { global })?;
    }
    Ok(())
}

fn push_rects<C: Cells>(cells: &C, cell: u32, out: &mut Vec<Item>) -> Result<(), AllocError>
    requires { length (items_of (C.design cells.now) (C.wiring cells.now) (C.tables cells.now) cell)
        < 4294967296 }
    ensures { OnOk result (map plain_item out.new.items ≡ map plain_item out.old.items
        ++ own_items (C.tables cells.now) cell 0 (C.wiring cells.now).conductors) }
{
    for conductor in 0..cells.conductors() {
        let rects = cells.own(cell, conductor).len() as u32;
        push_own(conductor, rects, out)?;
    }
    Ok(())
}

fn push_placed<C: Cells>(cells: &C, cell: u32, out: &mut Vec<Item>) -> Result<(), AllocError>
    ensures { OnOk result (map plain_item out.new.items ≡ map plain_item out.old.items
        ++ child_items (C.tables cells.now) 0 (places_of (C.design cells.now) cell)) }
{
    let elements = cells.places(cell);
    for place in 0..elements.len() {
        push_nets(place as u64, cells.count(elements[place].cell), out)?;
    }
    Ok(())
}

/// The items of a cell: for each conductor its rectangles, for each placement the placed cell's
/// nets, then the globals. Room is asked for so many at once.
pub fn list_items<C: Cells>(
    alloc: Global,
    cells: &C,
    cell: u32,
    globals: u32,
    count: u32,
) -> Result<Vec<Item>, AllocError>
    requires few { length (items_of (C.design cells.now) (C.wiring cells.now) (C.tables cells.now)
        cell) < 4294967296 }
    requires globals { globals ≡ length (C.wiring cells.now).globals }
    ensures { IfOk result (λ v. map plain_item v.items
        ≡ items_of (C.design cells.now) (C.wiring cells.now) (C.tables cells.now) cell) }
{
    let mut out = Vec::with_capacity(alloc, count as usize)?;
    push_rects(cells, cell, &mut out)?;
    push_placed(cells, cell, &mut out)?;
    push_globals(globals, &mut out)?;
    Ok(out)
}

// Whether an item stands before the nets of a placement.
fn stands_before(item: &Item, place: u32) -> bool
    ensures { result ≡ stands_before place item.now }
{
    match item {
        Item::Own { .. } => true,
        Item::Child { place: other, .. } => *other < place as u64,
        Item::Global { .. } => false,
    }
}

// How many items stand before the nets of a placement: O(log n) for n items.
pub(crate) fn first_net(items: &[Item], place: u32) -> usize
    requires { IsPartitionedBy (stands_before place) items.now }
    ensures bound { result ≤ length items.now }
    ensures point { IsPartitionPoint (λ i. stands_before place i ≡ true)
        (λ i. stands_before place i ≡ false) items.now result }
{
    items.partition_point(|item| stands_before(item, place))
}
