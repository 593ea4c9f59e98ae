//! The nets of placed cells as items of nets above, found once for all cells.
ghost use Rattle.std.specs.Prelude.{◌≡◌, ◌<◌, ◌||◌, ℕ, Some, true, false, get_or, length, map};
ghost use Rattle.std.specs.Prelude.{IfOk, OnOk, IsSome, slice_get};
ghost use Rattle.cell_graph.specs.Linked.{plain};
ghost use Rattle.deep_tables.specs.Entries.{entry};
ghost use Rattle.deep_tables.specs.Gates.{gates_of, plain_gate};
ghost use Rattle.deep_tables.specs.Nets.{plain_item};
ghost use Rattle.flat_layout.specs.Layout.{IsReached};
ghost use Rattle.net_marks.specs.Marks.{has_terminal};
ghost use Rattle.pin_phase.specs.Links.{AreChildrenIn, AreKnownGates, AreKnownNets, AreLinks};
ghost use Rattle.pin_phase.specs.Links.{IsChildIn, IsChildLink, is_busy, is_twice, lists_of};
ghost use Rattle.pin_phase.specs.Sets.{Adds, HaveNone, OfSome};

use cell_graph::Design;
use deep_tables::{CellNets, Gate, Gates, Item, Nets};
use net_marks::{mark_gates, mark_if};
use net_walk::{Cells, Element};
use std::alloc::{AllocError, Global};

/// A net of a placed cell as an item of a net above: the job of the cell that places it, the net,
/// the net above, and whether that has two items or a good gate's terminal.
#[derive(Clone, Copy, Debug)]
pub struct Link {
    pub job: u32,
    pub net: u32,
    pub above: u32,
    pub busy: bool,
}

// Marks the nets that have two items.
fn mark_twice(alloc: Global, net_of: &[u32], marks: &mut [bool]) -> Result<(), AllocError>
    requires { (i x : ℕ) → slice_get net_of.now i ≡ Some x → x < length marks.old }
    ensures count { OnOk result (length marks.new ≡ length marks.old) }
    ensures marked { OnOk result ((x : ℕ) → get_or marks.new x false
        ≡ (get_or marks.old x false || is_twice x net_of.now)) }
{
    let mut seen = vec![in alloc; false; marks.len()]?;
    for net in net_of {
        mark_if(*net, seen[*net as usize], marks);
        mark_if(*net, true, &mut seen);
    }
    Ok(())
}

// Which nets have two items or a good gate's terminal.
fn busy_nets(alloc: Global, nets: &CellNets, gates: &[Gate]) -> Result<Vec<bool>, AllocError>
    requires nets { (i x : ℕ) → slice_get nets.now.net_of.items i ≡ Some x → x < nets.now.count }
    requires gates { (x : ℕ) → has_terminal x (map plain_gate gates.now) ≡ true
        → x < nets.now.count }
    ensures count { IfOk result (λ v. length v.items ≡ nets.now.count) }
    ensures busy { IfOk result (λ v. (x : ℕ) → get_or v.items x false
        ≡ is_busy x nets.now.net_of.items (map plain_gate gates.now)) }
{
    let mut busy = vec![in alloc; false; nets.count as usize]?;
    mark_twice(alloc, &nets.net_of, &mut busy)?;
    mark_gates(gates, &mut busy);
    Ok(busy)
}

// An empty list for each cell.
fn no_links(alloc: Global, cells: u32) -> Result<Vec<Vec<Link>>, AllocError>
    ensures { IfOk result (λ v. HaveNone cells (lists_of v.items)) }
{
    let mut lists = Vec::with_capacity(alloc, cells as usize)?;
    for _ in 0..cells {
        lists.push(Vec::new(alloc))?;
    }
    Ok(lists)
}

fn put_link(lists: &mut Vec<Vec<Link>>, cell: u32, link: Link) -> Result<(), AllocError>
    requires { cell < length (lists_of lists.old.items) }
    ensures { OnOk result (Adds (λ (c : ℕ) (l : Link). (c ≡ cell) × (l ≡ link))
        (lists_of lists.old.items) (lists_of lists.new.items)) }
{
    lists[cell as usize].push(link)?;
    Ok(())
}

// Adds an item, where it is a net of a placed cell.
fn push_item(
    lists: &mut Vec<Vec<Link>>,
    job: u32,
    elements: &[Element],
    net_of: &[u32],
    busy: &[bool],
    i: usize,
    item: Item,
) -> Result<(), AllocError>
    requires inside { i < length net_of.now }
    requires nets { (k x : ℕ) → slice_get net_of.now k ≡ Some x → x < length busy.now }
    requires child { IsChildIn (length (lists_of lists.old.items)) elements.now item }
    ensures { OnOk result (Adds (IsChildLink job elements.now net_of.now
        (λ x. get_or busy.now x false) i item) (lists_of lists.old.items)
        (lists_of lists.new.items)) }
{
    if let Item::Child { place, net } = item {
        let above = net_of[i];
        let link = Link {
            job,
            net,
            above,
            busy: busy[above as usize],
        };
        put_link(lists, elements[place as usize].cell, link)?;
    }
    Ok(())
}

// Adds the nets of placed cells among a cell's items.
fn push_items(
    lists: &mut Vec<Vec<Link>>,
    job: u32,
    elements: &[Element],
    nets: &CellNets,
    busy: &[bool],
) -> Result<(), AllocError>
    requires numbers { length nets.now.net_of.items ≡ length nets.now.items.items }
    requires nets { (k x : ℕ) → slice_get nets.now.net_of.items k ≡ Some x → x < length busy.now }
    requires children { AreChildrenIn (length (lists_of lists.old.items)) elements.now
        nets.now.items.items }
    ensures { OnOk result (Adds (OfSome (IsChildLink job elements.now nets.now.net_of.items
        (λ x. get_or busy.now x false)) nets.now.items.items) (lists_of lists.old.items)
        (lists_of lists.new.items)) }
{
    for i in 0..nets.items.len() {
        push_item(lists, job, elements, &nets.net_of, busy, i, nets.items[i])?;
    }
    Ok(())
}

/// For each cell its nets as items of nets above, wherever a reached cell places it. Linear in the
/// items and good gates of all cells.
pub fn find_links<C: Cells>(
    alloc: Global,
    cells: &C,
    design: &Design,
    nets: &Nets,
    gates: &Gates,
) -> Result<Vec<Vec<Link>>, AllocError>
    requires design { C.design cells.now ≡ plain design.now }
    requires nets { AreKnownNets (plain design.now) (C.wiring cells.now) (C.tables cells.now)
        nets.now }
    requires gates { AreKnownGates (plain design.now) (C.tables cells.now) gates.now }
    ensures { IfOk result (λ v. AreLinks design.now (C.tables cells.now) (gates_of gates.now)
        (lists_of v.items)) }
{
    design.sound();
    let order = design.order();
    let mut lists = no_links(alloc, design.cells())?;
    for job in 0..order.len() {
        let parent = order[order.len() - 1 - job];
        let found = nets.of(parent);
        let busy = busy_nets(alloc, found, gates.of(parent))?;
        push_items(&mut lists, job as u32, cells.places(parent), found, &busy)?;
    }
    Ok(lists)
}
