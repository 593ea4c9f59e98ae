//! The nets of cells that hold squares of a conductor, found once for each cell.

ghost use Rattle.std.specs.Prelude.{◌≡◌, ◌+◌, ◌++◌, ◌<◌, ◌≤◌, ◌^◌, ◌↔◌, ◌==◌, ◌||◌, ℕ, [], ◌∷◌};
ghost use Rattle.std.specs.Prelude.{true, false};
ghost use Rattle.std.specs.Prelude.{get_or, length, slice_get, Some, IfOk, IfSome, OnOk};
ghost use Rattle.net_link_laws.specs.Laws.{AreNetsUnder};
ghost use Rattle.net_walk.specs.Held.{AddsMarks, AreHeldLists, HasSquare, IsListAt, IsMarked};
ghost use Rattle.net_walk.specs.Held.{IsNumbered, IsNumberedAt, IsNumberedBy, IsOneOf};
ghost use Rattle.net_walk.specs.declared.held.Held.{Held as HeldList};

use crate::cells::Cells;
use crate::walk::owned_before;
use std::alloc::{AllocError, Global};
use std::collections::HashMap;

/// The nets of a cell that hold a square of a conductor.
#[derive(Drop)]
pub struct Held {
    pub cell: u32,
    pub conductor: u32,
    pub nets: Vec<u32>,
}

/// Such lists as they are found, and the position of each by its cell and its conductor.
pub struct HeldLists {
    pub lists: Vec<Held>,
    pub positions: HashMap<(u32, u32), usize>,
}

// Written out, so that its owners drop it by one call.
impl Drop for HeldLists {
    fn drop(self) {
        let HeldLists {
            lists: _,
            positions: _,
        } = self;
    }
}

impl HeldLists {
    // No list.
    pub fn new(alloc: Global) -> HeldLists
        ensures { result.lists.items ≡ [] }
    {
        HeldLists {
            lists: Vec::new(alloc),
            positions: HashMap::new(alloc),
        }
    }
}

// Whether the list at a position is of the cell and the conductor.
fn is_of(lists: &[Held], position: usize, cell: u32, conductor: u32) -> bool
    ensures { result ≡ true → IsListAt lists.now cell conductor position }
{
    match lists.get(position) {
        None => false,
        Some(held) => held.cell == cell && held.conductor == conductor,
    }
}

// The position of the list of a cell and a conductor, where there is one.
fn known(memo: &HeldLists, cell: u32, conductor: u32) -> Option<usize>
    ensures { IfSome result (IsListAt memo.now.lists.items cell conductor) }
{
    match memo.positions.get(&(cell, conductor)) {
        None => None,
        Some(position) => {
            if is_of(&memo.lists, *position, cell, conductor) {
                return Some(*position);
            }
            None
        }
    }
}

// The nets of the list at a position.
pub(crate) fn nets_at(lists: &[Held], position: usize) -> &[u32]
    requires { position < length lists.now }
    ensures { (h : HeldList) → slice_get lists.now position ≡ Some h → result.now ≡ h.nets.items }
{
    &lists[position].nets
}

fn mark(net: u32, marks: &mut [bool])
    requires { net < length marks.old }
    ensures count { length marks.new ≡ length marks.old }
    ensures marked { (x : ℕ) → get_or marks.new x false ≡ ((x == net) || get_or marks.old x false) }
{
    marks[net as usize] = true;
}

// Marks the net of an item.
fn mark_at(net_of: &[u32], item: usize, marks: &mut [bool])
    requires item { item < length net_of.now }
    requires nets { (i : ℕ) → i < length net_of.now
        → get_or net_of.now i 0 < length marks.old }
    ensures { AddsMarks (IsNumbered net_of.now item) marks.old marks.new }
{
    mark(net_of[item], marks);
}

// Marks the nets of items from a place on.
fn mark_own(net_of: &[u32], at: usize, count: usize, marks: &mut [bool])
    requires items { at + count ≤ length net_of.now }
    requires nets { (i : ℕ) → i < length net_of.now
        → get_or net_of.now i 0 < length marks.old }
    ensures { AddsMarks (IsNumberedAt net_of.now at count) marks.old marks.new }
{
    for r in 0..count {
        mark_at(net_of, at + r, marks);
    }
}

// Marks the nets of the items that stand so far behind a place as a list tells.
fn mark_below(below: &[u32], net_of: &[u32], at: usize, marks: &mut [bool])
    requires items { (b : ℕ) → IsOneOf below.now b → at + b < length net_of.now }
    requires nets { (i : ℕ) → i < length net_of.now
        → get_or net_of.now i 0 < length marks.old }
    ensures { AddsMarks (IsNumberedBy below.now net_of.now at) marks.old marks.new }
{
    for b in below {
        mark_at(net_of, at + *b as usize, marks);
    }
}

// The numbers of the marks that are set, ascending.
fn marked(alloc: Global, marks: &[bool]) -> Result<Vec<u32>, AllocError>
    requires { length marks.now < 2 ^ 32 }
    ensures { IfOk result (λ v. (x : ℕ) → IsOneOf v.items x ↔ IsMarked marks.now x) }
{
    let mut numbers = Vec::new(alloc);
    for number in 0..marks.len() {
        if marks[number] {
            numbers.push(number as u32)?;
        }
    }
    Ok(numbers)
}

// Adds a list. Its position.
fn keep(memo: &mut HeldLists, held: Held) -> Result<usize, AllocError>
    ensures lists { OnOk result (memo.new.lists.items ≡ memo.old.lists.items ++ held ∷ []) }
    ensures at { IfOk result (λ p. p ≡ length memo.old.lists.items) }
{
    let position = memo.lists.len();
    memo.positions
        .insert((held.cell, held.conductor), position)?;
    memo.lists.push(held)?;
    Ok(position)
}

/// The position of the list of a cell and a conductor. Where there is none, it is made from the
/// cell's own rectangles and the lists of the cells that it places: linear in the items of each cell
/// below whose list isn't known yet.
pub(crate) fn hold<C: Cells>(
    alloc: Global,
    cells: &C,
    cell: u32,
    conductor: u32,
    memo: &mut HeldLists,
) -> Result<usize, AllocError>
    requires known { conductor < length (C.wiring cells.now).conductors }
    requires nets { AreNetsUnder (C.design cells.now) (C.wiring cells.now) (C.tables cells.now)
        cell }
    requires lists { AreHeldLists (C.design cells.now) (C.tables cells.now) memo.old.lists.items }
    ensures lists { OnOk result (AreHeldLists (C.design cells.now) (C.tables cells.now)
        memo.new.lists.items) }
    ensures at { IfOk result (IsListAt memo.new.lists.items cell conductor) }
{
    match known(memo, cell, conductor) {
        Some(position) => Ok(position),
        None => {
            cells.sound();
            let net_of = cells.net_of(cell);
            let mut marks = vec![in alloc; false; cells.count(cell) as usize]?;
            let first = owned_before(cells, cell, conductor);
            mark_own(net_of, first, cells.own(cell, conductor).len(), &mut marks);
            let elements = cells.places(cell);
            for number in 0..elements.len() {
                let position = hold(alloc, cells, elements[number].cell, conductor, memo)?;
                let below = nets_at(&memo.lists, position);
                let at = cells.first_place(cell, number as u32);
                mark_below(below, net_of, at, &mut marks);
            }
            let nets = marked(alloc, &marks)?;
            let last = keep(
                memo,
                Held {
                    cell,
                    conductor,
                    nets,
                },
            )?;
            Ok(last)
        }
    }
}
