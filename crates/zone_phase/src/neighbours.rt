//! What lies beside the placements of a cell: each way in which another placement lies there, once.
ghost use Rattle.std.specs.Prelude.{◌≡◌, ◌↔◌, ◌<◌, ◌^◌, ℕ, true, [], length, Some, OnOk, IfOk};
ghost use Rattle.std.specs.Prelude.{slice_get};
ghost use Rattle.geo_base.specs.Near.{IsNearMotion};
ghost use Rattle.cell_graph.specs.Linked.{IsFrame, cell_at, hull_of, places_at};
ghost use Rattle.deep_tables.specs.Entries.{downward_cell};
ghost use Rattle.deep_tables.specs.Frames.{IsInGrown};
ghost use Rattle.zone_phase.specs.Neighbours.{AreAllNear, AreNear, AreNeighbours, BringsMore};
ghost use Rattle.zone_phase.specs.Neighbours.{IsAllNear, IsKnown, IsNearUse, IsPut};
ghost use Rattle.zone_phase.specs.Neighbours.{IsRelative, Listed, StandAlike, StandsAgain, alone};
ghost use Rattle.zone_phase.specs.Uses.{IsUse, IsUsed};
ghost use Rattle.cell_context.specs.Arrays.{IsAlone, IsNearArray};

use crate::uses::{Use, UsedCell};
use crate::windows::element_rect;
use cell_context::{Visit, grown, is_alone, motion_at, visits};
use cell_graph::Place;
use geo_base::{Motion, Point, Rect, Turn};
use std::alloc::{AllocError, Global};
use std::collections::HashMap;

/// A placement, another of the same parent that comes near it, and how the other lies as it is seen
/// from the first.
#[derive(Clone, Copy, Debug)]
pub struct Neighbour {
    pub place: Place,
    pub other: Place,
    pub relative: Motion,
}

/// Neighbours that lie differently, and the position of each by how it lies; and the position of a
/// use by its job and how its placement stands. Where two lie by one number the later one counts.
#[derive(Drop)]
pub struct Neighbours {
    pub list: Vec<Neighbour>,
    pub positions: HashMap<u64, usize>,
    pub stood: HashMap<u64, usize>,
}

// The first motion as it is seen from where the other leads: followed by the other it is the first.
fn relative(one: &Motion, other: &Motion) -> Motion
    requires near { IsNearMotion one.now }
    requires near_other { IsNearMotion other.now }
    ensures { IsRelative one.now other.now result }
{
    one.then(&other.inverse())
}

// A reference of one placement.
fn alone(cell: u32, motion: Motion) -> Place
    ensures { result ≡ alone cell motion }
{
    Place {
        cell,
        motion,
        columns: 1,
        rows: 1,
        column_step: Point { x: 0, y: 0 },
        row_step: Point { x: 0, y: 0 },
    }
}

fn turn_number(turn: Turn) -> u8 {
    match turn {
        Turn::R0 => 0,
        Turn::R90 => 1,
        Turn::R180 => 2,
        Turn::R270 => 3,
        Turn::M0 => 4,
        Turn::M90 => 5,
        Turn::M180 => 6,
        Turn::M270 => 7,
    }
}

// A number and a further part as one number.
fn mixed(number: u64, part: u64) -> u64 {
    (number ^ part).wrapping_mul(0x9E37_79B9_7F4A_7C15)
}

// A number for how a placement lies, and for its cell or job. Where two have one number, each is
// only looked for more often.
fn way_of(cell_or_job: u32, motion: &Motion) -> u64 {
    let turn = u64::from(turn_number(motion.turn));
    let turned = mixed(mixed(1, u64::from(cell_or_job)), turn);
    mixed(
        mixed(turned, motion.dx.cast_unsigned()),
        motion.dy.cast_unsigned(),
    )
}

// Whether a neighbour is of the cell and lies so.
fn is_alike(known: &Neighbour, cell: u32, relative: &Motion) -> bool
    ensures { result ≡ true → (known.now.other.cell ≡ cell) × (known.now.relative ≡ relative.now) }
{
    if known.other.cell != cell {
        return false;
    }
    known.relative == *relative
}

// Whether the neighbour at a position is of the cell and lies so.
fn lies_so(list: &[Neighbour], position: usize, cell: u32, relative: &Motion) -> bool
    ensures { result ≡ true → IsKnown list.now cell relative.now }
{
    match list.get(position) {
        None => false,
        Some(known) => is_alike(known, cell, relative),
    }
}

// Whether a neighbour of the cell is known that lies so.
fn is_known(memo: &Neighbours, cell: u32, relative: &Motion) -> bool
    ensures { result ≡ true → IsKnown memo.now.list.items cell relative.now }
{
    match memo.positions.get(&way_of(cell, relative)) {
        None => false,
        Some(position) => lies_so(&memo.list, *position, cell, relative),
    }
}

// Adds what is visited near a placement, unless one is known that lies alike.
fn push_neighbour(memo: &mut Neighbours, place: &Place, visit: &Visit) -> Result<(), AllocError>
    requires near { IsNearArray place.now }
    requires alone { IsAlone place.now }
    requires motion { IsNearMotion visit.now.motion }
    ensures { OnOk result (IsPut place.now visit.now memo.old.list.items memo.new.list.items) }
{
    let from = motion_at(place, 0, 0);
    let lies = relative(&visit.motion, &from);
    if is_known(memo, visit.cell, &lies) {
        return Ok(());
    }
    let position = memo.list.len();
    memo.positions.insert(way_of(visit.cell, &lies), position)?;
    memo.list.push(Neighbour {
        place: *place,
        other: alone(visit.cell, visit.motion),
        relative: lies,
    })?;
    Ok(())
}

// Adds the neighbours of a placement at a use.
fn push_around(
    alloc: Global,
    memo: &mut Neighbours,
    used: &UsedCell<'_>,
    found: &Use,
    parent: u32,
    place: &Place,
    grown: &Rect,
) -> Result<(), AllocError>
    requires found { Listed used.now.uses.now found.now }
    requires parent { parent ≡ downward_cell used.now.design.now found.now.job }
    requires there { slice_get (places_at (cell_at used.now.design.now parent)) found.now.index
        ≡ Some place.now }
    requires inside { parent < length used.now.design.now.cells }
    requires alone { IsAlone place.now }
    requires grown { IsFrame grown.now }
    requires each { AreNeighbours used.now.design.now used.now.uses.now memo.old.list.items }
    ensures each { OnOk result (AreNeighbours used.now.design.now used.now.uses.now
        memo.new.list.items) }
    ensures more { OnOk result (BringsMore used.now.design.now memo.old.list.items
        memo.new.list.items) }
    ensures all { OnOk result (IsAllNear used.now.design.now grown.now parent found.now.index
        place.now memo.new.list.items) }
{
    let design = used.design;
    design.sound();
    let window = element_rect(place, 0, 0, grown);
    for visit in &visits(alloc, design, parent, &window, Some(found.index), 0)? {
        push_neighbour(memo, place, visit)?;
    }
    Ok(())
}

// Whether two references of one placement place the same cell alike.
fn stand_alike(one: &Place, other: &Place) -> bool
    ensures { result ≡ true → StandAlike one.now other.now }
{
    if !is_alone(one) {
        return false;
    }
    if one.cell != other.cell {
        return false;
    }
    one.motion == other.motion
}

// Whether an earlier use in the same cell has a placement that stands as this one does.
fn stands_again(uses: &[Use], at: usize, places: &[Place], place: &Place, earlier: usize) -> bool
    requires { at < length uses.now }
    ensures { result ≡ true → StandsAgain uses.now at places.now place.now }
{
    if earlier >= at {
        return false;
    }
    if uses[earlier].job != uses[at].job {
        return false;
    }
    match places.get(uses[earlier].index) {
        None => false,
        Some(other) => stand_alike(other, place),
    }
}

// The same of a use that may be known.
fn is_again(uses: &[Use], at: usize, places: &[Place], place: &Place, known: Option<usize>) -> bool
    requires { at < length uses.now }
    ensures { result ≡ true → StandsAgain uses.now at places.now place.now }
{
    match known {
        None => false,
        Some(earlier) => stands_again(uses, at, places, place, earlier),
    }
}

// Adds the neighbours at a use, where it is of one placement. What stands as an earlier one does in
// the same cell has no others.
fn push_use(
    alloc: Global,
    memo: &mut Neighbours,
    used: &UsedCell<'_>,
    at: usize,
    found: &Use,
    grown: &Rect,
) -> Result<(), AllocError>
    requires use_of { IsUse used.now.design.now used.now.cell found.now }
    requires there { slice_get used.now.uses.now at ≡ Some found.now }
    requires grown { IsFrame grown.now }
    requires each { AreNeighbours used.now.design.now used.now.uses.now memo.old.list.items }
    requires near { AreAllNear used.now.design.now grown.now used.now.uses.now at
        memo.old.list.items }
    ensures each { OnOk result (AreNeighbours used.now.design.now used.now.uses.now
        memo.new.list.items) }
    ensures more { OnOk result (BringsMore used.now.design.now memo.old.list.items
        memo.new.list.items) }
    ensures all { OnOk result (IsNearUse used.now.design.now grown.now found.now
        memo.new.list.items) }
{
    let design = used.design;
    design.sound();
    let order = design.order();
    let parent = order[order.len() - 1 - found.job as usize];
    let place = &design.places(parent)[found.index];
    if !is_alone(place) {
        return Ok(());
    }
    let way = way_of(found.job, &place.motion);
    let known = memo.stood.get(&way).copied();
    if is_again(used.uses, at, design.places(parent), place, known) {
        return Ok(());
    }
    memo.stood.insert(way, at)?;
    push_around(alloc, memo, used, found, parent, place, grown)?;
    Ok(())
}

// The neighbours at all uses of a cell.
fn find_neighbours(
    alloc: Global,
    used: &UsedCell<'_>,
    grown: &Rect,
) -> Result<Vec<Neighbour>, AllocError>
    requires used { IsUsed used.now }
    requires grown { IsFrame grown.now }
    ensures each { IfOk result (λ v. AreNeighbours used.now.design.now used.now.uses.now v.items) }
    ensures all { IfOk result (λ v. AreAllNear used.now.design.now grown.now used.now.uses.now
        (length used.now.uses.now) v.items) }
{
    let mut memo = Neighbours {
        list: Vec::new(alloc),
        positions: HashMap::new(alloc),
        stood: HashMap::new(alloc),
    };
    let uses = used.uses;
    for at in 0..uses.len() {
        push_use(alloc, &mut memo, used, at, &uses[at], grown)?;
    }
    let Neighbours { list, .. } = memo;
    Ok(list)
}

/// The neighbours of the placements of a cell, of references of one placement each: one window of
/// the parent for all that stand alike there, and of those that lie alike one.
pub fn neighbours_of(alloc: Global, used: &UsedCell<'_>) -> Result<Vec<Neighbour>, AllocError>
    requires used { IsUsed used.now }
    ensures { IfOk result (λ v. AreNear used.now.margin used.now.design.now used.now.cell
        used.now.uses.now v.items) }
{
    let design = used.design;
    design.sound();
    match design.hull(used.cell) {
        Some(hull) => {
            let list = find_neighbours(alloc, used, &grown(&hull, used.margin))?;
            Ok(list)
        }
        None => Ok(Vec::new(alloc)),
    }
}
