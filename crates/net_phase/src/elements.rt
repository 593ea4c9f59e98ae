//! The placements of cells, one by one.
ghost use Rattle.std.specs.Prelude.{◌≡◌, ◌<◌, ◌++◌, ◌≤◌, ◌^◌, length, map, IfOk, MatchOption, OnOk};
ghost use Rattle.cell_context.specs.Arrays.{IsNearArray};
ghost use Rattle.cell_graph.specs.Linked.{cell_at, places_at, plain, reference};
ghost use Rattle.flat_layout.specs.Arrays.{array_places, places_of, row_places};
ghost use Rattle.net_walk.specs.Walk.{place_of};
ghost use Rattle.net_phase.specs.Elements.{AreAllElements, AreElements, element_lists, placed_by};

use cell_context::motion_at;
use cell_graph::{Design, Place};
use list_base::small;
use net_walk::Element;
use std::alloc::{AllocError, Global};

fn push_row(place: &Place, row: u32, out: &mut Vec<Element>) -> Result<(), AllocError>
    requires near { IsNearArray place.now }
    requires row { row < place.now.rows }
    ensures { OnOk result (map place_of out.new.items
        ≡ map place_of out.old.items ++ row_places (reference place.now) row 0 place.now.columns) }
{
    for column in 0..place.columns as u32 {
        out.push(Element {
            cell: place.cell,
            motion: motion_at(place, row, column),
        })?;
    }
    Ok(())
}

// Adds the placements of a reference: by row, then column.
fn push_array(place: &Place, out: &mut Vec<Element>) -> Result<(), AllocError>
    requires { IsNearArray place.now }
    ensures { OnOk result (map place_of out.new.items
        ≡ map place_of out.old.items ++ array_places (reference place.now) 0 place.now.rows) }
{
    for row in 0..place.rows as u32 {
        push_row(place, row, out)?;
    }
    Ok(())
}

// How many placements references bring, where that is below 2^32.
fn count_places(places: &[Place]) -> Option<u32>
    ensures { MatchOption result (2 ^ 32 ≤ placed_by places.now) (λ n. n ≡ placed_by places.now) }
{
    let mut count: u32 = 0;
    for place in places {
        let size = u32::from(place.rows).checked_mul(u32::from(place.columns))?;
        count = count.checked_add(size)?;
    }
    Some(count)
}

// A cell's placements. 2^32 or more are refused, before any is made.
fn elements(alloc: Global, design: &Design, cell: u32) -> Result<Vec<Element>, AllocError>
    requires { cell < length design.now.cells }
    ensures { IfOk result (λ v. AreElements design.now cell v.items) }
{
    design.sound();
    let count = count_places(design.places(cell)).ok_or(AllocError)?;
    let mut out = Vec::with_capacity(alloc, count as usize)?;
    for place in design.places(cell) {
        push_array(place, &mut out)?;
    }
    small(out.len()).ok_or(AllocError)?;
    Ok(out)
}

/// The placements of each cell, by reference, then row, then column.
pub fn all_elements(alloc: Global, design: &Design) -> Result<Vec<Vec<Element>>, AllocError>
    ensures { IfOk result (λ v. AreAllElements design.now (element_lists v.items)) }
{
    let mut all = Vec::new(alloc);
    for cell in 0..design.cells() {
        let found = elements(alloc, design, cell)?;
        all.push(found)?;
    }
    Ok(all)
}
