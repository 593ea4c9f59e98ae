//! The rectangles of the nets of aligned circuits.

ghost use Rattle.std.specs.Prelude.{◌≡◌, [], None, IfOk, OnOk, map, replicate, slice_index_or};
ghost use Rattle.std.specs.List.{All};
ghost use Rattle.part_origins.specs.Inside.{plain_spot};
ghost use Rattle.view_netlist.specs.Drawing.{AreAllSmall, AreSmallShapes, IsSmallDrawing};
ghost use Rattle.view_netlist.specs.Drawing.{IsSmallShift};
ghost use Rattle.view_netlist.specs.Drawing.{blank, drawn_of, plain_drawing};
ghost use Rattle.view_joined.specs.Moved.{moved_shape};
ghost use Rattle.view_joined.specs.Nets.{AreJoined, all_put, put_if, shape_lists, spot_put};

use crate::moved::push_moved;
use crate::spots::motion_at;
use geo_base::Motion;
use list_base::number;
use part_origins::Spot;
use std::alloc::{AllocError, Global};
use view_netlist::{Drawing, Shape, drawing_at};

// The number of a flat net in the aligned circuit.
fn number_at(numbers: &[Option<u32>], n: u32) -> Option<u32>
    ensures { result ≡ slice_index_or numbers.now n None }
{
    match numbers.get(n as usize) {
        Some(number) => *number,
        None => None,
    }
}

// Adds the rectangles of a net, moved, to the list of its number, if there is one.
fn put_if(
    lists: &mut Vec<Vec<Shape>>,
    number: Option<u32>,
    motion: &Motion,
    shapes: &[Shape],
) -> Result<(), AllocError>
    requires motion { IsSmallShift motion.now }
    requires shapes { AreSmallShapes shapes.now }
    ensures { OnOk result (shape_lists lists.new.items
        ≡ put_if number (map (moved_shape motion.now) shapes.now) (shape_lists lists.old.items)) }
{
    let Some(q) = number else {
        return Ok(());
    };
    if (q as usize) < lists.len() {
        push_moved(&mut lists[q as usize], motion, shapes)?;
    }
    Ok(())
}

fn put_spot(
    lists: &mut Vec<Vec<Shape>>,
    numbers: &[Option<u32>],
    motion: &Motion,
    drawing: &Drawing,
    nets: &[u32],
) -> Result<(), AllocError>
    requires motion { IsSmallShift motion.now }
    requires drawing { IsSmallDrawing (plain_drawing drawing.now) }
    ensures { OnOk result (shape_lists lists.new.items ≡ spot_put numbers.now motion.now
        (plain_drawing drawing.now).nets 0 nets.now (shape_lists lists.old.items)) }
{
    number(nets.len())?;
    let mut n = 0;
    let mut rest = nets;
    'nets: while let [flat, more @ ..] = rest {
        put_if(lists, number_at(numbers, *flat), motion, drawing.shapes(n))?;
        n += 1;
        rest = more;
    }
    Ok(())
}

fn no_lists(alloc: Global, count: usize) -> Result<Vec<Vec<Shape>>, AllocError>
    ensures { IfOk result (λ v. shape_lists v.items ≡ replicate count []) }
{
    let mut lists = Vec::with_capacity(alloc, count)?;
    for i in 0..count {
        lists.push(Vec::new(alloc))?;
    }
    Ok(lists)
}

fn put_drawn(
    lists: &mut Vec<Vec<Shape>>,
    numbers: &[Option<u32>],
    motion: Motion,
    drawings: &[Drawing],
    nothing: &Drawing,
    spot: &Spot,
) -> Result<(), AllocError>
    requires motion { IsSmallShift motion }
    requires small { AreAllSmall drawings.now }
    requires nothing { plain_drawing nothing.now ≡ blank }
    ensures { OnOk result (shape_lists lists.new.items ≡ spot_put numbers.now motion
        (drawn_of drawings.now spot.now.circuit).nets 0 spot.now.nets.items
        (shape_lists lists.old.items)) }
{
    let drawing = drawing_at(drawings, nothing, spot.circuit);
    put_spot(lists, numbers, &motion, drawing, &spot.nets)
}

fn put_all(
    lists: &mut Vec<Vec<Shape>>,
    numbers: &[Option<u32>],
    motions: &[Motion],
    drawings: &[Drawing],
    nothing: &Drawing,
    spots: &[Spot],
) -> Result<(), AllocError>
    requires motions { All IsSmallShift motions.now }
    requires small { AreAllSmall drawings.now }
    requires nothing { plain_drawing nothing.now ≡ blank }
    ensures { OnOk result (shape_lists lists.new.items ≡ all_put numbers.now motions.now
        drawings.now 0 (map plain_spot spots.now) (shape_lists lists.old.items)) }
{
    number(spots.len())?;
    let mut i = 0;
    let mut rest = spots;
    'spots: while let [spot, more @ ..] = rest {
        put_drawn(
            lists,
            numbers,
            motion_at(motions, i),
            drawings,
            nothing,
            spot,
        )?;
        i += 1;
        rest = more;
    }
    Ok(())
}

/// For each of so many nets of an aligned circuit, the rectangles that are drawn of it: those of
/// the nets of the circuits inside it that are this one, moved as these are. `numbers` has the
/// number of each net of the flat circuit, `drawings` what is drawn of each circuit. Linear in the
/// rectangles.
pub fn joined_nets(
    alloc: Global,
    spots: &[Spot],
    motions: &[Motion],
    drawings: &[Drawing],
    numbers: &[Option<u32>],
    count: usize,
) -> Result<Vec<Vec<Shape>>, AllocError>
    requires motions { All IsSmallShift motions.now }
    requires small { AreAllSmall drawings.now }
    ensures { IfOk result (λ v. AreJoined (map plain_spot spots.now) motions.now drawings.now
        numbers.now count (shape_lists v.items)) }
{
    let nothing = Drawing::blank(alloc);
    let mut lists = no_lists(alloc, count)?;
    put_all(&mut lists, numbers, motions, drawings, &nothing, spots)?;
    Ok(lists)
}
