//! The rectangles of a circuit's nets.

ghost use Rattle.std.specs.Prelude.{◌≡◌, ◌<◌, ◌++◌, ℕ, IfOk, None, OnOk, get_or, length};
ghost use Rattle.view_drawing.specs.Nets.{HaveShapes, IsPushed, HasNone};

use std::alloc::{AllocError, Global};
use view_netlist::Shape;
use view_shapes::Piece;

// Adds a piece's rectangle to the list of its net's number, if there is one.
fn push_shape(
    lists: &mut Vec<Vec<Shape>>,
    number: Option<u32>,
    piece: &Piece,
) -> Result<(), AllocError>
    ensures { OnOk result (IsPushed number piece.now lists.old.items lists.new.items) }
{
    let Some(k) = number else {
        return Ok(());
    };
    if (k as usize) < lists.len() {
        lists[k as usize].push(Shape {
            layer: piece.conductor,
            rect: piece.rect,
        })?;
    }
    Ok(())
}

// The circuit's number of a net of its cell; none past the last.
fn number_at(numbers: &[Option<u32>], net: u32) -> Option<u32>
    ensures { result ≡ get_or numbers.now net None }
{
    match numbers.get(net as usize) {
        Some(number) => *number,
        None => None,
    }
}

fn no_shapes(alloc: Global, count: usize) -> Result<Vec<Vec<Shape>>, AllocError>
    ensures { IfOk result (λ v. HasNone count v.items) }
{
    let mut lists = Vec::with_capacity(alloc, count)?;
    'counts: for _ in 0..count {
        lists.push(Vec::new(alloc))?;
    }
    Ok(lists)
}

/// For each of so many nets of a circuit, the rectangles of its pieces, in their order. `numbers`
/// has the circuit's number of each net of its cell that it names. Linear in the pieces and the
/// nets.
pub fn net_shapes(
    alloc: Global,
    count: usize,
    numbers: &[Option<u32>],
    pieces: &[Piece],
) -> Result<Vec<Vec<Shape>>, AllocError>
    ensures { IfOk result (λ v. HaveShapes count numbers.now pieces.now v.items) }
{
    let mut lists = no_shapes(alloc, count)?;
    let mut rest = pieces;
    'pieces: while let [piece, more @ ..] = rest {
        push_shape(&mut lists, number_at(numbers, piece.net), piece)?;
        rest = more;
    }
    Ok(lists)
}
