//! Rectangles of a placed cell, brought up by the elements of an array.
ghost use Rattle.std.specs.Prelude.{◌≡◌, ◌<◌, ◌^◌, OnOk};
ghost use Rattle.std.specs.List.{All};
ghost use Rattle.geo_base.specs.Near.{IsNearRect};
ghost use Rattle.geo_base.specs.Rects.{IsRect};
ghost use Rattle.cell_graph.specs.Linked.{IsFrame, IsRectWithin};
ghost use Rattle.cell_context.specs.Arrays.{IsNearArray};
ghost use Rattle.cell_context.specs.Over.{IsPiece};
ghost use Rattle.cell_context.specs.Placed.{Brings, Grows};

use crate::arrays::place_visits;
use crate::flats::push_images;
use cell_graph::Place;
use geo_base::Rect;
use std::alloc::{AllocError, Global};

/// Adds the images of rectangles of the placed cell, as far as they lie in its frame, through all
/// elements of an array, as far as these lie in the window. Where there is no rectangle no element
/// is visited, else each whose frame meets the window, with all rectangles.
pub fn push_array(
    alloc: Global,
    out: &mut Vec<Rect>,
    place: &Place,
    frame: &Rect,
    rects: &[Rect],
    window: &Rect,
) -> Result<(), AllocError>
    requires near { IsNearArray place.now }
    requires some { 0 < place.now.columns }
    requires frame { IsFrame frame.now }
    requires window { IsRectWithin (2 ^ 39) window.now }
    requires rects { All IsRect rects.now }
    requires near_rects { All IsNearRect rects.now }
    requires pieces { All (IsPiece window.now) out.old.items }
    ensures pieces { OnOk result (All (IsPiece window.now) out.new.items) }
    ensures grows { OnOk result (Grows out.old.items out.new.items) }
    ensures brings { OnOk result (Brings place.now frame.now rects.now window.now out.new.items) }
{
    if rects.is_empty() {
        return Ok(());
    }
    for visit in &place_visits(alloc, place, frame, window)? {
        push_images(out, rects, &visit.motion, window)?;
    }
    Ok(())
}
