//! Where the images of a placed cell's hull by all elements of an array lie: nothing is done for
//! each element.

ghost use Rattle.std.specs.Prelude.{◌<◌, ◌^◌};
ghost use Rattle.cell_graph.specs.Arrays.{IsNearInterval};
ghost use Rattle.cell_graph.specs.Linked.{IsRectWithin, HullIsSound};
ghost use Rattle.cell_graph.specs.Spans.{IsSpanOr, IsSwept};

use crate::arrays::{ElementOrigins, origins_of, plus};
use crate::cells::Place;
use geo_base::{Motion, Rect};

// What a rectangle covers on its way over all origins.
fn swept(r: Rect, o: ElementOrigins) -> Rect
    requires near { IsRectWithin (2 ^ 36) r }
    requires x { IsNearInterval o.x }
    requires y { IsNearInterval o.y }
    ensures { IsSwept r o result }
{
    Rect {
        x1: plus(r.x1, o.x.low),
        y1: plus(r.y1, o.y.low),
        x2: plus(r.x2, o.x.high),
        y2: plus(r.y2, o.y.high),
    }
}

/// The span of a reference: the least rectangle that holds the images of the placed cell's hull by
/// all elements. None where that cell has no hull, or an element's origin is out of range.
pub fn span_of(place: &Place, hull: Option<Rect>) -> Option<Rect>
    requires rows { 0 < place.now.rows }
    requires columns { 0 < place.now.columns }
    requires hull { HullIsSound hull }
    ensures { IsSpanOr place.now hull result }
{
    let Some(hull) = hull else {
        return None;
    };
    let Some(origins) = origins_of(place) else {
        return None;
    };
    let still = Motion {
        turn: place.motion.turn,
        dx: 0,
        dy: 0,
    };
    Some(swept(still.rect(hull), origins))
}
