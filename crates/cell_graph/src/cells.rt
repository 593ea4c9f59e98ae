//! A cell of a design: its own squares by layer, its texts, references and hull.

ghost use Rattle.std.specs.Prelude.{◌≡◌};
ghost use Rattle.geo_base.specs.Layers.{is_same_key};

use geo_base::{LayerKey, Motion, Point, Rect};
use net_names::Name;
use rect_sets::RectSet;

/// A cell's own squares on one layer.
#[derive(Drop)]
pub struct OwnLayer {
    pub key: LayerKey,
    pub set: RectSet,
}

/// Whether two keys are one layer and one datatype.
pub fn is_same_key(a: LayerKey, b: LayerKey) -> bool
    ensures { result ≡ is_same_key a b }
{
    a.is_same(b)
}

/// A text with its point.
#[derive(Drop)]
pub struct RawText {
    pub key: LayerKey,
    pub at: Point,
    pub text: Vec<u8>,
}

/// A reference to a cell: an array of placements. A single one has one column, one row and steps of
/// 0.
#[derive(Clone, Copy, Debug)]
pub struct Place {
    pub cell: u32,
    pub motion: Motion,
    pub columns: u16,
    pub rows: u16,
    pub column_step: Point,
    pub row_step: Point,
}

/// A cell of a design. Its height is that of the longest chain of references below it.
#[derive(Drop)]
pub struct CellPart {
    pub name: Name,
    pub layers: Vec<OwnLayer>,
    pub texts: Vec<RawText>,
    pub places: Vec<Place>,
    pub hull: Option<Rect>,
    pub height: u32,
}
