//! The plane of a layout: points, unit squares, rectangles (a bounding box is one), and the motions
//! that take them to one another: transformations of placements, in GDSII mirror, angle and origin.
#![tactic(auto)]

mod layer;
mod motion;
mod shapes;

pub use layer::{LayerKey, Op};
pub use motion::{Motion, Turn, image_laws};
pub use shapes::{Point, REACH, Rect, Square, rect_laws};
