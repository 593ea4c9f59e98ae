//! Finds, of many rectangles, those that share a square with a window; looks at few others: a
//! spatial index in the way of an R-tree.
#![tactic(auto)]

mod curve;
mod entries;
mod index;
mod list;
mod tree;

pub use index::TileIndex;
pub use list::positions_in;
