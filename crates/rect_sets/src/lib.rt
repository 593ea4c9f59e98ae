//! Finite sets of unit squares, each with one list of rectangles; and the sweep that makes them.
#![tactic(auto)]

mod active;
mod booleans;
mod cuts;
mod divide;
mod edge_cuts;
mod halves;
mod levels;
mod moves;
mod opens;
mod order;
mod parts;
mod row;
mod set;
mod strips;
mod sums;

pub use row::Edge;
pub use set::{RectSet, canonical_rects, combine_rects, one_list, sweep};
