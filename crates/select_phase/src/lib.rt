//! The regions of each cell's own that selections choose, found from below.
//!
//! A region belongs to the lowest cell in which nothing disturbs it. A cell's candidates are what
//! it holds itself of the regions' layer and what goes up from the cells that it places; those of
//! their parts near which nothing is disturbed are its own regions, and the others go on up.
#![tactic(auto)]

mod candidates;
mod cell;
mod sorting;
mod walk;

pub use cell::{CellSelection, cell_selection};
pub use walk::find_selection;
