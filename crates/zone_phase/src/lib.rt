//! Disturbed squares of each cell, from the cells that place it: where, in some placement, shapes
//! from outside the cell lie over it; and the squares that the cell leaves therefore to the cells
//! above.
#![tactic(auto)]

mod bare;
mod beside;
mod devices;
mod frame;
mod laws;
mod left;
mod lone;
mod names;
mod neighbours;
mod overs;
mod parents;
mod phase;
mod pulls;
mod references;
mod siblings;
mod thins;
mod unions;
mod uses;
mod windows;
mod zones;

pub use laws::{sibling_law, zone_law};
pub use parents::parent_graph;
pub use phase::ZonePhase;
pub use uses::{Use, find_uses};
