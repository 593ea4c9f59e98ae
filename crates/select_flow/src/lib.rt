//! The selections of a rule file as layers of the layout: all names stand over a design in which
//! each selection is a layer like the drawn ones.
//!
//! Depth by depth: over the zones and layers of the names that the selections of a depth read, each
//! is found cell by cell, and the design gets what the cells hold of them as further layers.
#![tactic(auto)]

mod sets;
mod stages;

pub use stages::staged;
