//! Two circuits as one graph in flat arrays: nets, devices and calls (instances) as numbered nodes,
//! each with its ends.
#![tactic(auto)]

mod edges;
mod filling;
mod graph;
mod kinds;
mod sizes;

pub use graph::{End, Graph, Port};
pub use sizes::Sizes;
