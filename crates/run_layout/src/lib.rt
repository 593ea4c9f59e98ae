//! The layout on which a run by some rules works: what is read of a stream, with a further layer for
//! each selection of the rules.
#![tactic(auto)]

mod far;
mod laws;
mod staging;

pub use laws::run_layouts;
pub use staging::run_layout;
