//! Where local squares of a cell can lie, and where its disturbed squares come from, by references
//! with their arrays.
#![tactic(auto)]

mod laws;

pub use laws::{layer_laws, lone_laws, open_laws, zone_laws};
