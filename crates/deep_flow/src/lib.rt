//! The phases of a layout, one after the other: extraction as a whole.
#![tactic(auto)]

mod bad;
mod circuits;
mod drawn;
mod extracted;
mod gates;
mod layers;
mod netlist;
mod nets;
mod pins;

pub use bad::bad_gates;
pub use circuits::find_circuits;
pub use drawn::{Drawn, draw};
pub use extracted::{Extracted, extract};
pub use gates::{Gated, find_gates};
pub use layers::{derive_layers, find_layers, find_zones};
pub use nets::find_nets;
pub use pins::{Pinned, derive_pins, find_pins};
