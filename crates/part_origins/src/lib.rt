//! Where the parts of an aligned netlist are from: for each device, call and net of its circuits,
//! the path of calls through flattened circuits, and the number in the circuit at its end.
#![tactic(auto)]

mod inside;
mod kept;
mod laws;
mod nets;
mod origins;
mod parts;

pub use inside::{Inside, Part, Spot};
pub use laws::origins_asked;
pub use origins::{CircuitOrigins, Origins, part_origins};
