//! Netlist texts: SPICE read and written.
#![tactic(auto)]

mod calls;
mod circuits;
mod faults;
mod gather;
mod laws;
mod needs;
mod nets;
mod numbers;
mod ordered;
mod read;
mod write;

pub use laws::{written_laws, written_sample};
pub use read::read_spice;
pub use spice_rows::SpiceFault;
pub use write::write_spice;
