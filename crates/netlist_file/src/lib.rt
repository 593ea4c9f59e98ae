//! The netlist file of a layout, beside its shapes file.
#![tactic(auto)]

mod file;
mod flat;
mod laws;
mod one;

pub use file::{Extraction, Files, NetlistFile, extract_files, extract_netlist};
pub use flat::flat_netlist;
pub use laws::{extracted_text, one_text, spelled};
pub use one::one_netlist;
