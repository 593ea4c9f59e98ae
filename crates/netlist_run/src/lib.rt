//! The program that turns netlists as netlisters write them into the profile: its words, its run
//! and what it tells.
#![tactic(auto)]

mod circuits;
mod laws;
mod lines;
mod params;
mod place;
mod plan;
mod reach;
mod run;
mod status;
mod sums;
mod tally;
mod told;
mod words;

pub use laws::{file_laws, netlist_laws};
pub use run::run_netlist;
pub use status::Status;
