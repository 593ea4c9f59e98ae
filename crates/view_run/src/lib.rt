//! The program that writes what KLayout's netlist browser reads, and the page in words: its run, its
//! answers and what it tells.
#![tactic(auto)]

mod answered;
mod drawing;
mod found;
mod making;
mod merging;
mod places;
mod run;
mod stated;
mod status;
mod stops;
mod summary;
mod writing;

pub use run::run_view;
pub use stated::{Task, read_task};
pub use status::{Status, Why};
