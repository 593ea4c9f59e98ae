//! Jobs that wait for jobs: their graph, the machine that says in which order they may go, the
//! phases that work them, and the results.
#![tactic(auto)]

mod book;
mod found;
mod graph;
mod levels;
mod machine;
mod notes;
mod phase;
mod results;
mod run;

pub use graph::{Graph, graph_laws};
pub use machine::{Event, JobState, Step, machine_laws};
pub use notes::{CellNote, set_cell};
pub use phase::{Defined, Phase, Reads};
pub use results::Results;
pub use run::{level_values, run_levels};
