//! The nodes of two circuits told apart by rounds: refinement of a partition, exact, not by a hash.
#![tactic(auto)]

mod classes;
mod counts;
mod groups;
mod looking;
mod marks;
mod members;
mod order;
mod pairs;
mod reading;
mod refinement;
mod resuming;
mod rounds;
mod sorting;
mod starting;
mod touching;

pub use classes::Classes;
pub use refinement::{Verdict, refine};
pub use resuming::single_out;
