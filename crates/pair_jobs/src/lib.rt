//! The pairs of two netlists as jobs: which pairs a pair waits for, the pins that matched pairs
//! hand up, what all answers come to, and what they say of the netlists.
#![tactic(auto)]

mod children;
mod jobs;
mod laws;
mod verdict;

pub use children::child_pins;
pub use jobs::pair_graph;
pub use laws::{pair_answers, verdicts};
pub use verdict::{Verdict, judge_run, some_differs};
