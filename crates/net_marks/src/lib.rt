//! Marks at nets of a cell.
#![tactic(auto)]

mod laws;
mod marks;

pub use laws::terminal_law;
pub use marks::{mark_gates, mark_if};
