//! The tokens of a script, each with its place, and its lines.
#![tactic(auto)]

mod lines;
mod signs;
mod tokens;
mod widths;

pub use lines::{Position, first_including, join_lines, position_of};
pub use signs::Sign;
pub use tokens::{Placed, Token, read_script};
