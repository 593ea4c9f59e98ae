//! Netlist files joined into one text of the profile's lines, each with the file and the line that
//! it came from.
#![tactic(auto)]

mod directive;
mod files;
mod join;
mod part;

pub use files::{Failed, File, load_files};
pub use join::{JoinFault, Joined, Origin, Why, join_files, joined_laws};
