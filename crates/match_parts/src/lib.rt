//! A small part of the comparison of two circuits: a test for maps that are one to one.
#![tactic(auto)]

mod marks;

pub use marks::{is_one_to_one, mark};
