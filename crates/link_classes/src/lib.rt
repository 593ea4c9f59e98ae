//! Classes of numbers that links join, numbered by their least members: union-find.
#![tactic(auto)]

mod classes;
mod forest;

pub use classes::{Classes, Link, joined_classes};
