//! Tests of the board of jobs and of the machine, with a small phase, and gates that watch workers.
#![tactic(auto)]

#[cfg(test)]
mod board;
#[cfg(test)]
mod crews;
mod gates;
#[cfg(test)]
mod graphs;
#[cfg(test)]
mod phase;

pub use gates::{Abreast, Visits};
