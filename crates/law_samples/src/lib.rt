//! Small layouts and netlists carried through the premises of the laws, so that these can be met.
//!
//! `layout` has flat layouts with tables that are right, `latch` one pair of circuits that a guess
//! solves, `kinds` one whose pins have names, with a resistor and a diode, `chain` two netlists up
//! to a reported match, `headline` a layout up to what a reported match says of it. No code runs
//! here; the laws are the contracts of functions with empty bodies.
#![tactic(auto)]

mod chain;
mod headline;
mod kinds;
mod latch;
mod layout;

pub use chain::{first_faults, flattened_and_matched};
pub use headline::{combined_layout, matched_layout};
pub use kinds::{named_kinds, shrunk_kinds};
pub use latch::latch_swapped;
pub use layout::{
    sample_circuits, sample_devices, sample_gates, sample_nets, sample_refusals, sample_transistors,
};
