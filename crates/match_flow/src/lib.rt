//! Two netlists compared: aligned, and pair by pair.
#![tactic(auto)]

mod comparing;
mod laws;
mod phase;

pub use comparing::{Comparison, Settings, compare};
pub use laws::device_counts;
pub use phase::PairPhase;
