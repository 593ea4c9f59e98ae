//! Whole gates from where they may be: window by window, so that nothing far from them is looked
//! at.
#![tactic(auto)]

mod laws;
mod whole;
mod windows;

pub use laws::{both_kept, searched};
pub use whole::Whole;
pub use windows::{GateLayer, gather, gather_around};
