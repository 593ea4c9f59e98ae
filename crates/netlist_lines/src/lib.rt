//! Lines of netlists as netlisters write them, made lines of the profile.
#![tactic(auto)]

mod cleaning;
mod laws;

pub use cleaning::{Cleaned, LineFault, clean_line};
pub use laws::line_laws;
