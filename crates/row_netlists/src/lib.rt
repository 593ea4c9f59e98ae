//! Rows over netlists as SPICE texts: one that is written again, one in which alike devices are
//! one, and two that are aligned and compared. For tests alone, as `row_texts`.
#![tactic(auto)]

mod conditions;
mod netlists;

pub use netlists::{Netlists, run_on_netlists};
