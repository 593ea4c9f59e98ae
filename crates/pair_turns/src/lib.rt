//! Comparison in turns: which pairs are taken apart after a comparison that differs, whether what is
//! made of that stays small enough, and which circuits have no partner from then on.
#![tactic(auto)]

mod alone;
mod laws;
mod limit;
mod marks;

pub use alone::{Alone, longest_name, same_alone};
pub use laws::alone_lines;
pub use limit::first_over;
pub use marks::{going, is_any};
