//! The run of the program: words, files in, files out, summary line and status.
#![tactic(auto)]

mod chips;
mod input;
mod laws;
mod making;
mod merging;
mod output;
mod readings;
mod run;
mod status;
mod summary;
mod words;

pub use input::Stop;
pub use laws::one_outcome;
pub use merging::{Merged, merge_both};
pub use readings::{layout_of, rules_of, schematic_of};
pub use run::run_lvs;
pub use status::{Refusal, Status};
pub use summary::refusal_line;
