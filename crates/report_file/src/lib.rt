//! The report of the comparison of a layout with a schematic, and what it comes to.
#![tactic(auto)]

mod alignable;
mod file;
mod laws;
mod turns;

pub use alignable::{combined_alignable, extracted_alignable, read_alignable};
pub use file::{Extracted, Report, report_file};
pub use laws::{
    as_before, exact_report, last_partner, matched_report, matching, one_report, report_verdicts,
    same_match, top_partner,
};
pub use turns::{Turns, circuit_name, compare_in_turns};
