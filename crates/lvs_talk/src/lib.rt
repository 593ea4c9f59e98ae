//! What the program `lvs` tells people on standard error. Nothing of it is in a clause but that a
//! sink that is heard and a depot that is watched are the ones behind them.
#![tactic(auto)]

mod advice;
mod compared;
mod counts;
mod heard;
mod help;
mod hindrance;
mod in_place;
mod near;
mod netlists;
mod page;
mod refusals;
mod rule_faults;
mod sentence;
mod short;
mod shown;
mod slips;
mod stream;
mod table;
mod telling;
mod used;
mod watched;
mod words;

pub use compared::Texts;
pub use heard::Heard;
pub use help::{add_help, is_command};
pub use hindrance::{Hindrance, add_line, tell_hindrance};
pub use in_place::{
    LAYOUT, PAGE, RULES, SCHEMATIC, is_looked_into, layout_path, look_words, rules_in_place,
};
pub use netlists::scale_line;
pub use rule_faults::{RefusedLine, RuleReader, refused_lines};
pub use short::{has_progress, is_short, spelt_out, tell_written};
pub use shown::Shown;
pub use slips::has_slip;
pub use telling::{tell_end, tell_failure};
pub use used::{Used, schematic_of, used_files};
pub use watched::{Call, Watched};
pub use words::{Ended, input_path, netlist_path, report_path, schematic_path};
