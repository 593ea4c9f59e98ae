//! The report of a comparison as a text.
#![tactic(auto)]

mod apart;
mod gates;
mod pairs;
mod report;
mod words;

pub use apart::{push_apart, push_limit};
pub use pairs::push_answer;
pub use report::{Compared, push_again, report_text};
