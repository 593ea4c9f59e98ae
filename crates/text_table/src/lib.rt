//! A table of texts in order of first sight: an interner.
#![tactic(auto)]

mod table;

pub use table::TextTable;
