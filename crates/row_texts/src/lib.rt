//! Worked rows as people write them: a text of sections, and in it layouts a line a thing, of which
//! the GDSII stream is made; and where a run differs from what a row wants. For tests alone:
//! nothing is promised of a text but what the rows' own runs show.
#![tactic(auto)]

mod elements;
mod fields;
mod layouts;
mod records;
mod repeated;
mod rows;
mod sections;
mod wanted;

pub use fields::{Fields, RowFault, unescape};
pub use layouts::stream_of;
pub use rows::{Inputs, Row, all_inputs, file_of, is_command, text_of};
pub use sections::{Section, body_text, lines_of, push_escaped_lines, read_sections, word_list};
pub use wanted::{Place, Ran, compare_all, status_of};
