//! The words, numbers and rectangles of the database that KLayout's netlist browser reads.
#![tactic(auto)]

mod laws;
mod numbers;
mod rects;
mod words;

pub use laws::{number_laws, step_laws, word_laws};
pub use numbers::{is_small_rect, push_number, push_pair};
pub use rects::{push_box, push_rect, push_rects, upper_right};
pub use words::push_word;
