//! The lines of a rule file and their tokens.
#![tactic(auto)]

mod lines;
mod tokens;

pub use lines::{first_no_text, next_line};
pub use tokens::{Token, is_digit, is_small, read_tokens};
