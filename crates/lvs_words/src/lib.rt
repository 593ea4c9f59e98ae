//! The words after a program's name: options with their values, what a command's words ask for, and
//! a file that they name twice.
#![tactic(auto)]

mod command;
mod fitting;
mod flag;
mod items;
mod numbers;
mod stated;

pub use command::{Command, Stated, WordFault};
pub use fitting::{fits, given_path, path, shared_path, top, workers};
pub use flag::Flag;
pub use items::{Item, read_items};
pub use stated::{read_stated, read_words};
