//! By which names the browser shows circuits, when a circuit has the rows of its cell's, and the
//! lines that are shown with pairs.
#![tactic(auto)]

mod lines;
mod logs;
mod names;
mod same;

pub use logs::pair_logs;
pub use names::{labels, layer_names, shown_cell, shown_numbers};
pub use same::{same_devices, same_rows};
