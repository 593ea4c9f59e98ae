//! The nets of each cell: connectivity, extracted in the hierarchy.
#![tactic(auto)]

mod bare;
mod below;
mod elements;
mod graph;
mod indexes;
mod items;
mod known;
mod linked;
mod own;
mod phase;
mod reading;
mod wired;
mod wires;

pub use below::Below;
pub use elements::all_elements;
pub use graph::below_graph;
pub use items::list_items;
pub use known::known_nets;
pub use linked::is_large;
pub use own::own_lists;
pub use phase::NetPhase;
pub use wired::Wired;
pub use wires::{Grounds, Wires, find_wires, ground_lines};
