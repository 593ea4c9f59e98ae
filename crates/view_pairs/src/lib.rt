//! A proposal of partners for the nodes of two circuits, for show: which net, device or call of
//! the schematic a person would take for one of the layout. Sure is only the comparison's answer.
#![tactic(auto)]

mod alike;
mod colours;
mod couples;
mod graph;
mod joints;
mod keys;
mod kinds;
mod marks;
mod only;
mod pairs;
mod partners;
mod proposal;
mod rows;
mod search;
mod terminals;
mod wanted;

pub use alike::{call_at, device_at};
pub use marks::same_sizes;
pub use pairs::proposals;
pub use partners::{Partner, Partners};
pub use proposal::Proposal;
