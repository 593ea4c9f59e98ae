//! The page in words: for each pair of circuits that isn't all alike, the nets, devices and calls
//! that have no partner, or one that isn't their like, by the proposal of partners.
#![tactic(auto)]

mod counts;
mod devices;
mod names;
mod notes;
mod page;
mod places;
mod remarks;

pub use page::{Book, push_page};
pub use places::Places;
