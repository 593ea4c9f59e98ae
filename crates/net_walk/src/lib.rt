//! Pieces of a cell's nets in a window, by a walk through the cells below.
//!
//! A piece is a rectangle of a net that an instance below shows in the window.
#![tactic(auto)]

mod alike;
mod beside;
mod cells;
mod children;
mod contacts;
mod globals;
mod held;
mod leaders;
mod lyings;
mod own;
mod partners;
mod placed;
mod pushes;
mod seen;
mod sums;
mod together;
mod walk;
mod whole;

pub use alike::{relative, same_contacts};
pub use beside::{all_beside, beside_law, beside_links};
pub use cells::{Cells, Element};
pub use children::{children_links, enough_pairs, link_pairs};
pub use globals::{GlobalItems, Grounded, global_links};
pub use own::own_links;
pub use placed::{LinkSite, Placed};
pub use seen::{pair_law, pair_links, see};
pub use together::{all_links, count_items, first_places};
pub use walk::collect_nets;
pub use whole::whole_law;
