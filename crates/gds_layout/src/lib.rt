//! The layout of a GDSII stream (GDSII Stream Format, Release 6): its cells filled layer by layer
//! and linked.
#![tactic(auto)]

mod drafts;
mod keys;
mod laws;
mod layers;
mod layout;
mod linking;
mod piles;
mod reader;
mod reading;

pub use laws::one_layout;
pub use layout::{Header, Layout, LayoutFault};
pub use reader::LayoutReader;
pub use reading::read_layout;
