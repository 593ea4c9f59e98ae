//! A layout's derived layers as a GDSII stream: the cells that the top reaches, each with its
//! references and the squares that it holds itself.
#![tactic(auto)]

mod cells;
mod laws;
mod reach;
mod shapes;
mod wide;

pub use laws::same_places;
pub use shapes::shapes_text;
pub use wide::{is_far_out, wide_cell};
