//! Elements of a layout as sets of unit squares: boundaries, paths and boxes (GDSII Stream Format).
#![tactic(auto)]

mod boundary;
mod outline;
mod path;

pub use boundary::fill_boundary;
pub use outline::outline_laws;
pub use path::{fill_box, fill_path};
