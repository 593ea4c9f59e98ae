//! The GDSII stream of cells (GDSII Stream Format, Release 6): references, and rectangles on
//! layers, written as boundaries.
#![tactic(auto)]

mod heading;
mod laws;
mod records;
mod references;
mod shapes;

pub use heading::{Heading, write_cell_end, write_cell_start, write_end, write_heading};
pub use laws::{library_read, read_again, written};
pub use references::{Reference, write_reference};
pub use shapes::write_layer;
