//! The library of a GDSII stream (GDSII Stream Format, Release 6), or the first fault of the
//! stream.
#![tactic(auto)]

mod corners;
mod data;
mod element;
mod faults;
mod fed;
mod laws;
mod library;
mod library_reader;
mod pieces;
mod points;
mod reader;
mod reading;
mod stream;
mod taken;

pub use corners::Corners;
pub use data::unit_of;
pub use laws::{derived, fillable, measured, one_meaning, placeable};
pub use library::{GdsFault, Library, RawCell, RawRef, RawShape, RawText, ShapeForm};
pub use library_reader::LibraryReader;
pub use reading::read_library;
