//! The picture of a layout's circuits as they are compared.
#![tactic(auto)]

mod answered;
mod drawings;
mod joined;
mod parts;
mod pictures;

pub use answered::answered_picture;
pub use drawings::{Given, Sketch, draw_written};
pub use pictures::{Sketched, picture};
