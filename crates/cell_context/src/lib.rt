//! What of a layout below a cell lies in a window: a region query into the placed cells, in place.
#![tactic(auto)]

mod arrays;
mod flats;
mod growth;
mod placed;
mod steps;

pub use arrays::{Visit, is_alone, meet, motion_at, place_visits};
pub use flats::{collect, collect_in, gather, over_laws, push_images, push_pieces, visits};
pub use growth::grown;
pub use placed::push_array;
