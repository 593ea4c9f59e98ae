//! The squares that each cell holds itself: Booleans and sizes of layers, worked in the hierarchy.
#![tactic(auto)]

mod exposed;
mod flats;
mod groups;
mod grown;
mod laws;
mod layers;
mod looks;
mod own;
mod parts;
mod phase;
mod squares;
mod stirred;
mod work;

pub use laws::{kept_law, layer_law};
pub use phase::LayerPhase;
