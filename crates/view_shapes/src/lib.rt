//! What is shown of the nets of a layout's cells, in pieces.
#![tactic(auto)]

mod laws;
mod moved;
mod own;
mod pieces;
mod shown;
mod wanted;

pub use laws::read_law;
pub use pieces::{Piece, ShowFault};
pub use shown::shown_pieces;
