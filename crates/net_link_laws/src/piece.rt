//! A rectangle of a net.

use geo_base::Rect;

/// A rectangle of a net.
#[derive(Clone, Copy, Debug, PartialEq, Eq)]
pub struct NetPiece {
    pub net: u32,
    pub rect: Rect,
}
