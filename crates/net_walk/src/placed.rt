//! Placed cells whose nets stand among the items of the cell that places them.

use crate::cells::Element;
use geo_base::Rect;
use touching_pieces::Joined;

/// A placement, with the place of its cell's first net among the items.
#[derive(Clone, Copy)]
pub struct Placed<'a> {
    pub element: &'a Element,
    pub at: u32,
}

/// The same in a window: what the placement brings there is in the inner window of its cell.
#[derive(Clone, Copy)]
pub struct Sight<'a> {
    pub placed: Placed<'a>,
    pub window: &'a Rect,
    pub inner: Rect,
}

/// A cell, with what its links are sought by: the place of each placement's first net among its
/// items, and the conductors that are joined.
#[derive(Clone, Copy)]
pub struct LinkSite<'a> {
    pub cell: u32,
    pub firsts: &'a [u32],
    pub joins: &'a [Joined],
}
