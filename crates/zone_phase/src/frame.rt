//! Where a cell's disturbed squares on a layer are looked for.
use cell_graph::Design;
use geo_base::{LayerKey, Rect};

/// A layer of a cell, and the frame in which its disturbed squares are looked for: the cell's hull,
/// grown by the margin.
#[derive(Clone, Copy)]
pub struct Frame<'a> {
    pub design: &'a Design,
    pub cell: u32,
    pub key: LayerKey,
    pub hull: Rect,
    pub grown: Rect,
}
