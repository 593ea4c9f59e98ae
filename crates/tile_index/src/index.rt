//! A list of rectangles that is looked into by windows.

ghost use Rattle.std.specs.Prelude.{◌≡◌, IfOk};

use crate::entries::{Entry, entries_at, stops_along};
use crate::tree::{Node, hits, tree_of};
use geo_base::Rect;
use std::alloc::{AllocError, Global};
use std::marker::Model;

/// A list of rectangles that is looked into by windows. It takes some 50 bytes a rectangle.
#[derive(Drop)]
pub struct TileIndex {
    entries: Vec<Entry>,
    nodes: Vec<Node>,
}

impl Model for TileIndex {
    ghost use Rattle.std.specs.Prelude.{List};
    ghost use Rattle.geo_base.specs.declared.shapes.Rect.{Rect};
    ghost use Rattle.tile_index.specs.Entries.{rects_of};
    ghost use Rattle.tile_index.specs.Inside.{IsIndex};

    ghost Value = { List Rect };

    ghost view = { λ a. rects_of a.entries.items };

    ghost invariant = { IsIndex };
}

impl TileIndex {
    ghost use Rattle.std.specs.Prelude.{◌≡◌, IfOk};
    ghost use Rattle.tile_index.specs.Windows.{ArePositions};

    /// The index of a list of rectangles, in O(n log n) and O(n) memory. `hull` is where they lie:
    /// it decides how fast the index is, and nothing else. An `Err` is want of memory, for which
    /// more than 2^32 rectangles are taken, too.
    pub fn build(alloc: Global, rects: &[Rect], hull: Rect) -> Result<TileIndex, AllocError>
        ensures { IfOk result (λ t. t ≡ rects.now) }
    {
        let stops = stops_along(alloc, rects, &hull)?;
        let entries = entries_at(alloc, rects, &stops)?;
        let nodes = tree_of(alloc, &entries, &stops)?;
        Ok(TileIndex { entries, nodes })
    }

    /// The positions of the rectangles that share a square with the window, ascending. About
    /// O(log n + k log k) for k of them, where few rectangles are far longer than their neighbours
    /// are apart; beside the sort of the answers O(n) at most.
    pub fn query(&self, alloc: Global, w: Rect) -> Result<Vec<u32>, AllocError>
        ensures { IfOk result (λ v. ArePositions self.now w v.items) }
    {
        let mut found = hits(alloc, &self.nodes, &self.entries, &w)?;
        found.sort_unstable();
        Ok(found)
    }
}
