//! Sets that are looked into by windows.
ghost use Rattle.std.specs.Prelude.{◌≡◌, IfOk};
ghost use Rattle.tile_index.specs.Windows.{ArePositions};

use geo_base::Rect;
use rect_sets::RectSet;
use std::alloc::{AllocError, Global};
use std::marker::Model;
use tile_index::TileIndex;

/// A set with an index of its rectangles. Contracts see its canonical list.
#[derive(Drop)]
pub struct IndexedSet {
    set: RectSet,
    index: TileIndex,
}

impl Model for IndexedSet {
    ghost use Rattle.std.specs.Prelude.{List};
    ghost use Rattle.geo_base.specs.declared.shapes.Rect.{Rect};
    ghost use Rattle.deep_tables.specs.Indexed.{IsIndexed};

    ghost Value = { List Rect };

    ghost view = { λ a. a.set };

    ghost invariant = { IsIndexed };
}

// The bounding box of all of these.
fn bounds(rects: &[Rect]) -> Rect {
    let mut all = rects.first().copied().unwrap_or(Rect {
        x1: 0,
        y1: 0,
        x2: 0,
        y2: 0,
    });
    for rect in rects {
        all = all.bounding_box(rect);
    }
    all
}

/// An index of rectangles, in O(n log n) for n of them. 2^32 or more are refused.
pub fn index_of(alloc: Global, rects: &[Rect]) -> Result<TileIndex, AllocError>
    ensures { IfOk result (λ t. t ≡ rects.now) }
{
    TileIndex::build(alloc, rects, bounds(rects))
}

impl IndexedSet {
    /// The set with its index, in O(n log n) for n rectangles. 2^32 or more are refused.
    pub fn new(alloc: Global, set: RectSet) -> Result<IndexedSet, AllocError>
        ensures { IfOk result (λ s. s ≡ set) }
    {
        let index = index_of(alloc, set.rects())?;
        Ok(IndexedSet { set, index })
    }

    /// The set.
    pub fn set(&self) -> &RectSet
        ensures { result.now ≡ self.now }
    {
        &self.set
    }

    /// The positions in the canonical list of the rectangles that share a square with the window,
    /// ascending. About O(log n + k log k) for k of n rectangles.
    pub fn near(&self, alloc: Global, window: &Rect) -> Result<Vec<u32>, AllocError>
        ensures { IfOk result (λ v. ArePositions self.now window.now v.items) }
    {
        self.index.query(alloc, *window)
    }
}

/// Each set with its index.
pub fn indexed_sets(alloc: Global, sets: Vec<RectSet>) -> Result<Vec<IndexedSet>, AllocError>
    ensures { IfOk result (λ v. v.items ≡ sets.items) }
{
    let mut out = Vec::new(alloc);
    for set in sets {
        let indexed = IndexedSet::new(alloc, set)?;
        out.push(indexed)?;
    }
    Ok(out)
}
