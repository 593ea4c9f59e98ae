//! Sets as their canonical lists of rectangles.

ghost use Rattle.std.specs.Prelude.{◌≡◌, IfOk};
ghost use Rattle.std.specs.List.{All};
ghost use Rattle.geo_base.specs.Rects.{IsRect};
ghost use Rattle.rect_sets.specs.Rects.{covers, CanonicalLaw, OneListLaw};
ghost use Rattle.rect_sets.specs.Edges.{set_of, IsEdge, IsBalanced};
ghost use Rattle.geo_base.specs.Layers.{combined};
ghost use Rattle.geo_base.specs.declared.shapes.Square.{Square};

use crate::divide::combine_parts;
use crate::halves::blocks_in_parts;
use crate::moves::{images, meeting, shifted};
use crate::order::in_order;
use crate::row::Edge;
use geo_base::{Motion, Op, Rect, Square, Turn};
use std::alloc::{AllocError, Global};
use std::marker::Model;

// No part is cut more often than this.
const DEEPEST: u32 = 64;

/// A finite set of unit squares, as its canonical list of rectangles. A rectangle is in the list
/// exactly where, in each of its rows, its x range is a maximal run of the set, and neither the row
/// below nor the row above has this same run. The list is ordered by y1, then x1.
#[derive(Drop)]
pub struct RectSet {
    rects: Vec<Rect>,
}

impl Model for RectSet {
    ghost use Rattle.std.specs.Prelude.{List};
    ghost use Rattle.geo_base.specs.declared.shapes.Rect.{Rect};
    ghost use Rattle.rect_sets.specs.Rects.{IsCanonical};

    ghost Value = { List Rect };

    ghost view = { λ a. a.rects.items };

    ghost invariant = { λ a. IsCanonical a.rects.items };
}

impl RectSet {
    ghost use Rattle.std.specs.Prelude.{◌≡◌, ◌&&◌, [], IfOk};
    ghost use Rattle.std.specs.List.{All};
    ghost use Rattle.geo_base.specs.Rects.{has, IsRect};
    ghost use Rattle.geo_base.specs.Near.{IsNearMotion};
    ghost use Rattle.geo_base.specs.Motions.{moved_square};
    ghost use Rattle.geo_base.specs.Layers.{combined};
    ghost use Rattle.rect_sets.specs.Near.{IsNearSet};
    ghost use Rattle.rect_sets.specs.Rects.{covers, IsCanonical};
    ghost use Rattle.geo_base.specs.declared.shapes.Square.{Square};

    /// The set of no squares.
    pub fn empty(alloc: Global) -> RectSet
        ensures { result ≡ [] }
    {
        RectSet {
            rects: Vec::new(alloc),
        }
    }

    /// Whether the set has the square, in O(n) for n rectangles.
    pub fn contains(&self, s: Square) -> bool
        ensures { result ≡ covers self.now s }
    {
        self.rects.iter().any(|r| r.has(s))
    }

    /// The canonical list.
    pub fn rects(&self) -> &[Rect]
        ensures list { result.now ≡ self.now }
        ensures canonical { IsCanonical self.now }
        ensures sound { All IsRect self.now }
    {
        self.rects.as_slice()
    }

    /// The same set once more. Linear; an `Err` is want of memory.
    pub fn try_clone(&self, alloc: Global) -> Result<RectSet, AllocError>
        ensures { IfOk result (λ r. r ≡ self.now) }
    {
        let rects = self.rects.to_vec(alloc)?;
        Ok(RectSet { rects })
    }

    /// The union of any rectangles, in O(n log n + k + m log m) and O(n + m) memory: n rectangles,
    /// k crossings of upright edges with strips within a part of the plane, m rectangles of the
    /// result. An `Err` is want of memory.
    pub fn canon(alloc: Global, rects: Vec<Rect>) -> Result<RectSet, AllocError>
        requires { All IsRect rects.items }
        ensures { IfOk result (λ r. (s : Square) → covers r s ≡ covers rects.items s) }
    {
        if rects.len() <= 1 {
            return Ok(RectSet { rects });
        }
        let set = combine_rects(alloc, &rects, &[], Op::Or)?;
        Ok(set)
    }

    /// The part of the set in a rectangle, in O(n) and the cost of `canon` for the rectangles that
    /// reach into it.
    pub fn window(&self, alloc: Global, w: Rect) -> Result<RectSet, AllocError>
        requires { IsRect w }
        ensures { IfOk result (λ r. (s : Square) → covers r s ≡ (covers self.now s && has w s)) }
    {
        let near = meeting(alloc, self.rects(), &w)?;
        let set = combine_rects(alloc, &near, &[w], Op::And)?;
        Ok(set)
    }

    /// The squares where the operator holds of the two sets: of both, of either, of the first
    /// alone, of one alone. Cost as `canon` for the rectangles of the two.
    pub fn combined(&self, alloc: Global, other: &RectSet, op: Op) -> Result<RectSet, AllocError>
        ensures { IfOk result (λ r. (s : Square) → covers r s
            ≡ combined op (covers self.now s) (covers other.now s)) }
    {
        let set = combine_rects(alloc, self.rects(), other.rects(), op)?;
        Ok(set)
    }

    /// The image of the set under a motion, in O(n) for a plain shift, else as `canon`.
    pub fn moved(&self, alloc: Global, m: &Motion) -> Result<RectSet, AllocError>
        requires near { IsNearSet self.now }
        requires motion { IsNearMotion m.now }
        ensures { IfOk result (λ r. (s : Square) → covers r (moved_square m.now s)
            ≡ covers self.now s) }
    {
        match m.turn {
            Turn::R0 => {
                let rects = shifted(alloc, self.rects(), m)?;
                Ok(RectSet { rects })
            }
            _ => {
                let rects = images(alloc, self.rects(), m)?;
                RectSet::canon(alloc, rects)
            }
        }
    }
}

/// The squares where the operator holds of two unions of rectangles. Cost as `RectSet::canon`.
pub fn combine_rects(alloc: Global, a: &[Rect], b: &[Rect], op: Op) -> Result<RectSet, AllocError>
    requires a { All IsRect a.now }
    requires b { All IsRect b.now }
    ensures { IfOk result (λ r. (s : Square) → covers r s
        ≡ combined op (covers a.now s) (covers b.now s)) }
{
    let found = combine_parts(alloc, a, b, op, DEEPEST)?;
    let rects = in_order(alloc, found)?;
    Ok(RectSet { rects })
}

/// The squares where the operator holds of the two sums of the weights of the edges that act on
/// them, as in a fill by winding number. The edges may come in any order; the weights of each row
/// sum to 0. In O(n log n + k + m log m) for n edges, k crossings of edges with strips within a part of
/// the plane, m rectangles of the result: where strips would cross many edges, the edges are cut in
/// two again and again. An `Err` is want of memory.
pub fn sweep(alloc: Global, edges: Vec<Edge>, op: Op) -> Result<RectSet, AllocError>
    requires edges { All IsEdge edges.items }
    requires balanced { IsBalanced edges.items }
    ensures { IfOk result (λ r. (s : Square) → covers r s ≡ set_of op edges.items s) }
{
    let found = blocks_in_parts(alloc, edges, op)?;
    let rects = in_order(alloc, found)?;
    Ok(RectSet { rects })
}

/// Each finite set has one canonical list: two that cover the same squares are equal.
pub fn one_list()
    ensures { OneListLaw }
{}

/// Each rectangle of a canonical list has squares.
pub fn canonical_rects()
    ensures { CanonicalLaw }
{}
