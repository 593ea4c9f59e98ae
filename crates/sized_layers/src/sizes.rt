//! Growing and shrinking: along the rows and, turned about the diagonal, along the columns.

ghost use Rattle.std.specs.Prelude.{◌≡◌, ◌↔◌, ℕ, ◌+◌, ◌++◌, ◌^◌, [], ◌∷◌, IfOk, OnOk, true};
ghost use Rattle.std.specs.List.{All};
ghost use Rattle.geo_base.specs.Near.{IsNearRect};
ghost use Rattle.geo_base.specs.declared.shapes.Square.{Square};
ghost use Rattle.rect_sets.specs.Near.{IsNearSet};
ghost use Rattle.rect_sets.specs.Rects.{covers};
ghost use Rattle.flat_layout.specs.Plane.{IsSized};
ghost use Rattle.sized_layers.specs.Sizes.{IsSetWithin, IsSize, IsSizedAlong, flip};
ghost use Rattle.sized_layers.specs.Sizes.{sized_rects, growth, ShrinkLaw};

use geo_base::{Motion, Rect, Turn};
use rect_sets::RectSet;
use std::alloc::{AllocError, Global};

// Adds the rectangle with its left and right sides moved apart by so much, or towards each other,
// where a square is left.
fn push_sized(out: &mut Vec<Rect>, rect: &Rect, d: i64) -> Result<(), AllocError>
    requires rect { IsNearRect rect.now }
    requires size { IsSize d }
    ensures { OnOk result (out.new.items ≡ out.old.items ++ sized_rects d (rect.now ∷ [])) }
{
    let x1 = rect.x1 - d;
    let x2 = rect.x2 + d;
    if x1 < x2 {
        out.push(Rect {
            x1,
            y1: rect.y1,
            x2,
            y2: rect.y2,
        })?;
    }
    Ok(())
}

// The rectangles, each with its left and right sides moved.
fn sized_rects(alloc: Global, rects: &[Rect], d: i64) -> Result<Vec<Rect>, AllocError>
    requires near { All IsNearRect rects.now }
    requires size { IsSize d }
    ensures { IfOk result (λ r. r.items ≡ sized_rects d rects.now) }
{
    let mut out = Vec::new(alloc);
    for rect in rects {
        push_sized(&mut out, rect, d)?;
    }
    Ok(out)
}

// The set with each longest run of a row grown or shrunk at both ends.
fn along(alloc: Global, set: &RectSet, d: i64) -> Result<RectSet, AllocError>
    requires near { IsNearSet set.now }
    requires size { IsSize d }
    ensures { IfOk result (λ r. (s : Square) → (covers r s ≡ true)
        ↔ IsSizedAlong d (λ q. covers set.now q ≡ true) s) }
{
    let sides = sized_rects(alloc, set.rects(), d)?;
    let sized = RectSet::canon(alloc, sides)?;
    Ok(sized)
}

// The set with x and y exchanged.
fn flipped(alloc: Global, set: &RectSet) -> Result<RectSet, AllocError>
    requires { IsNearSet set.now }
    ensures { IfOk result (λ r. (s : Square) → covers r (flip s) ≡ covers set.now s) }
{
    let about_diagonal = Motion {
        turn: Turn::M90,
        dx: 0,
        dy: 0,
    };
    let image = set.moved(alloc, &about_diagonal)?;
    Ok(image)
}

/// The set grown by `d` squares on all sides, or shrunk where `d` is negative: a square is in the
/// grown set where some square of the set lies within `d` of it, and in the shrunk one where all
/// squares within `-d` lie in the set. `d` is from -10,000 to 10,000, and the set lies within plus
/// or minus 2^39; the result may lie `d` further out. Grown or shrunk are first the rows, then the
/// columns: a row has as many upright edges as before, whatever `d` is. So the cost is that of four
/// calls of `RectSet::canon` on lists no longer than a few times the set's; also for a `d` of 0,
/// which gives the set. An `Err` is want of memory.
pub fn size(alloc: Global, a: &RectSet, d: i64) -> Result<RectSet, AllocError>
    requires within { IsSetWithin (2 ^ 39) a.now }
    requires size { IsSize d }
    ensures squares { IfOk result (λ r. (s : Square) → (covers r s ≡ true)
        ↔ IsSized d (λ q. covers a.now q ≡ true) s) }
    ensures range { (n : ℕ) → IsSetWithin n a.now
        → IfOk result (λ r. IsSetWithin (n + growth d) r) }
{
    let rows = along(alloc, a, d)?;
    let turned = flipped(alloc, &rows)?;
    let columns = along(alloc, &turned, d)?;
    let set = flipped(alloc, &columns)?;
    Ok(set)
}

/// A square is in a shrunk set exactly where it isn't in what the set leaves out, grown as far.
pub fn shrinking()
    ensures { ShrinkLaw }
{}
