//! What lies round a part: its boundary edges, and the squares of source and drain in its ring.

ghost use Rattle.std.specs.Prelude.{◌≡◌, ◌↔◌, ◌&&◌, ◌||◌, ◌+◌, ◌≤◌, ◌^◌};
ghost use Rattle.std.specs.Prelude.{not, map, IfOk, OnErr};
ghost use Rattle.std.specs.List.{All};
ghost use Rattle.geo_base.specs.Near.{IsNearRect};
ghost use Rattle.geo_base.specs.Rects.{IsRect};
ghost use Rattle.geo_base.specs.declared.shapes.Square.{Square};
ghost use Rattle.rect_sets.specs.Near.{IsNearSet};
ghost use Rattle.rect_sets.specs.Rects.{covers};
ghost use Rattle.flat_layout.specs.Parts.{Counts, InSideOf};
ghost use Rattle.gate_shapes.specs.Sets.{in_set};
ghost use Rattle.gate_shapes.specs.Borders.{step_x, step_y, behind, grown_rect, IsFlank, IsBorder};

use crate::area::{count, plus};
use geo_base::{Motion, Op, Rect, Turn};
use rect_sets::{RectSet, combine_rects};
use std::alloc::{AllocError, Global};

/// The side of a square on which an edge lies.
#[derive(Clone, Copy, Debug)]
pub enum Side {
    Right,
    Up,
    Left,
    Down,
}

impl Side {
    ghost use Rattle.std.specs.Prelude.{◌≡◌};
    ghost use Rattle.gate_shapes.specs.Borders.{step_x, step_y};

    fn x(self) -> i64
        ensures { result ≡ step_x self }
    {
        match self {
            Side::Right => 1,
            Side::Left => -1,
            Side::Up | Side::Down => 0,
        }
    }

    fn y(self) -> i64
        ensures { result ≡ step_y self }
    {
        match self {
            Side::Up => 1,
            Side::Down => -1,
            Side::Right | Side::Left => 0,
        }
    }
}

/// The squares on one side of a part, outside it.
fn beside(alloc: Global, part: &RectSet, side: Side) -> Result<RectSet, AllocError>
    requires { IsNearSet part.now }
    ensures { IfOk result (λ r. (q : Square)
        → covers r q ≡ (covers part.now (behind side q) && not (covers part.now q))) }
{
    let step = Motion {
        turn: Turn::R0,
        dx: side.x(),
        dy: side.y(),
    };
    let image = part.moved(alloc, &step)?;
    let out = combine_rects(alloc, image.rects(), part.rects(), Op::Not)?;
    Ok(out)
}

/// The edges on one side of a part's squares: how many have a square of `ends` beyond, how many
/// have none, and those squares.
#[derive(Drop)]
pub struct Flank {
    pub wide: u128,
    pub long: u128,
    pub touched: RectSet,
}

fn edges_on(alloc: Global, part: &RectSet, ends: &RectSet, side: Side) -> Result<Flank, AllocError>
    requires { IsNearSet part.now }
    ensures { IfOk result (λ f. IsFlank part.now ends.now side f) }
{
    let out = beside(alloc, part, side)?;
    let touched = combine_rects(alloc, out.rects(), ends.rects(), Op::And)?;
    let others = combine_rects(alloc, out.rects(), ends.rects(), Op::Not)?;
    let wide = count(&touched)?;
    let long = count(&others)?;
    Ok(Flank {
        wide,
        long,
        touched,
    })
}

fn sum(a: u128, b: u128, c: u128, d: u128) -> Result<u128, AllocError>
    ensures sum { IfOk result (λ n. ((a + b) + c) + d ≡ n) }
    ensures err { OnErr result (2 ^ 128 ≤ ((a + b) + c) + d) }
{
    let n = plus(plus(plus(a, b)?, c)?, d)?;
    Ok(n)
}

fn joined(
    alloc: Global,
    a: &RectSet,
    b: &RectSet,
    c: &RectSet,
    d: &RectSet,
) -> Result<RectSet, AllocError>
    ensures { IfOk result (λ r. (q : Square)
        → covers r q ≡ (((covers a.now q || covers b.now q) || covers c.now q) || covers d.now q)) }
{
    let two = combine_rects(alloc, a.rects(), b.rects(), Op::Or)?;
    let three = combine_rects(alloc, two.rects(), c.rects(), Op::Or)?;
    let four = combine_rects(alloc, three.rects(), d.rects(), Op::Or)?;
    Ok(four)
}

/// The boundary edges of a part: how many have a square of `ends` beyond, how many have none, and
/// those squares.
pub fn border_of(alloc: Global, part: &RectSet, ends: &RectSet) -> Result<Flank, AllocError>
    requires { IsNearSet part.now }
    ensures { IfOk result (λ f. IsBorder part.now ends.now f) }
{
    let right = edges_on(alloc, part, ends, Side::Right)?;
    let up = edges_on(alloc, part, ends, Side::Up)?;
    let left = edges_on(alloc, part, ends, Side::Left)?;
    let down = edges_on(alloc, part, ends, Side::Down)?;
    let wide = sum(right.wide, up.wide, left.wide, down.wide)?;
    let long = sum(right.long, up.long, left.long, down.long)?;
    let touched = joined(
        alloc,
        &right.touched,
        &up.touched,
        &left.touched,
        &down.touched,
    )?;
    Ok(Flank {
        wide,
        long,
        touched,
    })
}

fn grow(rect: &Rect) -> Rect
    requires { IsNearRect rect.now }
    ensures { result ≡ grown_rect rect.now }
{
    Rect {
        x1: rect.x1 - 1,
        y1: rect.y1 - 1,
        x2: rect.x2 + 1,
        y2: rect.y2 + 1,
    }
}

/// The rectangles, each with the squares around it.
pub fn grown(alloc: Global, rects: &[Rect]) -> Result<Vec<Rect>, AllocError>
    requires { All IsNearRect rects.now }
    ensures { IfOk result (λ r. r.items ≡ map grown_rect rects.now) }
{
    let mut out = Vec::new(alloc);
    for rect in rects {
        out.push(grow(rect))?;
    }
    Ok(out)
}

/// The squares of `ends` in the ring of a part.
pub fn sides_of(alloc: Global, part: &RectSet, ends: &RectSet) -> Result<RectSet, AllocError>
    requires { IsNearSet part.now }
    ensures { IfOk result (λ r. (q : Square) → in_set r q
        ↔ InSideOf (in_set part.now) (in_set ends.now) q) }
{
    let around = grown(alloc, part.rects())?;
    let near = combine_rects(alloc, &around, ends.rects(), Op::And)?;
    let sides = combine_rects(alloc, near.rects(), part.rects(), Op::Not)?;
    Ok(sides)
}
