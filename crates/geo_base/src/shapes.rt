//! Points, unit squares and rectangles.

ghost use Rattle.std.specs.Prelude.{◌≡◌, ◌↔◌, int_le, ◌&&◌, true};
ghost use Rattle.geo_base.specs.Near.{IsNearRect};
ghost use Rattle.geo_base.specs.Rects.{bounding_box, common, grown, has, is_between, is_inside};
ghost use Rattle.geo_base.specs.Rects.{is_rect, meets, overlap, rect_at, rect_between, IsInside};
ghost use Rattle.geo_base.specs.Rects.{IsRect, RectLaws, ShareSquare};

/// The farthest that a layout reaches from the origin in each direction, in database units.
pub const REACH: i64 = 1 << 36;

/// A point of the plane, in database units.
#[derive(Clone, Copy, Debug, PartialEq, Eq)]
pub struct Point {
    pub x: i64,
    pub y: i64,
}

/// The unit square from (x, y) to (x + 1, y + 1).
#[derive(Clone, Copy, Debug, PartialEq, Eq)]
pub struct Square {
    pub x: i64,
    pub y: i64,
}

/// The rectangle from (x1, y1) up to (x2, y2), where x1 < x2 and y1 < y2.
#[derive(Clone, Copy, Debug, PartialEq, Eq)]
pub struct Rect {
    pub x1: i64,
    pub y1: i64,
    pub x2: i64,
    pub y2: i64,
}

impl Rect {
    /// The rectangle of no squares that is one point.
    pub fn at(p: Point) -> Rect
        ensures { result ≡ rect_at p }
    {
        Rect {
            x1: p.x,
            y1: p.y,
            x2: p.x,
            y2: p.y,
        }
    }

    /// The rectangle between two opposite corners.
    pub fn between(p: Point, q: Point) -> Rect
        ensures { result ≡ rect_between p q }
    {
        Rect::at(p).bounding_box(&Rect::at(q))
    }

    /// Whether the square lies in the rectangle.
    pub fn has(&self, s: Square) -> bool
        ensures { result ≡ has self.now s }
    {
        is_between(self.x1, s.x, self.x2) && is_between(self.y1, s.y, self.y2)
    }

    /// Whether it has at least one square, as each rectangle of a layout has.
    pub fn is_rect(&self) -> bool
        ensures exact { result ≡ is_rect self.now }
        ensures rect { (result ≡ true) ↔ IsRect self.now }
    {
        has_sides(self)
    }

    /// Whether some square lies in both.
    pub fn meets(&self, other: &Rect) -> bool
        ensures exact { result ≡ meets self.now other.now }
        ensures shared { (result ≡ true) ↔ ShareSquare self.now other.now }
    {
        meet_by_sides(self, other)
    }

    /// Whether it lies within another.
    pub fn is_inside(&self, other: &Rect) -> bool
        ensures exact { result ≡ is_inside self.now other.now }
        ensures inside { (result ≡ true) ↔ IsInside self.now other.now }
    {
        is_part(self, other)
    }

    /// The bounding box of both: the least rectangle that holds them.
    pub fn bounding_box(&self, other: &Rect) -> Rect
        ensures { result ≡ bounding_box self.now other.now }
    {
        Rect {
            x1: self.x1.min(other.x1),
            y1: self.y1.min(other.y1),
            x2: self.x2.max(other.x2),
            y2: self.y2.max(other.y2),
        }
    }

    /// What both have in common; its sides stand in no order where that is nothing.
    pub fn common(&self, other: &Rect) -> Rect
        ensures { result ≡ common self.now other.now }
    {
        Rect {
            x1: self.x1.max(other.x1),
            y1: self.y1.max(other.y1),
            x2: self.x2.min(other.x2),
            y2: self.y2.min(other.y2),
        }
    }

    /// So many squares more on each side.
    pub fn grown(&self, by: u32) -> Rect
        requires { IsNearRect (grown by self.now) }
        ensures { result ≡ grown by self.now }
    {
        Rect {
            x1: self.x1 - i64::from(by),
            y1: self.y1 - i64::from(by),
            x2: self.x2 + i64::from(by),
            y2: self.y2 + i64::from(by),
        }
    }
}

/// What the calls on rectangles say of their squares.
pub fn rect_laws()
    ensures { RectLaws }
{}

fn has_sides(r: &Rect) -> bool
    ensures { result ≡ is_rect r.now }
{
    r.x1 < r.x2 && r.y1 < r.y2
}

// Whether two ranges, each without its high end, have a number in common.
fn overlap(low: i64, high: i64, from: i64, to: i64) -> bool
    ensures { result ≡ overlap low high from to }
{
    low.max(from) < high.min(to)
}

fn meet_by_sides(a: &Rect, b: &Rect) -> bool
    ensures { result ≡ meets a.now b.now }
{
    meet_across(a, b) && meet_up(a, b)
}

fn meet_across(a: &Rect, b: &Rect) -> bool
    ensures { result ≡ overlap a.now.x1 a.now.x2 b.now.x1 b.now.x2 }
{
    overlap(a.x1, a.x2, b.x1, b.x2)
}

fn meet_up(a: &Rect, b: &Rect) -> bool
    ensures { result ≡ overlap a.now.y1 a.now.y2 b.now.y1 b.now.y2 }
{
    overlap(a.y1, a.y2, b.y1, b.y2)
}

fn is_part(a: &Rect, b: &Rect) -> bool
    ensures { result ≡ is_inside a.now b.now }
{
    is_part_across(a, b) && is_part_up(a, b)
}

// Whether the first one's columns are among the second one's.
fn is_part_across(a: &Rect, b: &Rect) -> bool
    ensures { result ≡ (int_le b.now.x1 a.now.x1 && int_le a.now.x2 b.now.x2) }
{
    b.x1 <= a.x1 && a.x2 <= b.x2
}

// And its rows.
fn is_part_up(a: &Rect, b: &Rect) -> bool
    ensures { result ≡ (int_le b.now.y1 a.now.y1 && int_le a.now.y2 b.now.y2) }
{
    b.y1 <= a.y1 && a.y2 <= b.y2
}

// Whether the number lies from `low` up to, but not at, `high`.
fn is_between(low: i64, number: i64, high: i64) -> bool
    ensures { result ≡ is_between low number high }
{
    low <= number && number < high
}
