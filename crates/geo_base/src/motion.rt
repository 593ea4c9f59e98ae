//! Motions of the plane and their turns.

ghost use Rattle.std.specs.Prelude.{◌≡◌, ◌^◌};
ghost use Rattle.geo_base.specs.declared.shapes.Point.{Point};
ghost use Rattle.geo_base.specs.declared.shapes.Square.{Square};
ghost use Rattle.geo_base.specs.Motions.{mirrored, quarter_turned, turned, turned_x, turned_y};
ghost use Rattle.geo_base.specs.Motions.{moved_point, moved_square, IsImage};
ghost use Rattle.geo_base.specs.Near.{IsWithin, IsNearPoint, IsNearSquare, IsNearRect};
ghost use Rattle.geo_base.specs.Near.{IsNearMotion};
ghost use Rattle.geo_base.specs.Rects.{has, IsRect, moved_rect};
ghost use Rattle.geo_base.specs.Laws.{OneImageLaw, DifferentImagesLaw, OntoLaw, IsTurnAfter};
ghost use Rattle.geo_base.specs.Laws.{IsMotionAfter, IsUndone};

use crate::shapes::{Point, Rect, Square};

/// A turn about the origin. M turns mirror about the X axis first; then all go 0, 1, 2 or 3
/// quarters counterclockwise.
#[derive(Clone, Copy, Debug, PartialEq, Eq)]
pub enum Turn {
    R0,
    R90,
    R180,
    R270,
    M0,
    M90,
    M180,
    M270,
}

impl Turn {
    fn point(self, p: Point) -> Point
        requires { IsNearPoint p }
        ensures exact { result ≡ turned self p }
        ensures near { IsNearPoint result }
    {
        match self {
            Turn::R0 => p,
            Turn::R90 => Point { x: -p.y, y: p.x },
            Turn::R180 => Point { x: -p.x, y: -p.y },
            Turn::R270 => Point { x: p.y, y: -p.x },
            Turn::M0 => Point { x: p.x, y: -p.y },
            Turn::M90 => Point { x: p.y, y: p.x },
            Turn::M180 => Point { x: -p.x, y: p.y },
            Turn::M270 => Point { x: -p.y, y: -p.x },
        }
    }

    fn square(self, s: Square) -> Square
        requires { IsNearSquare s }
        ensures x { result.x ≡ turned_x self s.x s.y }
        ensures y { result.y ≡ turned_y self s.x s.y }
        ensures x_within { IsWithin (2 ^ 41) result.x }
        ensures y_within { IsWithin (2 ^ 41) result.y }
    {
        match self {
            Turn::R0 => s,
            Turn::R90 => Square {
                x: -s.y - 1,
                y: s.x,
            },
            Turn::R180 => Square {
                x: -s.x - 1,
                y: -s.y - 1,
            },
            Turn::R270 => Square {
                x: s.y,
                y: -s.x - 1,
            },
            Turn::M0 => Square {
                x: s.x,
                y: -s.y - 1,
            },
            Turn::M90 => Square { x: s.y, y: s.x },
            Turn::M180 => Square {
                x: -s.x - 1,
                y: s.y,
            },
            Turn::M270 => Square {
                x: -s.y - 1,
                y: -s.x - 1,
            },
        }
    }

    // This turn, then a mirror about the X axis.
    fn mirrored(self) -> Turn
        ensures { (p : Point) → turned result p ≡ mirrored (turned self p) }
    {
        match self {
            Turn::R0 => Turn::M0,
            Turn::R90 => Turn::M270,
            Turn::R180 => Turn::M180,
            Turn::R270 => Turn::M90,
            Turn::M0 => Turn::R0,
            Turn::M90 => Turn::R270,
            Turn::M180 => Turn::R180,
            Turn::M270 => Turn::R90,
        }
    }

    // This turn, then a quarter counterclockwise.
    fn quartered(self) -> Turn
        ensures { (p : Point) → turned result p ≡ quarter_turned (turned self p) }
    {
        match self {
            Turn::R0 => Turn::R90,
            Turn::R90 => Turn::R180,
            Turn::R180 => Turn::R270,
            Turn::R270 => Turn::R0,
            Turn::M0 => Turn::M90,
            Turn::M90 => Turn::M180,
            Turn::M180 => Turn::M270,
            Turn::M270 => Turn::M0,
        }
    }

    // This turn first, then `outer`.
    fn then(self, outer: Turn) -> Turn
        ensures { IsTurnAfter self outer result }
    {
        match outer {
            Turn::R0 => self,
            Turn::R90 => self.quartered(),
            Turn::R180 => self.quartered().quartered(),
            Turn::R270 => self.quartered().quartered().quartered(),
            Turn::M0 => self.mirrored(),
            Turn::M90 => self.mirrored().quartered(),
            Turn::M180 => self.mirrored().quartered().quartered(),
            Turn::M270 => self.mirrored().quartered().quartered().quartered(),
        }
    }

    fn inverse(self) -> Turn
        ensures back { (p : Point) → turned result (turned self p) ≡ p }
        ensures there { (p : Point) → turned self (turned result p) ≡ p }
    {
        match self {
            Turn::R90 => Turn::R270,
            Turn::R270 => Turn::R90,
            _ => self,
        }
    }
}

/// A turn, then a shift by (dx, dy), in database units (GDSII Stream Format, STRANS, ANGLE and XY
/// of a reference).
#[derive(Clone, Copy, Debug, PartialEq, Eq)]
pub struct Motion {
    pub turn: Turn,
    pub dx: i64,
    pub dy: i64,
}

impl Motion {
    /// The image of a point.
    pub fn point(&self, p: Point) -> Point
        requires near_point { IsNearPoint p }
        requires near { IsNearMotion self.now }
        ensures exact { result ≡ moved_point self.now p }
        ensures x_within { IsWithin (2 ^ 41) result.x }
        ensures y_within { IsWithin (2 ^ 41) result.y }
    {
        let turned = self.turn.point(p);
        Point {
            x: turned.x + self.dx,
            y: turned.y + self.dy,
        }
    }

    /// The square whose centre is the image of the square's centre.
    pub fn square(&self, s: Square) -> Square
        requires near_square { IsNearSquare s }
        requires near { IsNearMotion self.now }
        ensures centre { IsImage self.now s result }
        ensures exact { result ≡ moved_square self.now s }
    {
        let turned = self.turn.square(s);
        Square {
            x: turned.x + self.dx,
            y: turned.y + self.dy,
        }
    }

    /// The rectangle of the images of the squares of `r`.
    pub fn rect(&self, r: Rect) -> Rect
        requires in_order { IsRect r }
        requires near_rect { IsNearRect r }
        requires near { IsNearMotion self.now }
        ensures in_order { IsRect result }
        ensures corners { result ≡ moved_rect self.now r }
        ensures squares { (s : Square) → has result (moved_square self.now s) ≡ has r s }
    {
        let p = self.point(Point { x: r.x1, y: r.y1 });
        let q = self.point(Point { x: r.x2, y: r.y2 });
        Rect::between(p, q)
    }

    /// This motion first, then `outer`. Its shift may be twice as far as theirs.
    pub fn then(&self, outer: &Motion) -> Motion
        requires near { IsNearMotion self.now }
        requires near_outer { IsNearMotion outer.now }
        ensures after { IsMotionAfter self.now outer.now result }
        ensures dx_within { IsWithin (2 ^ 41) result.dx }
        ensures dy_within { IsWithin (2 ^ 41) result.dy }
    {
        let shift = outer.point(Point {
            x: self.dx,
            y: self.dy,
        });
        Motion {
            turn: self.turn.then(outer.turn),
            dx: shift.x,
            dy: shift.y,
        }
    }

    /// The motion that takes each point and each square back.
    pub fn inverse(&self) -> Motion
        requires { IsNearMotion self.now }
        ensures back { IsUndone self.now result }
        ensures there { IsUndone result self.now }
        ensures near { IsNearMotion result }
    {
        let turn = self.turn.inverse();
        let shift = turn.point(Point {
            x: self.dx,
            y: self.dy,
        });
        Motion {
            turn,
            dx: -shift.x,
            dy: -shift.y,
        }
    }
}

/// What holds of the images of squares under every motion: each square has one image, different
/// squares have different ones, and each square is the image of one.
pub fn image_laws()
    ensures one { OneImageLaw }
    ensures different { DifferentImagesLaw }
    ensures onto { OntoLaw }
{}
