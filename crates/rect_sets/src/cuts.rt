//! Where the plane is cut; any lines give the same set.

ghost use Rattle.std.specs.Prelude.{◌≡◌, ◌<◌, length, IfOk, IfSome, OnOk};
ghost use Rattle.rect_sets.specs.Stripes.{line_at, AreRising};

use geo_base::Rect;
use std::alloc::{AllocError, Global};

// Fewer rectangles than this aren't cut.
const FEW: usize = 64;

// Fewer than this aren't cut by level lines, which make no row shorter.
const FEW_LEVEL: usize = 2048;

// A row that crosses no more rectangles than this on average is short enough.
const SHORT_ROW: u64 = 3;

// No more stripes than this are made at once, with no fewer rectangles in each on average.
const MOST: u64 = 1024;

const FEW_A_STRIPE: usize = 32;

// Of long lists no more than about so many rectangles are looked at to choose lines.
const SAMPLE: usize = 512;

#[derive(Clone, Copy, Debug)]
pub enum Axis {
    X,
    Y,
}

/// An upright line at x, or a level line at y.
#[derive(Clone, Copy, Debug)]
pub struct Cut {
    pub axis: Axis,
    pub at: i64,
}

/// Lines across one axis, from low to high.
#[derive(Drop)]
pub struct Lines {
    pub axis: Axis,
    pub at: Vec<i64>,
    grid: Grid,
}

impl Lines {
    ghost use Rattle.std.specs.Prelude.{◌≡◌, ◌<◌, length};
    ghost use Rattle.rect_sets.specs.Stripes.{line_at};

    /// The line at a place.
    pub fn line(&self, i: usize) -> Cut
        requires { i < length self.now.at.items }
        ensures { result ≡ line_at self.now.axis self.now.at.items i }
    {
        Cut {
            axis: self.axis,
            at: self.at[i],
        }
    }

    /// Which stripe a place may lie in.
    pub fn stripe_of(&self, x: i64) -> usize {
        self.grid.stripe_of(x)
    }
}

// Stripes of equal width.
#[derive(Clone, Copy, Debug)]
struct Grid {
    axis: Axis,
    low: i64,
    width: u64,
    count: u64,
}

impl Grid {
    ghost use Rattle.std.specs.Prelude.{◌≡◌, IfOk};
    ghost use Rattle.rect_sets.specs.Stripes.{AreRising};

    // The stripe that a place lies in, which isn't below the first.
    fn stripe_of(&self, x: i64) -> usize {
        let stripe = x.abs_diff(self.low).checked_div(self.width);
        stripe.unwrap_or(0) as usize
    }

    // How many of the lines go through a rectangle.
    fn crossings_of(&self, rect: &Rect) -> usize {
        let (low, high) = match self.axis {
            Axis::X => (rect.x1, rect.x2),
            Axis::Y => (rect.y1, rect.y2),
        };
        let last = self.stripe_of(high.saturating_sub(1));
        last.saturating_sub(self.stripe_of(low))
    }

    // About how many parts the lines add to the rectangles. It looks at some, an odd number of
    // places apart: of two kinds that alternate it sees both.
    fn crossings(&self, rects: &[Rect]) -> usize {
        let step = 1 + rects.len() / SAMPLE / 2 * 2;
        let mut count = 0usize;
        for rect in rects.iter().step_by(step) {
            count = count.saturating_add(self.crossings_of(rect).saturating_mul(step));
        }
        count
    }

    fn lines(self, alloc: Global) -> Result<Lines, AllocError>
        ensures { IfOk result (λ l. AreRising l.at.items) }
    {
        let width = i64::try_from(self.width).unwrap_or(i64::MAX);
        let mut at = Vec::new(alloc);
        let mut place = self.low;
        for _ in 1..self.count {
            place = place.saturating_add(width);
            push_line(&mut at, place)?;
        }
        Ok(Lines {
            axis: self.axis,
            at,
            grid: self,
        })
    }
}

// Adds a line that is further up than the others.
fn push_line(at: &mut Vec<i64>, place: i64) -> Result<(), AllocError>
    requires { AreRising at.old.items }
    ensures { OnOk result (AreRising at.new.items) }
{
    let count = at.len();
    if count == 0 || at[count - 1] < place {
        at.push(place)?;
    }
    Ok(())
}

// What is known of some rectangles, to choose lines by: what bounds them, and the sum of their
// heights.
#[derive(Clone, Copy, Debug)]
struct Plane {
    x1: i64,
    y1: i64,
    x2: i64,
    y2: i64,
    heights: u64,
}

impl Plane {
    fn of(a: &[Rect], b: &[Rect]) -> Plane {
        let mut plane = Plane {
            x1: i64::MAX,
            y1: i64::MAX,
            x2: i64::MIN,
            y2: i64::MIN,
            heights: 0,
        };
        plane.grow(a);
        plane.grow(b);
        plane
    }

    fn grow(&mut self, rects: &[Rect]) {
        for rect in rects {
            self.x1 = self.x1.min(rect.x1);
            self.y1 = self.y1.min(rect.y1);
            self.x2 = self.x2.max(rect.x2);
            self.y2 = self.y2.max(rect.y2);
            self.heights = self.heights.saturating_add(rect.y2.abs_diff(rect.y1));
        }
    }

    // How many rectangles a row crosses on average.
    fn row(&self) -> u64 {
        let rows = self.y2.abs_diff(self.y1);
        self.heights.checked_div(rows).unwrap_or(0)
    }

    // So many stripes, or fewer.
    fn grid(&self, axis: Axis, count: u64) -> Grid {
        let (low, high) = match axis {
            Axis::X => (self.x1, self.x2),
            Axis::Y => (self.y1, self.y2),
        };
        let width = high.abs_diff(low).saturating_sub(1);
        let width = width.checked_div(count).unwrap_or(0);
        Grid {
            axis,
            low,
            width: width.saturating_add(1),
            count,
        }
    }
}

// Lines that go through few of the rectangles and add no more parts than can be spared, where they
// make the sweep shorter. It looks at a sample of the rectangles.
fn grid_of(a: &[Rect], b: &[Rect], spare: usize) -> Option<Grid> {
    let count = a.len().saturating_add(b.len());
    if count < FEW {
        return None;
    }
    let plane = Plane::of(a, b);
    let row = plane.row();
    if row <= SHORT_ROW {
        return None;
    }
    let added = |grid: &Grid| grid.crossings(a).saturating_add(grid.crossings(b));
    let mut stripes = row.min(MOST).min((count / FEW_A_STRIPE) as u64);
    stripes = stripes.min(plane.x2.abs_diff(plane.x1));
    while 2 <= stripes {
        let grid = plane.grid(Axis::X, stripes);
        let parts = added(&grid);
        let most = if stripes < 4 { count / 8 } else { count / 4 };
        if parts <= most && parts <= spare {
            return Some(grid);
        }
        stripes = stripes / 2 + stripes / 4;
    }
    let level = plane.grid(Axis::Y, 2);
    let parts = added(&level);
    if FEW_LEVEL <= count
        && 2 <= plane.y2.abs_diff(plane.y1)
        && parts <= count / 8
        && parts <= spare
    {
        return Some(level);
    }
    let upright = plane.grid(Axis::X, 2);
    let parts = added(&upright);
    if 2 <= plane.x2.abs_diff(plane.x1) && parts <= count / 2 && parts <= spare {
        return Some(upright);
    }
    None
}

/// Lines to cut two lists of rectangles by, which add no more parts than about those that can be
/// spared; none where a cut doesn't make the sweep shorter. Linear.
pub fn lines_of(
    alloc: Global,
    a: &[Rect],
    b: &[Rect],
    spare: usize,
) -> Result<Option<Lines>, AllocError>
    ensures { IfOk result (λ o. IfSome o (λ l. AreRising l.at.items)) }
{
    let Some(grid) = grid_of(a, b, spare) else {
        return Ok(None);
    };
    let lines = grid.lines(alloc)?;
    Ok(Some(lines))
}

/// The part of an amount that falls to some of all.
pub fn share(amount: usize, some: usize, all: usize) -> usize {
    if all == 0 {
        return 0;
    }
    let part = (amount as u128).saturating_mul(some as u128) / all as u128;
    usize::try_from(part).unwrap_or(amount)
}
