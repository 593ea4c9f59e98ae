//! Where pieces are cut; any cut gives the same links.

ghost use Rattle.touching_pieces.specs.Crowds.{IsStepOf};

use crate::crowds::hub_of;
use crate::pieces::Piece;
use geo_base::Rect;

// A list this short is compared with the other as it is.
const FEW: usize = 8;

// In lists longer together than this a cut is cheap that goes through one piece in so many.
const SMALL: usize = 256;

const RARE: usize = 8;

#[derive(Clone, Copy, Debug)]
pub enum Axis {
    X,
    Y,
}

/// An upright line at x, or a level line at y.
#[derive(Clone, Copy, Debug)]
pub struct Cut {
    pub axis: Axis,
    pub at: i64,
}

impl Cut {
    /// The parts of a rectangle on the lower side and on the upper.
    pub fn halves(&self, r: &Rect) -> (Rect, Rect) {
        let mut low = *r;
        let mut high = *r;
        match self.axis {
            Axis::X => {
                low.x2 = self.at;
                high.x1 = self.at;
            }
            Axis::Y => {
                low.y2 = self.at;
                high.y1 = self.at;
            }
        }
        (low, high)
    }
}

/// What bounds no piece.
pub const NOWHERE: Rect = Rect {
    x1: i64::MAX,
    y1: i64::MAX,
    x2: i64::MIN,
    y2: i64::MIN,
};

/// The least rectangle that bounds the pieces and this one.
pub fn grown(bounds: Rect, pieces: &[Piece]) -> Rect {
    let mut all = bounds;
    for piece in pieces {
        all = all.bounding_box(&piece.rect);
    }
    all
}

fn middle(low: i64, high: i64) -> i64 {
    (low >> 1) + (high >> 1)
}

fn is_crossing(rect: &Rect, cut: &Cut) -> bool {
    match cut.axis {
        Axis::X => rect.x1 <= cut.at && cut.at < rect.x2,
        Axis::Y => rect.y1 <= cut.at && cut.at < rect.y2,
    }
}

fn crossings(pieces: &[Piece], cut: &Cut) -> usize {
    let mut count = 0usize;
    for piece in pieces {
        if is_crossing(&piece.rect, cut) {
            count = count.saturating_add(1);
        }
    }
    count
}

// The middle line of what bounds the pieces within a rectangle that goes through fewer of them, and
// through how many.
fn least_cut(ones: &[Piece], others: &[Piece], within: &Rect) -> (Cut, usize) {
    let all = grown(grown(NOWHERE, ones), others).common(within);
    let upright = Cut {
        axis: Axis::X,
        at: middle(all.x1, all.x2),
    };
    let level = Cut {
        axis: Axis::Y,
        at: middle(all.y1, all.y2),
    };
    let crossed = crossings(ones, &upright).saturating_add(crossings(others, &upright));
    let crossed_level = crossings(ones, &level).saturating_add(crossings(others, &level));
    if crossed <= crossed_level {
        (upright, crossed)
    } else {
        (level, crossed_level)
    }
}

/// The middle line of what bounds the pieces within a rectangle that goes through fewer of them,
/// where it leaves at least half of them whole and no more are cut than can be spared.
pub fn cut_of(ones: &[Piece], others: &[Piece], within: &Rect, spare: usize) -> Option<Cut> {
    if ones.len() <= FEW || others.len() <= FEW {
        return None;
    }
    let (cut, crossed) = least_cut(ones, others, within);
    if crossed > ones.len().saturating_add(others.len()) / 2 || crossed > spare {
        return None;
    }
    Some(cut)
}

/// What to do with two lists: cut them, begin with a piece of the first that touches many of the
/// other, or compare them as they are.
pub enum Step {
    Halves(Cut),
    Hub(usize),
    All,
}

/// A cut that few pieces cross is best, then a hub, then any cut that can be spared.
pub fn step_of(ones: &[Piece], others: &[Piece], within: &Rect, spare: usize) -> Step
    ensures { IsStepOf ones.now result }
{
    if ones.len() <= FEW || others.len() <= FEW {
        return Step::All;
    }
    let (cut, crossed) = least_cut(ones, others, within);
    let count = ones.len().saturating_add(others.len());
    let few = if count <= SMALL {
        count / 2
    } else {
        count / RARE
    };
    if crossed <= few && crossed <= spare {
        return Step::Halves(cut);
    }
    if let Some(hub) = hub_of(ones, others, within) {
        return Step::Hub(hub);
    }
    if crossed <= count / 2 && crossed <= spare {
        return Step::Halves(cut);
    }
    Step::All
}

/// The part of what can be spared that falls to some of all pieces.
pub fn share(spare: usize, some: usize, all: usize) -> usize {
    if all == 0 {
        0
    } else {
        spare.saturating_mul(some) / all
    }
}
