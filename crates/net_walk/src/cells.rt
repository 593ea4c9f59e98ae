//! What a walk reads of the cells: rectangles, nets, placements and what bounds them.

ghost use Rattle.std.specs.Prelude.{◌≡◌, ℕ, true, ◌<◌, length, map, IfOk, IfSome, IfNone};
ghost use Rattle.flat_layout.specs.Layout.{Design, IsHeight};
ghost use Rattle.flat_layout.specs.Nets.{AreNets, Tables};
ghost use Rattle.flat_layout.specs.Regions.{Wiring};
ghost use Rattle.geo_base.specs.Near.{IsNearRect};
ghost use Rattle.net_link_laws.specs.Places.{places_of};
ghost use Rattle.net_walk.specs.Pairs.{first_of};
ghost use Rattle.net_walk.specs.Walk.{place_of, AreClose, AreNearOwn, HaveArea, IsClose, IsHull};
ghost use Rattle.net_walk.specs.Walk.{IsSpan, HasNone, HasNoSquare};
ghost use Rattle.net_walk.specs.Windows.{AreAllNumbers, AreOwnNear, ArePlacesNear};

use geo_base::{Motion, Rect};
use list_base::small;
use std::alloc::{AllocError, Global};

/// A placement of a cell.
#[derive(Clone, Copy, Debug, PartialEq, Eq)]
pub struct Element {
    pub cell: u32,
    pub motion: Motion,
}

// The numbers below a count. More than 2^32 are refused.
fn all_numbers(alloc: Global, count: usize) -> Result<Vec<u32>, AllocError>
    ensures { IfOk result (λ v. AreAllNumbers count v.items) }
{
    let mut numbers = Vec::new(alloc);
    for number in 0..count {
        let place = small(number).ok_or(AllocError)?;
        numbers.push(place)?;
    }
    Ok(numbers)
}

/// What a walk reads of the cells.
pub trait Cells {
    ghost design: { Self → Design };

    ghost wiring: { Self → Wiring };

    ghost tables: { Self → Tables };

    ghost height: { Self → ℕ → ℕ };

    /// How many conductors the rules have.
    fn conductors(&self) -> u32
        ensures { result ≡ length (wiring self.now).conductors };

    /// The rectangles that a cell itself holds of a conductor.
    fn own(&self, cell: u32, conductor: u32) -> &[Rect]
        ensures all { result.now ≡ (tables self.now).own cell conductor }
        ensures filled { HaveArea result.now };

    /// The net of each item of a cell.
    fn net_of(&self, cell: u32) -> &[u32]
        ensures { result.now ≡ ((tables self.now).nets cell).net_of };

    /// How many nets a cell has.
    fn count(&self, cell: u32) -> u32
        ensures { result ≡ ((tables self.now).nets cell).count };

    /// The placements in a cell, in order.
    fn places(&self, cell: u32) -> &[Element]
        ensures all { map place_of result.now ≡ places_of (design self.now) cell }
        ensures close { AreClose result.now }
        ensures few { length result.now < 4294967296 };

    /// What bounds the nets of a cell.
    fn hull(&self, cell: u32) -> Option<Rect>
        ensures some { IfSome result (IsHull (design self.now) (tables self.now) cell) }
        ensures none { IfNone result (HasNoSquare (design self.now) (tables self.now) cell) };

    /// What bounds the nets of a placed cell, as its placement brings it there.
    fn span(&self, element: &Element) -> Option<Rect>
        requires { IsClose element.now.motion }
        ensures some { IfSome result (IsSpan (design self.now) (tables self.now)
            (place_of element.now)) }
        ensures none { IfNone result (HasNoSquare (design self.now) (tables self.now)
            element.now.cell) };

    /// Whether it is known that no net of a cell has a square of a conductor. Here it never is.
    fn is_bare(&self, cell: u32, conductor: u32) -> bool
        ensures { result ≡ true → HasNone (design self.now) (tables self.now) cell conductor }
    {
        let _ = (cell, conductor);
        false
    }

    /// Positions in `own(cell, conductor)`, among them those of all rectangles that share a square
    /// with the window. Here they are all; an index tells few.
    fn own_near(
        &self,
        alloc: Global,
        cell: u32,
        conductor: u32,
        window: &Rect,
    ) -> Result<Vec<u32>, AllocError>
        ensures { IfOk result (λ v. AreOwnNear ((tables self.now).own cell conductor) window.now
            v.items) }
    {
        let _ = window;
        let all = all_numbers(alloc, self.own(cell, conductor).len())?;
        Ok(all)
    }

    /// Numbers of placements in a cell, among them those of all that bring squares of nets into the
    /// window. Here they are all; an index tells few.
    fn places_near(&self, alloc: Global, cell: u32, window: &Rect) -> Result<Vec<u32>, AllocError>
        requires { IsNearRect window.now }
        ensures { IfOk result (λ v. ArePlacesNear (design self.now) (tables self.now) cell
            window.now v.items) }
    {
        let _ = window;
        let all = all_numbers(alloc, self.places(cell).len())?;
        Ok(all)
    }

    /// The place of a placement's first net among the items of its cell. Here by a sum.
    fn first_place(&self, cell: u32, number: u32) -> usize
        requires nets { AreNets (design self.now) (wiring self.now) (tables self.now) cell
            ((tables self.now).nets cell) }
        requires number { number < length (places_of (design self.now) cell) }
        ensures { result ≡ first_of (design self.now) (wiring self.now) (tables self.now) cell
            number }
    {
        let _net_of = self.net_of(cell);
        let elements = self.places(cell);
        let mut at = 0usize;
        for conductor in 0..self.conductors() {
            at += self.own(cell, conductor).len();
        }
        for k in 0..number as usize {
            at += self.count(elements[k].cell) as usize;
        }
        at
    }

    /// What holds of the cells: no cell stands below itself, and own rectangles have squares and
    /// are near the origin.
    fn sound(&self)
        ensures lower { IsHeight (design self.now) (height self.now) }
        ensures own { AreNearOwn (tables self.now) };
}
