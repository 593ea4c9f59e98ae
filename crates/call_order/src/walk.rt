//! A walk along calls, deep first, that finds the order and the numbers on cycles.

ghost use Rattle.std.specs.Prelude.{◌≡◌, [], ◌<◌, ℕ, IfOk, OnOk, MatchOption, length};
ghost use Rattle.call_order.specs.Order.{lists, AreInRange, IsFound};
ghost use Rattle.call_order.specs.Walk.{seen, opened, begun, joined, arrived, TakesCall, rested};
ghost use Rattle.call_order.specs.Walk.{left, without, lesser, IsLast, IsUnmet, AreThere, HasMet};
ghost use Rattle.call_order.specs.Walk.{IsWalk, IsFurther};

use crate::order::CallOrder;
use std::alloc::{AllocError, Global};

/// Where a walk stands with a number: not met, on the path at this place, or done with it and with
/// all that it reaches.
#[derive(Clone, Copy, Debug)]
pub enum Place {
    Unseen,
    Open(usize),
    Closed,
}

/// Numbers of the path that reach each other: where they begin in the path and in the work, and
/// whether each of them reaches itself.
#[derive(Clone, Copy, Debug)]
pub struct Ring {
    pub path: usize,
    pub work: usize,
    pub is_cycle: bool,
}

/// A walk along calls, deep first.
#[derive(Drop)]
pub struct Walk<'a> {
    pub calls: &'a [Vec<u32>],
    pub followed: Vec<usize>,
    pub places: Vec<Place>,
    pub path: Vec<u32>,
    pub work: Vec<u32>,
    pub rings: Vec<Ring>,
    pub order: Vec<u32>,
    pub first: Option<u32>,
}

fn lesser(first: Option<u32>, k: u32) -> Option<u32>
    ensures { result ≡ lesser first k }
{
    match first {
        None => Some(k),
        Some(f) => Some(if k < f { k } else { f }),
    }
}

impl<'a> Walk<'a> {
    /// A walk that has met nothing.
    pub fn new(alloc: Global, calls: &'a [Vec<u32>]) -> Result<Walk<'a>, AllocError>
        requires { AreInRange (lists calls.now) }
        ensures walk { IfOk result (λ w. IsWalk (lists calls.now) (seen w)) }
        ensures calls { IfOk result (λ w. w.calls.now ≡ calls.now) }
        ensures still { IfOk result (λ w. w.work.items ≡ []) }
    {
        Ok(Walk {
            calls,
            followed: vec![in alloc; 0_usize; calls.len()]?,
            places: vec![in alloc; Place::Unseen; calls.len()]?,
            path: Vec::new(alloc),
            work: Vec::new(alloc),
            rings: Vec::new(alloc),
            order: Vec::new(alloc),
            first: None,
        })
    }

    /// Walks on from a number, until all that it reaches is closed.
    pub fn visit(&mut self, k: u32) -> Result<(), AllocError>
        requires walk { IsWalk (lists self.old.calls.now) (seen self.old) }
        requires still { self.old.work.items ≡ [] }
        requires there { k < length self.old.calls.now }
        ensures walk { OnOk result (IsWalk (lists self.old.calls.now) (seen self.new)) }
        ensures still { OnOk result (self.new.work.items ≡ []) }
        ensures same { self.new.calls ≡ self.old.calls }
        ensures met { OnOk result (HasMet (seen self.old) (seen self.new) k) }
    {
        self.begin(k)?;
        'steps: while let Some(v) = self.last() {
            self.step(v)?;
        }
        Ok(())
    }

    // Opens a number that was not met.
    fn begin(&mut self, k: u32) -> Result<(), AllocError>
        requires { k < length self.old.places.items }
        ensures done { OnOk result (seen self.new ≡ begun (seen self.old) k) }
        ensures same { self.new.calls ≡ self.old.calls }
    {
        match self.places[k as usize] {
            Place::Unseen => self.open(k),
            Place::Open(_) => Ok(()),
            Place::Closed => Ok(()),
        }
    }

    fn last(&self) -> Option<u32>
        ensures { MatchOption result
            (self.now.work.items ≡ []) (λ v. IsLast v self.now.work.items) }
    {
        self.work.last().copied()
    }

    // Follows the next call of the number that is worked on last, or leaves it where none is left.
    fn step(&mut self, v: u32) -> Result<(), AllocError>
        requires walk { IsWalk (lists self.old.calls.now) (seen self.old) }
        requires last { IsLast v self.old.work.items }
        ensures further { OnOk result
            (IsFurther (lists self.old.calls.now) (seen self.old) (seen self.new)) }
        ensures same { self.new.calls ≡ self.old.calls }
    {
        match self.next_call(v) {
            None => self.leave(),
            Some(b) => self.arrive(b),
        }
    }

    // The next call of a number, which is followed now, or none where all were.
    fn next_call(&mut self, v: u32) -> Option<u32>
        requires there { v < length self.old.calls.now }
        requires counted { v < length self.old.followed.items }
        ensures taken { TakesCall (lists self.old.calls.now)
            (seen self.old) (seen self.new) v result }
        ensures same { self.new.calls ≡ self.old.calls }
    {
        let row = &self.calls[v as usize];
        let n = self.followed[v as usize];
        if n >= row.len() {
            return None;
        }
        let b = row[n];
        self.followed[v as usize] = n + 1;
        Some(b)
    }

    // A call leads to this number.
    fn arrive(&mut self, b: u32) -> Result<(), AllocError>
        requires { b < length self.old.places.items }
        ensures done { OnOk result (seen self.new ≡ arrived (seen self.old) b) }
        ensures same { self.new.calls ≡ self.old.calls }
    {
        match self.places[b as usize] {
            Place::Unseen => self.open(b),
            Place::Open(place) => self.join(place),
            Place::Closed => Ok(()),
        }
    }

    fn open(&mut self, k: u32) -> Result<(), AllocError>
        requires { k < length self.old.places.items }
        ensures done { OnOk result (seen self.new ≡ opened (seen self.old) k) }
        ensures same { self.new.calls ≡ self.old.calls }
    {
        let ring = Ring {
            path: self.path.len(),
            work: self.work.len(),
            is_cycle: false,
        };
        self.places[k as usize] = Place::Open(self.path.len());
        self.rings.push(ring)?;
        self.path.push(k)?;
        self.work.push(k)?;
        Ok(())
    }

    // A call leads back to this place of the path.
    fn join(&mut self, place: usize) -> Result<(), AllocError>
        ensures done { OnOk result (seen self.new ≡ joined (seen self.old) place) }
        ensures same { self.new.calls ≡ self.old.calls }
    {
        'rings: while let Some(ring) = self.rings.pop() {
            if ring.path <= place {
                self.rings.push(Ring {
                    path: ring.path,
                    work: ring.work,
                    is_cycle: true,
                })?;
                return Ok(());
            }
        }
        Ok(())
    }

    // The number that is worked on last has no calls left.
    fn leave(&mut self) -> Result<(), AllocError>
        requires some { 0 < length self.old.work.items }
        requires there { AreThere (seen self.old) }
        ensures done { OnOk result (seen self.new ≡ left (rested (seen self.old))) }
        ensures same { self.new.calls ≡ self.old.calls }
    {
        let _ = self.work.pop();
        match self.rings.pop() {
            None => Ok(()),
            Some(ring) => {
                if ring.work == self.work.len() {
                    self.close(ring)
                } else {
                    self.rings.push(ring)?;
                    Ok(())
                }
            }
        }
    }

    // The numbers of the path from this ring on are closed.
    fn close(&mut self, ring: Ring) -> Result<(), AllocError>
        requires { AreThere (seen self.old) }
        ensures done { OnOk result (seen self.new ≡ without (seen self.old) ring) }
        ensures same { self.new.calls ≡ self.old.calls }
    {
        'numbers: for i in ring.path..self.path.len() {
            let k = self.path[i];
            self.places[k as usize] = Place::Closed;
            self.order.push(k)?;
            if ring.is_cycle {
                self.first = lesser(self.first, k);
            }
        }
        self.path.truncate(ring.path);
        Ok(())
    }

    /// What was found, once all numbers were met.
    pub fn found(self) -> CallOrder
        requires walk { IsWalk (lists self.calls.now) (seen self) }
        requires still { self.work.items ≡ [] }
        requires met { (k : ℕ) → k < length self.calls.now → IsUnmet (seen self) k → ⊥ }
        ensures { IsFound (lists self.entry.calls.now) result }
    {
        match self.first {
            None => CallOrder::CalleesFirst(self.order),
            Some(k) => CallOrder::Cycle(k),
        }
    }
}
