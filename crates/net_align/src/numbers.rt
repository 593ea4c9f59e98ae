//! Numbers in the order of first sight.
ghost use Rattle.std.specs.Prelude.{◌≡◌, ◌<◌, IfOk, OnOk, length, map, None, slice_index_or, []};
ghost use Rattle.net_align.specs.Laid.{AreBelow};
ghost use Rattle.net_align.specs.Sights.{IsNumbering, firsts, with_first, new_of};

use list_base::number;
use std::alloc::{AllocError, Global};

/// Numbers in the order of first sight, and the place of each.
#[derive(Drop)]
pub struct Numbers {
    pub places: Vec<Option<u32>>,
    pub list: Vec<u32>,
}

impl Numbers {
    /// The numbers of a list, each below `count`, where they are first seen. Linear.
    pub fn of(alloc: Global, sights: &[u32], count: usize) -> Result<Numbers, AllocError>
        requires { AreBelow sights.now count }
        ensures list { IfOk result (λ n. n.list.items ≡ firsts sights.now) }
        ensures places { IfOk result (λ n. IsNumbering n.list.items count n.places.items) }
    {
        let mut numbers = Numbers {
            places: no_numbers(alloc, count)?,
            list: Vec::new(alloc),
        };
        for n in sights {
            numbers.see(*n)?;
        }
        Ok(numbers)
    }

    // A number is seen.
    fn see(&mut self, n: u32) -> Result<(), AllocError>
        requires low { n < length self.old.places.items }
        requires places { IsNumbering
            self.old.list.items (length self.old.places.items) self.old.places.items }
        ensures list { OnOk result (self.new.list.items ≡ with_first self.old.list.items n) }
        ensures places { OnOk result (IsNumbering
            self.new.list.items (length self.old.places.items) self.new.places.items) }
    {
        if self.places[n as usize].is_none() {
            let place = number(self.list.len())?;
            self.list.push(n)?;
            self.places[n as usize] = Some(place);
        }
        Ok(())
    }

    /// The numbers of the list, renumbered by their places. Linear.
    pub fn renumbered(&self, alloc: Global, list: &[u32]) -> Result<Vec<u32>, AllocError>
        ensures { IfOk result (λ new. new.items ≡ map (new_of self.now.places.items) list.now) }
    {
        let mut new = Vec::with_capacity(alloc, list.len())?;
        for n in list {
            new.push(self.place(*n))?;
        }
        Ok(new)
    }

    /// The place of a number.
    pub fn place(&self, n: u32) -> u32
        ensures { result ≡ new_of self.now.places.items n }
    {
        entry(&self.places, n).unwrap_or(0)
    }
}

/// What a table has for a number, none past its end.
pub fn entry(table: &[Option<u32>], n: u32) -> Option<u32>
    ensures { result ≡ slice_index_or table.now n None }
{
    match table.get(n as usize) {
        Some(found) => *found,
        None => None,
    }
}

/// A table of nothing.
pub fn no_numbers(alloc: Global, count: usize) -> Result<Vec<Option<u32>>, AllocError>
    ensures { IfOk result (λ table. IsNumbering [] count table.items) }
{
    vec![in alloc; None; count]
}
