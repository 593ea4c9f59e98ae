//! One entry for each cell, from the results of a phase's jobs.
ghost use Rattle.std.specs.Prelude.{◌≡◌, ◌<◌, ◌^◌, ◌-◌, ℕ, length, IfOk, IsSome, List, Option};
ghost use Rattle.std.specs.Prelude.{Some};
ghost use Rattle.deep_tables.specs.Entries.{entry, IsDownward, IsUpward};
ghost use Rattle.deep_tables.specs.Positions.{AreApartBelow, ArePositions, AreReversed};

use cell_graph::Design;
use job_graph::{Reads, Results};
use std::alloc::{AllocError, Global};
use std::marker::Model;

/// The entries of the cells that the top reaches, each found by its job. Contracts see a list with
/// an entry, or none, for each cell.
#[derive(Drop)]
pub struct Table<T> {
    jobs: Vec<u32>,
    results: Results<T>,
}

impl<T> Model for Table<T> {
    ghost use Rattle.std.specs.Prelude.{List, Option, map, slice_get};

    ghost Value = { List (Option T) };

    ghost view = { λ t. map (λ job. slice_get t.results job) t.jobs.items };
}

/// The position in a list of numbers at which each number stands, 0 for those that don't. Linear.
pub fn positions(alloc: Global, count: u32, order: &[u32]) -> Result<Vec<u32>, AllocError>
    requires numbers { AreApartBelow count order.now }
    requires few { length order.now < 2 ^ 32 }
    ensures count { IfOk result (λ r. length r.items ≡ count) }
    ensures places { IfOk result (λ r. ArePositions order.now (length order.now) r.items) }
{
    let mut places = vec![in alloc; 0u32; count as usize]?;
    for (k, number) in order.iter().enumerate() {
        places[*number as usize] = k as u32;
    }
    Ok(places)
}

// The same, counted from the end of the list.
fn positions_from_end(alloc: Global, count: u32, order: &[u32]) -> Result<Vec<u32>, AllocError>
    requires numbers { AreApartBelow count order.now }
    requires few { length order.now < 2 ^ 32 }
    ensures count { IfOk result (λ r. length r.items ≡ count) }
    ensures places { IfOk result (λ r. AreReversed order.now (length order.now) r.items) }
{
    let mut places = vec![in alloc; 0u32; count as usize]?;
    for (k, number) in order.iter().enumerate() {
        places[*number as usize] = (order.len() - 1 - k) as u32;
    }
    Ok(places)
}

impl<T: Drop> Table<T> {
    /// The table of a phase whose jobs go through the design's order, so that each cell comes after
    /// those that it places.
    pub fn upward(
        alloc: Global,
        design: &Design,
        results: Results<T>,
    ) -> Result<Table<T>, AllocError>
        ensures { IfOk result (IsUpward design.now results) }
    {
        design.sound();
        let jobs = positions(alloc, design.cells(), design.order())?;
        Ok(Table { jobs, results })
    }

    /// The table of a phase whose jobs go through the design's order from its end, so that each
    /// cell comes after those that place it.
    pub fn downward(
        alloc: Global,
        design: &Design,
        results: Results<T>,
    ) -> Result<Table<T>, AllocError>
        ensures { IfOk result (IsDownward design.now results) }
    {
        design.sound();
        let jobs = positions_from_end(alloc, design.cells(), design.order())?;
        Ok(Table { jobs, results })
    }

    /// A cell's entry, in constant time.
    pub fn of(&self, cell: u32) -> &T
        requires { IsSome (entry self.now cell) }
        ensures { entry self.now cell ≡ Some result.now }
    {
        self.results.get(self.jobs[cell as usize])
    }
}
