//! The values that were found so far.
ghost use Rattle.std.specs.Prelude.{◌≡◌, ◌<◌, ◌↔◌, ℕ, map, replicate, length, IfOk, IsTrue, Some};
ghost use Rattle.std.specs.Prelude.{None, slice_set};
ghost use Rattle.job_graph.specs.Sharing.{IsFound};

use crate::notes::set_cell;
use crate::phase::Reads;
use crate::results::Results;
use once_cell::race::OnceBox;
use std::alloc::{AllocError, Global};
use std::marker::Model;
use std::sync::Wait;

/// For each job its value, where it was found. Contracts see it as the list of these options.
#[derive(Drop)]
pub(crate) struct Found<T> {
    values: Vec<Option<T>>,
}

impl<T> Model for Found<T> {
    ghost use Rattle.std.specs.Prelude.{List, Option};

    ghost Value = { List (Option T) };

    ghost view = { λ f. f.values.items };
}

impl<T: Drop> Found<T> {
    /// No value of this many jobs.
    pub(crate) fn nothing(alloc: Global, jobs: u32) -> Result<Found<T>, AllocError>
        ensures { IfOk result (λ f. f ≡ replicate jobs None) }
    {
        let mut values = Vec::with_capacity(alloc, jobs as usize)?;
        for _ in 0..jobs {
            values.push(None)?;
        }
        Ok(Found { values })
    }

    /// Whether the value of a job was found.
    pub(crate) fn has(&self, job: u32) -> bool
        requires { job < length self.now }
        ensures { IsTrue result ↔ IsFound self.now job }
    {
        self.values[job as usize].is_some()
    }

    /// Keeps the value of a job.
    pub(crate) fn put(&mut self, job: u32, value: T)
        requires { job < length self.old }
        ensures { self.new ≡ slice_set self.old job (Some value) }
    {
        self.values[job as usize] = Some(value);
    }

    /// The values in the order of the jobs, where each was found. They are moved.
    pub(crate) fn into_values(self, alloc: Global) -> Result<Vec<T>, AllocError>
        requires { (job : ℕ) → job < length self → IsFound self job }
        ensures { IfOk result (λ v. self ≡ map (λ x. Some x) v.items) }
    {
        let mut values = Vec::with_capacity(alloc, self.values.len())?;
        for value in self.values {
            let Some(value) = value else {
                unreachable!();
            };
            values.push(value)?;
        }
        Ok(values)
    }

    /// The results, where each value was found.
    pub(crate) fn into_results<R: Wait>(
        self,
        rt: &R,
        alloc: Global,
    ) -> Result<Results<T>, AllocError>
        requires { (job : ℕ) → job < length self → IsFound self job }
        ensures { IfOk result (λ r. self ≡ map (λ v. Some v) r) }
    {
        let mut cells = Vec::with_capacity(alloc, self.values.len())?;
        let mut notes = Vec::new(alloc);
        for value in self.values {
            let Some(value) = value else {
                unreachable!();
            };
            let cell = OnceBox::new(alloc);
            notes.push(set_cell(rt, &cell, Box::new(alloc, value)?))?;
            cells.push(cell)?;
        }
        Ok(Results::from_cells(cells, notes))
    }
}

impl<T> Reads<T> for Found<T> {
    ghost use Rattle.job_graph.specs.Sharing.{IsFound, found_at};

    ghost may_read = { λ f job. IsFound f job };

    ghost value = { λ f job. found_at f job };

    fn get(&self, job: u32) -> &T {
        let Some(value) = &self.values[job as usize] else {
            unreachable!();
        };
        value
    }
}
