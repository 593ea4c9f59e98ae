//! What a worker tries next.
ghost use Rattle.std.specs.Prelude.{◌≡◌, ◌<◌, IfOk};

use std::alloc::{AllocError, Global};
use std::marker::Model;

/// The jobs that a worker tries next: first those of a list of its own, the last one first, and
/// then all, from a place of its own on. Contracts see the number of all jobs.
#[derive(Drop)]
pub(crate) struct Tries {
    list: Vec<u32>,
    place: u32,
    jobs: u32,
}

impl Model for Tries {
    ghost use Rattle.std.specs.Prelude.{◌<◌, ◌≤◌, ℕ, All, vec_capacity};

    ghost Value = { ℕ };

    ghost view = { λ t. t.jobs };

    ghost invariant = { λ t. (t.place < t.jobs) × (t.jobs ≤ vec_capacity t.list)
        × All (λ job. job < t.jobs) t.list.items };
}

impl Tries {
    /// An empty list, with room for as many as there are jobs.
    pub(crate) fn new(alloc: Global, jobs: u32, place: u32) -> Result<Tries, AllocError>
        requires { place < jobs }
        ensures { IfOk result (λ t. t ≡ jobs) }
    {
        let list = Vec::with_capacity(alloc, jobs as usize)?;
        Ok(Tries { list, place, jobs })
    }

    /// Puts a job on the list, where there is room.
    pub(crate) fn add(&mut self, job: u32)
        requires { job < self.old }
        ensures { self.new ≡ self.old }
    {
        if self.list.len() < self.jobs as usize {
            let Ok(()) = self.list.push(job) else {
                unreachable!();
            };
        }
    }

    /// The job to try next.
    pub(crate) fn next(&mut self) -> u32
        ensures job { result < self.old }
        ensures stands { self.new ≡ self.old }
    {
        if let Some(job) = self.list.pop() {
            return job;
        }
        let job = self.place;
        self.place = if job + 1 < self.jobs { job + 1 } else { 0 };
        job
    }
}
