//! Who works a phase.
ghost use Rattle.std.specs.Prelude.{◌≡◌, ◌≤◌};

use std::thread::{Threads, join};

/// Those who work a phase: so many workers, on threads of `rt`, and the gate that each of them
/// enters between its claim of a job and its work on it.
#[derive(Drop)]
pub struct Crew<'a, R, G> {
    pub rt: &'a R,
    pub gate: &'a G,
    pub workers: usize,
    pub ghost few: { (1 ≤ workers) × (workers ≤ 64) },
}

impl<'a, R: Threads, G> Crew<'a, R, G> {
    /// A crew of 1 to 64 workers. O(1).
    pub fn new(rt: &'a R, workers: usize, gate: &'a G) -> Self
        requires { (1 ≤ workers) × (workers ≤ 64) }
        ensures { result.workers ≡ workers }
    {
        Crew { rt, gate, workers }
    }

    /// Two works: side by side where there are two workers or more, on a further thread, else the
    /// first before the second. Cost: the works, and a thread.
    pub fn both<A: Send, B, F: FnOnce() -> A + Send, S: FnOnce() -> B>(
        &self,
        first: F,
        second: S,
    ) -> (A, B)
        requires first { F.pre first }
        requires second { S.pre second }
        ensures first { F.post first result.0 }
        ensures second { S.post second result.1 }
    {
        if self.workers > 1 {
            return join(self.rt, first, second);
        }
        let one = first();
        let two = second();
        (one, two)
    }
}
