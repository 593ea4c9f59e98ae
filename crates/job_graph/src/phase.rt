//! What is worked job by job.
ghost use Rattle.std.specs.Prelude.{◌≡◌, ◌<◌, ℕ, List, length, IfOk, IsSomeAnd, Option, Some};
ghost use Rattle.job_graph.specs.Graph.{Waits};

use crate::graph::Graph;
use std::alloc::{AllocError, Global};

/// Values of jobs that may be read.
pub trait Reads<T> {
    ghost may_read: { Self → ℕ → Type 0 };

    ghost value: { Self → ℕ → Option T };

    /// The value of a job.
    fn get(&self, job: u32) -> &T
        requires { may_read self.now job }
        ensures { value self.now job ≡ Some result.now };
}

/// What a phase finds for a job: which value is the defined one of a job, by a key.
/// A key is a token of no bytes that names what the phase was made from, for contracts alone.
pub trait Defined {
    // Without `Send` and `Sync` no phase could be handed to a thread.
    type Key: Send + Sync + Drop;

    ghost is_defined: { Self.Key → ℕ → Self → Type 0 };
}

/// Work that is done job by job, each job after its inputs.
pub trait Phase {
    type Out: Defined + Send + Sync + Drop;

    ghost graph: { Self → List (List ℕ) };

    ghost key: { Self → Self.Out.Key };

    /// The jobs and what they wait for.
    fn graph(&self) -> &Graph
        ensures { result.now ≡ graph self.now };

    /// What the phase was made from.
    fn key(&self) -> <Self::Out as Defined>::Key
        ensures { result ≡ key self.now };

    /// The defined value of a job, from those of its inputs. It can read no other job.
    fn work<R: Reads<Self::Out>>(
        &self,
        alloc: Global,
        job: u32,
        reads: &R,
    ) -> Result<Self::Out, AllocError>
        requires job { job < length (graph self.now) }
        requires inputs { (i : ℕ) → Waits (graph self.now) job i → R.may_read reads.now i }
        requires right { (i : ℕ) → Waits (graph self.now) job i →
            IsSomeAnd (R.value reads.now i) (Self.Out.is_defined (key self.now) i) }
        ensures { IfOk result (λ v. Self.Out.is_defined (key self.now) job v) };
}
