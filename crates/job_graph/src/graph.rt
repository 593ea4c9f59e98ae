//! Jobs, and the jobs that they wait for.
ghost use Rattle.std.specs.Prelude.{◌≡◌, ◌<◌, ◌≤◌, ◌^◌, ℕ, length, IfOk, OnErr};
ghost use Rattle.job_graph.specs.Graph.{AreInputs, AreLower, LowerLaw, inputs_of, lists};
ghost use Rattle.job_graph.specs.Over.{AscendLaw, OnceLaw, OverLaw, PlaceLaw};

use std::alloc::{AllocError, Global};
use std::marker::Model;

/// For each job its inputs: the jobs that it waits for, ascending and below its own number.
/// Contracts see it as the list of these lists.
#[derive(Drop)]
pub struct Graph {
    inputs: Vec<Vec<u32>>,
}

impl Model for Graph {
    ghost use Rattle.std.specs.Prelude.{List, ℕ};
    ghost use Rattle.job_graph.specs.Graph.{AreInputs, lists};

    ghost Value = { List (List ℕ) };

    ghost view = { λ g. lists g.inputs.items };

    ghost invariant = { λ g. AreInputs (lists g.inputs.items) };
}

impl Graph {
    /// The graph of these inputs, in constant time. It takes no memory: 2^32 jobs or more are
    /// refused, and nothing else is.
    pub fn from_inputs(_alloc: Global, inputs: Vec<Vec<u32>>) -> Result<Graph, AllocError>
        requires { AreLower (lists inputs.items) }
        ensures ok { IfOk result (λ g. g ≡ lists inputs.items) }
        ensures err { OnErr result (2 ^ 32 ≤ length (lists inputs.items)) }
    {
        if inputs.len() > u32::MAX as usize {
            return Err(AllocError);
        }
        Ok(Graph { inputs })
    }

    /// The number of jobs.
    pub fn jobs(&self) -> u32
        ensures count { result ≡ length self.now }
        ensures sound { AreInputs self.now }
    {
        self.inputs.len() as u32
    }

    /// What a job waits for.
    pub fn inputs(&self, job: u32) -> &[u32]
        requires { job < length self.now }
        ensures { result.now ≡ inputs_of self.now job }
    {
        &self.inputs[job as usize]
    }
}

/// What holds of every graph: a job waits for jobs of lower numbers alone and names each once. And
/// what makes a graph: numbers that ascend below the job's own, over the cells (or pairs) of a
/// phase.
pub fn graph_laws()
    ensures lower { LowerLaw }
    ensures once { OnceLaw }
    ensures places { PlaceLaw }
    ensures ascend { AscendLaw }
    ensures over { OverLaw }
{}
