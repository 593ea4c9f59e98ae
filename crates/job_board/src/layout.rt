//! Where the slots of each job are, and which edges lead to its dependents.
ghost use Rattle.std.specs.Prelude.{◌≡◌, ◌<◌, ◌≤◌, ◌+◌, ◌^◌, ℕ, ◌++◌, length, map, replicate, []};
ghost use Rattle.std.specs.Prelude.{IfOk, OnOk};
ghost use Rattle.job_graph.specs.Graph.{AreAscending, AreInputs, inputs_of};
ghost use Rattle.job_board.specs.Layout.{IsLayout, edges_at, edges_of, new_edge};

use job_graph::Graph;
use std::alloc::{AllocError, Global};

/// The edge from a job to one of its dependents.
#[derive(Clone, Copy)]
pub(crate) struct Edge {
    pub to: u32,
    pub slot: usize,
}

/// Of each job what it waits for, its edges to its dependents, and its own slot.
#[derive(Drop)]
pub(crate) struct Layout {
    pub graph: Graph,
    pub edges: Vec<Vec<Edge>>,
    /// A job's own slot stands behind those of its inputs.
    pub owns: Vec<usize>,
    /// The number of all slots.
    pub slots: usize,
    /// No job has more inputs.
    pub most: usize,
}

/// The same graph.
fn copied(alloc: Global, graph: &Graph) -> Result<Graph, AllocError>
    ensures { IfOk result (λ g. g ≡ graph.now) }
{
    let mut inputs = Vec::new(alloc);
    for job in 0..graph.jobs() {
        inputs.push(graph.inputs(job).to_vec(alloc)?)?;
    }
    Graph::from_inputs(alloc, inputs)
}

/// No edge of this many jobs.
fn no_edges(alloc: Global, jobs: u32) -> Result<Vec<Vec<Edge>>, AllocError>
    ensures count { IfOk result (λ v. length v.items ≡ jobs) }
    ensures edges { IfOk result (λ v. (job : ℕ) → edges_at v.items job ≡ []) }
{
    let mut edges = Vec::with_capacity(alloc, jobs as usize)?;
    for _ in 0..jobs {
        edges.push(Vec::new(alloc))?;
    }
    Ok(edges)
}

/// Puts the edge from each of its inputs to a job behind the other edges from that input. The
/// edges' slots stand side by side from the job's first slot on.
fn add_edges(
    edges: &mut Vec<Vec<Edge>>,
    inputs: &[u32],
    job: u32,
    first: usize,
) -> Result<(), AllocError>
    requires inputs { AreAscending 0 inputs.now job }
    requires job { job < length edges.old.items }
    requires room { first + length inputs.now < 2 ^ 64 }
    ensures count { OnOk result (length edges.new.items ≡ length edges.old.items) }
    ensures edges { OnOk result ((from : ℕ) → edges_at edges.new.items from
        ≡ edges_at edges.old.items from ++ new_edge inputs.now job first from) }
{
    for place in 0..inputs.len() {
        let edge = Edge {
            to: job,
            slot: first + place,
        };
        edges[inputs[place] as usize].push(edge)?;
    }
    Ok(())
}

impl Layout {
    /// O(jobs + inputs).
    pub(crate) fn of(alloc: Global, graph: &Graph) -> Result<Layout, AllocError>
        ensures { IfOk result (IsLayout graph.now) }
    {
        let mut edges = no_edges(alloc, graph.jobs())?;
        let mut owns = Vec::with_capacity(alloc, graph.jobs() as usize)?;
        let mut slots = 0;
        let mut most = 0;
        for job in 0..graph.jobs() {
            let inputs = graph.inputs(job);
            add_edges(&mut edges, inputs, job, slots)?;
            owns.push(slots + inputs.len())?;
            most = most.max(inputs.len());
            slots += inputs.len() + 1;
        }
        Ok(Layout {
            graph: copied(alloc, graph)?,
            edges,
            owns,
            slots,
            most,
        })
    }

    /// The edges from a job to its dependents, ascending.
    pub(crate) fn edges(&self, job: u32) -> &[Edge]
        requires layout { IsLayout self.now.graph self.now }
        requires job { job < length self.now.graph }
        ensures { result.now ≡ edges_of self.now.graph job }
    {
        &self.edges[job as usize]
    }
}
