//! Small graphs of jobs.
ghost use Rattle.std.specs.Prelude.{◌≡◌, ◌<◌, ◌^◌, length, IfOk};
ghost use Rattle.job_graph.specs.Graph.{AreAscending};

use job_graph::Graph;
use std::alloc::{AllocError, Global};

/// The jobs from `low` on, below `high` and below this one.
fn span(alloc: Global, low: u32, high: u32, job: u32) -> Result<Vec<u32>, AllocError>
    ensures { IfOk result (λ v. AreAscending 0 v.items job) }
{
    let mut list = Vec::new(alloc);
    for i in 0..job {
        if low <= i && i < high {
            list.push(i)?;
        }
    }
    Ok(list)
}

/// A graph in which each job waits for the jobs of a span below it.
pub fn graph_of(alloc: Global, spans: &[(u32, u32)]) -> Result<Graph, AllocError>
    requires { length spans.now < 2 ^ 32 }
    ensures { IfOk result (λ g. length g ≡ length spans.now) }
{
    let mut inputs = Vec::new(alloc);
    for place in 0..spans.len() {
        let (low, high) = spans[place];
        inputs.push(span(alloc, low, high, place as u32)?)?;
    }
    Graph::from_inputs(alloc, inputs)
}
