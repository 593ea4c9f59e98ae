//! The jobs of a phase in which no cell waits for another.
ghost use Rattle.std.specs.Prelude.{IfOk};
ghost use Rattle.deep_tables.specs.Jobs.{AreFreeJobs};

use cell_graph::Design;
use job_graph::Graph;
use std::alloc::{AllocError, Global};

/// The graph of jobs of the reached cells in which none waits. Linear in the reached cells.
pub fn free_graph(alloc: Global, design: &Design) -> Result<Graph, AllocError>
    ensures { IfOk result (AreFreeJobs design.now) }
{
    let mut inputs = Vec::new(alloc);
    for _ in 0..design.order().len() {
        inputs.push(Vec::new(alloc))?;
    }
    Graph::from_inputs(alloc, inputs)
}
