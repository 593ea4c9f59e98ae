//! The graph of jobs by which a cell comes after those that place it.
ghost use Rattle.std.specs.Prelude.{◌≡◌, ◌<◌, ◌+◌, ◌||◌, ◌==◌, ℕ, length, IfOk, OnOk};
ghost use Rattle.job_graph.specs.Graph.{AreAscending, has};
ghost use Rattle.zone_phase.specs.Graph.{AreJobsOf, AreParentJobs};
ghost use Rattle.zone_phase.specs.Uses.{AreRising, AreUses, lists_of};

use crate::uses::Use;
use cell_graph::Design;
use job_graph::Graph;
use std::alloc::{AllocError, Global};

// Adds a job, unless it is the last one already.
fn push_job(jobs: &mut Vec<u32>, job: u32) -> Result<(), AllocError>
    requires { AreAscending 0 jobs.old.items (job + 1) }
    ensures ascend { OnOk result (AreAscending 0 jobs.new.items (job + 1)) }
    ensures all { OnOk result ((i : ℕ)
        → has i jobs.new.items ≡ (has i jobs.old.items || (i == job))) }
{
    let count = jobs.len();
    if count == 0 || jobs[count - 1] != job {
        jobs.push(job)?;
    }
    Ok(())
}

// The jobs of references, each once.
fn jobs_of(alloc: Global, uses: &[Use]) -> Result<Vec<u32>, AllocError>
    requires { AreRising uses.now }
    ensures { IfOk result (λ v. AreJobsOf uses.now (length uses.now) v.items) }
{
    let mut jobs = Vec::new(alloc);
    for found in uses {
        push_job(&mut jobs, found.job)?;
    }
    Ok(jobs)
}

/// The graph of jobs in which each cell waits for those that place it: linear in the references.
pub fn parent_graph(alloc: Global, design: &Design, uses: &[Vec<Use>]) -> Result<Graph, AllocError>
    requires { AreUses design.now (lists_of uses.now) }
    ensures { IfOk result (AreParentJobs design.now) }
{
    design.sound();
    let order = design.order();
    let mut inputs = Vec::new(alloc);
    for job in 0..order.len() {
        let cell = order[order.len() - 1 - job];
        let jobs = jobs_of(alloc, &uses[cell as usize])?;
        inputs.push(jobs)?;
    }
    Graph::from_inputs(alloc, inputs)
}
