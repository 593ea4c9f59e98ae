//! The graph of jobs by which a pair comes after the pairs that its left circuit calls.
ghost use Rattle.std.specs.Prelude.{◌≡◌, ℕ, IfOk, map};
ghost use Rattle.plain_netlist.specs.Sound.{IsGood};
ghost use Rattle.composed_laws.specs.Answered.{is_called};
ghost use Rattle.net_model.specs.Rows.{plain_call, plain_circuit, plain_netlist};
ghost use Rattle.pair_jobs.specs.Jobs.{AreCalled, AreCalledJobs};

use job_graph::Graph;
use net_model::{CallRow, Circuit, Netlist};
use std::alloc::{AllocError, Global};

// The numbers of the called circuits, in the calls' order.
fn numbers(alloc: Global, calls: &[CallRow]) -> Result<Vec<u32>, AllocError>
    ensures { IfOk result (λ v. v.items ≡ map (λ r. r.circuit) calls.now) }
{
    calls.iter().map(|r| r.circuit).collect(alloc)
}

// The pairs that a circuit calls, ascending, each once.
fn called(alloc: Global, circuit: &Circuit) -> Result<Vec<u32>, AllocError>
    ensures { IfOk result (λ v. AreCalled (plain_circuit circuit.now) v.items) }
{
    let mut called = numbers(alloc, &circuit.calls)?;
    called.sort_unstable();
    called.dedup();
    Ok(called)
}

/// The graph of the pairs of a left netlist and its right one: the jobs are the pairs by their
/// numbers, and each waits for exactly the pairs that its left circuit calls. It takes the time to
/// sort each circuit's calls.
pub fn pair_graph(alloc: Global, left: &Netlist) -> Result<Graph, AllocError>
    requires { IsGood (plain_netlist left.now) (λ k. k) }
    ensures { IfOk result (AreCalledJobs (plain_netlist left.now)) }
{
    let mut inputs = Vec::with_capacity(alloc, left.circuits.len())?;
    for circuit in &left.circuits {
        inputs.push(called(alloc, circuit)?)?;
    }
    Graph::from_inputs(alloc, inputs)
}
