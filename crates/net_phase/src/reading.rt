//! The nets of the cells below a cell, by the cells' numbers.
ghost use Rattle.std.specs.Prelude.{◌≡◌, ◌<◌, ℕ, true, length, slice_index, IfOk, IsSomeAnd};
ghost use Rattle.cell_graph.specs.Linked.{Linked, plain};
ghost use Rattle.job_graph.specs.Graph.{has};
ghost use Rattle.rule_text.specs.Rules.{Rules};
ghost use Rattle.deep_tables.specs.Nets.{AreCellNets};
ghost use Rattle.net_phase.specs.Reading.{AreRead, nets_of};

use deep_tables::CellNets;
use job_graph::Reads;
use std::alloc::{AllocError, Global};

/// The nets of the cells of some jobs, and none of others.
pub fn read_nets<'a, R: Reads<CellNets>>(
    alloc: Global,
    reads: &'a R,
    inputs: &[u32],
    order: &[u32],
    cells: u32,
) -> Result<Vec<Option<&'a CellNets>>, AllocError>
    requires may { (i : ℕ) → has i inputs.now ≡ true → R.may_read reads.now i }
    requires jobs { (i : ℕ) → has i inputs.now ≡ true → i < length order.now }
    requires cells { (i : ℕ) → i < length order.now → slice_index order.now i < cells }
    ensures { IfOk result (λ v. (d : Linked) (r : Rules)
        → ((i : ℕ) → has i inputs.now ≡ true
        → IsSomeAnd (R.value reads.now i) (AreCellNets (plain d) r (slice_index order.now i)))
        → AreRead d r inputs.now order.now (nets_of v.items)) }
{
    let mut nets = Vec::new(alloc);
    for _ in 0..cells {
        nets.push(None)?;
    }
    for input in inputs {
        let cell = order[*input as usize];
        nets[cell as usize] = Some(reads.get(*input));
    }
    Ok(nets)
}
