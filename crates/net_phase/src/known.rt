//! The nets of the reached cells, by the cells' numbers.
ghost use Rattle.std.specs.Prelude.{◌≡◌, ℕ, IfOk, IsSome, None, get_or};
ghost use Rattle.cell_graph.specs.Linked.{plain};
ghost use Rattle.deep_tables.specs.Entries.{entry};
ghost use Rattle.flat_layout.specs.Layout.{IsReached};
ghost use Rattle.net_phase.specs.Reading.{nets_of};

use cell_graph::Design;
use deep_tables::{CellNets, Nets};
use std::alloc::{AllocError, Global};

/// The nets of each reached cell, and none of others. Nothing is copied.
pub fn known_nets<'a>(
    alloc: Global,
    design: &Design,
    nets: &'a Nets,
) -> Result<Vec<Option<&'a CellNets>>, AllocError>
    requires { (cell : ℕ) → IsReached (plain design.now) cell → IsSome (entry nets.now cell) }
    ensures { IfOk result (λ v. (cell : ℕ) → IsReached (plain design.now) cell
        → get_or (nets_of v.items) cell None ≡ entry nets.now cell) }
{
    design.sound();
    let mut known = Vec::new(alloc);
    for _ in 0..design.cells() {
        known.push(None)?;
    }
    for cell in design.order() {
        known[*cell as usize] = Some(nets.of(*cell));
    }
    Ok(known)
}
