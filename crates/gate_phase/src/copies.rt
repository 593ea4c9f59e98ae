//! The gates of a list once more.
ghost use Rattle.std.specs.Prelude.{◌≡◌, IfOk};

use deep_tables::Gate;
use std::alloc::{AllocError, Global};

fn copy_of(alloc: Global, gate: &Gate) -> Result<Gate, AllocError>
    ensures { IfOk result (λ g. g ≡ gate.now) }
{
    Ok(Gate {
        device: gate.device,
        area: gate.area.try_clone(alloc)?,
        least: gate.least,
        state: gate.state,
    })
}

/// The gates once more. Linear.
pub fn copies_of(alloc: Global, gates: &[Gate]) -> Result<Vec<Gate>, AllocError>
    ensures { IfOk result (λ v. v.items ≡ gates.now) }
{
    let mut copies = Vec::new(alloc);
    for gate in gates {
        let copy = copy_of(alloc, gate)?;
        copies.push(copy)?;
    }
    Ok(copies)
}
