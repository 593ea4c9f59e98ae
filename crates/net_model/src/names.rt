//! Names that stand twice, among the circuits and among the nets of one.

ghost use Rattle.std.specs.Prelude.{◌≡◌, ◌<◌, ◌^◌, IfOk, [], map, length};
ghost use Rattle.net_model.specs.Rows.{plain_circuit};
ghost use Rattle.net_model.specs.Tests.{has_twins, first_clash};

use crate::netlist::Circuit;
use net_names::Name;
use std::alloc::{AllocError, Global};
use text_table::TextTable;

/// Whether a name stands twice. Linear in the names.
pub fn has_twins(alloc: Global, names: &[Name]) -> Result<bool, AllocError>
    ensures { IfOk result (λ found. found ≡ has_twins [] names.now) }
{
    let mut seen = TextTable::new(alloc);
    let mut rest = names;
    'names: while let [name, more @ ..] = rest {
        if seen.contains(name.bytes()) {
            return Ok(true);
        }
        seen.add(alloc, name.bytes())?;
        rest = more;
    }
    Ok(false)
}

/// The first circuit whose name stands before it, or of whose nets two have one name.
pub fn first_clash(alloc: Global, circuits: &[Circuit]) -> Result<Option<u32>, AllocError>
    requires { length circuits.now < 2 ^ 32 }
    ensures { IfOk result (λ found. found ≡ first_clash [] 0 (map plain_circuit circuits.now)) }
{
    let mut seen = TextTable::new(alloc);
    let mut number = 0;
    let mut rest = circuits;
    'circuits: while let [circuit, more @ ..] = rest {
        if seen.contains(circuit.name.bytes()) {
            return Ok(Some(number));
        }
        if has_twins(alloc, &circuit.nets)? {
            return Ok(Some(number));
        }
        seen.add(alloc, circuit.name.bytes())?;
        number += 1;
        rest = more;
    }
    Ok(None)
}
