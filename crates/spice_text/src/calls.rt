//! Which circuits the calls of each circuit call, by number.

ghost use Rattle.std.specs.Prelude.{◌≡◌, ◌<◌, ◌^◌, length, map, IfOk};
ghost use Rattle.call_order.specs.Order.{lists};
ghost use Rattle.spice_rows.specs.Seen.{call_seen};
ghost use Rattle.spice_text.specs.Circuits.{names_of, called_in, call_lists};
ghost use Rattle.spice_text.specs.Seen.{circuit_seen};

use crate::gather::CircuitCards;
use spice_rows::CallCard;
use std::alloc::{AllocError, Global};
use text_table::TextTable;

fn numbers(alloc: Global, names: &TextTable, calls: &[CallCard]) -> Result<Vec<u32>, AllocError>
    requires { length names.now < 2 ^ 32 }
    ensures { IfOk result (λ row. row.items ≡ map (called_in names.now) (map call_seen calls.now)) }
{
    let mut row = Vec::with_capacity(alloc, calls.len())?;
    let mut rest = calls;
    'calls: while let [call, more @ ..] = rest {
        row.push(names.place(call.circuit.bytes()) as u32)?;
        rest = more;
    }
    Ok(row)
}

/// For each circuit, the numbers of those that its calls call, in the calls' order.
pub fn call_lists(
    alloc: Global,
    names: &TextTable,
    circuits: &[CircuitCards],
) -> Result<Vec<Vec<u32>>, AllocError>
    requires names { names.now ≡ names_of (map circuit_seen circuits.now) }
    requires few { length names.now < 2 ^ 32 }
    ensures { IfOk result (λ rows. lists rows.items ≡ call_lists (map circuit_seen circuits.now)) }
{
    let mut rows = Vec::with_capacity(alloc, circuits.len())?;
    let mut rest = circuits;
    'circuits: while let [circuit, more @ ..] = rest {
        rows.push(numbers(alloc, names, &circuit.calls)?)?;
        rest = more;
    }
    Ok(rows)
}
