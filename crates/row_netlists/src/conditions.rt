//! The conditions of an alignment, tested.
ghost use Rattle.std.specs.Prelude.{◌≡◌, IfOk, nat_lt, not, true};
ghost use Rattle.std.specs.List.{list_any};
ghost use Rattle.net_align.specs.Compared.{AreCalleesFirst, IsAlignable};
ghost use Rattle.net_align.specs.Names.{left_names, right_names};
ghost use Rattle.net_model.specs.Rows.{plain_netlist};
ghost use Rattle.plain_netlist.specs.Lists.{AreApart};
ghost use Rattle.plain_netlist.specs.Normal.{IsNormalNetlist};
ghost use Rattle.plain_netlist.specs.Sound.{IsSoundNetlist};
ghost use Rattle.row_netlists.specs.Small.{has_small};

use net_model::{CallRow, Circuit, Netlist};
use net_names::Name;
use row_texts::RowFault;
use spice_text::read_spice;
use std::alloc::Global;

/// The netlist of a text that is one.
pub fn read(alloc: Global, text: &[u8]) -> Result<Netlist, RowFault>
    ensures sound { IfOk result (λ n. IsSoundNetlist (plain_netlist n)) }
    ensures normal { IfOk result (λ n. IsNormalNetlist (plain_netlist n)) }
{
    match read_spice(alloc, text) {
        Ok(netlist) => Ok(netlist),
        Err(_) => Err(RowFault::Unclear),
    }
}

/// Whether no circuit's name has a small letter.
pub fn is_alignable(n: &Netlist) -> bool
    requires sound { IsSoundNetlist (plain_netlist n.now) }
    requires normal { IsNormalNetlist (plain_netlist n.now) }
    ensures { result ≡ true → IsAlignable (plain_netlist n.now) }
{
    !some_small(&n.circuits)
}

fn some_small(circuits: &[Circuit]) -> bool
    ensures { result ≡ list_any (λ c. has_small c.name) circuits.now }
{
    circuits.iter().any(|circuit| is_small(&circuit.name))
}

fn is_small(name: &Name) -> bool
    ensures { result ≡ has_small name.now }
{
    name.bytes().iter().any(|b| b.is_ascii_lowercase())
}

/// Whether each circuit stands behind those that it calls.
pub fn are_callees_first(n: &Netlist) -> bool
    ensures { result ≡ true → AreCalleesFirst (plain_netlist n.now) }
{
    for i in 0..n.circuits.len() {
        if calls_from(i, &n.circuits[i].calls) {
            return false;
        }
    }
    true
}

fn calls_from(c: usize, calls: &[CallRow]) -> bool
    ensures { result ≡ list_any (λ r. not (nat_lt r.circuit c)) calls.now }
{
    calls.iter().any(|call| call.circuit as usize >= c)
}

/// Whether there is one line at most.
pub fn are_apart(same: &[(Name, Name)]) -> bool
    ensures left { result ≡ true → AreApart (left_names same.now) }
    ensures right { result ≡ true → AreApart (right_names same.now) }
{
    same.len() < 2
}
