//! Circuits in an order of calls, or what is first wrong with them as a whole.

ghost use Rattle.std.specs.Prelude.{◌≡◌, ◌<◌, ◌^◌, IfOk, IfErr, length, map, OnOk};
ghost use Rattle.call_order.specs.Order.{IsCallOrder, lists};
ghost use Rattle.spice_text.specs.Circuits.{call_lists, names_of};
ghost use Rattle.spice_text.specs.Faults.{AreOrdered, HasCall, IsCircuitsFault, IsSecond};
ghost use Rattle.spice_text.specs.Faults.{IsWholeFault, Lacks, is_missing, is_other_count};
ghost use Rattle.spice_text.specs.Ordered.{IsOrdered};
ghost use Rattle.spice_text.specs.Gather.{closed};
ghost use Rattle.spice_text.specs.Seen.{circuit_seen, some_circuit, cards_seen};

use crate::calls::call_lists;
use crate::faults::{circuit_names, first_missing, first_other_count};
use crate::gather::{CircuitCards, Gathered};
use call_order::{CallOrder, call_order};
use list_base::number;
use net_names::Name;
use spice_rows::SpiceFault;
use std::alloc::{AllocError, Global};
use text_table::TextTable;

/// Circuits, whose calls fit, with an order of them in which each stands behind those that it
/// calls. `names` has the circuits' names, and `calls` the numbers of those that each calls.
#[derive(Drop)]
pub struct OrderedCards {
    pub circuits: Vec<CircuitCards>,
    pub globals: Vec<Name>,
    pub names: TextTable,
    pub calls: Vec<Vec<u32>>,
    pub order: Vec<u32>,
}

// All circuits, that of the cards outside last.
fn all_of(
    circuits: Vec<CircuitCards>,
    outside: Option<CircuitCards>,
) -> Result<Vec<CircuitCards>, AllocError>
    ensures { IfOk result (λ all. map circuit_seen all.items
        ≡ closed (map circuit_seen circuits.items) (some_circuit outside)) }
{
    let mut all = circuits;
    if let Some(top) = outside {
        all.push(top)?;
    }
    Ok(all)
}

/// The circuits of a text's cards in an order of calls, or what is first wrong with them as a
/// whole: a circuit that doesn't end, a second circuit of a name, a call of no circuit, a call
/// with another number of nets than pins, a circuit that calls itself. Linear in the cards.
pub fn order_cards(alloc: Global, all: Gathered) -> Result<OrderedCards, SpiceFault>
    ensures ordered { IfOk result (IsOrdered (cards_seen all)) }
    ensures fault { IfErr result (IsWholeFault (cards_seen all)) }
{
    if let Some(open) = &all.open_one {
        return Err(SpiceFault::NotClosed(open.line));
    }
    let circuits = all_of(all.circuits, all.outside)?;
    match ordered(alloc, &circuits) {
        Ok((names, calls, order)) => Ok(OrderedCards {
            circuits,
            globals: all.globals,
            names,
            calls,
            order,
        }),
        Err(e) => Err(e),
    }
}

// Whether each call is of a circuit, with as many nets as that has pins.
fn check_calls(names: &TextTable, circuits: &[CircuitCards]) -> Result<(), SpiceFault>
    requires names { names.now ≡ names_of (map circuit_seen circuits.now) }
    requires apart { Lacks (IsSecond (map circuit_seen circuits.now)) }
    ensures called { OnOk result (Lacks (HasCall (map circuit_seen circuits.now)
        (is_missing (map circuit_seen circuits.now)))) }
    ensures counts { OnOk result (Lacks (HasCall (map circuit_seen circuits.now)
        (is_other_count (map circuit_seen circuits.now)))) }
    ensures fault { IfErr result (IsCircuitsFault (map circuit_seen circuits.now)) }
{
    if let Some(line) = first_missing(names, circuits) {
        return Err(SpiceFault::NoSuchCircuit(line));
    }
    if let Some(line) = first_other_count(names, circuits) {
        return Err(SpiceFault::PinCount(line));
    }
    Ok(())
}

// An order of circuits with these calls, or the first that calls itself.
fn circuit_order(
    alloc: Global,
    circuits: &[CircuitCards],
    calls: &[Vec<u32>],
) -> Result<Vec<u32>, SpiceFault>
    requires few { length circuits.now < 2 ^ 32 }
    requires calls { lists calls.now ≡ call_lists (map circuit_seen circuits.now) }
    requires apart { Lacks (IsSecond (map circuit_seen circuits.now)) }
    requires called { Lacks (HasCall (map circuit_seen circuits.now)
        (is_missing (map circuit_seen circuits.now))) }
    requires counts { Lacks (HasCall (map circuit_seen circuits.now)
        (is_other_count (map circuit_seen circuits.now))) }
    ensures ordered { IfOk result (λ order.
        IsCallOrder (call_lists (map circuit_seen circuits.now)) order.items) }
    ensures fault { IfErr result (IsCircuitsFault (map circuit_seen circuits.now)) }
{
    match call_order(alloc, calls)? {
        CallOrder::CalleesFirst(order) => Ok(order),
        CallOrder::Cycle(k) => {
            let name = circuits[k as usize].name.try_clone(alloc)?;
            Err(SpiceFault::CircuitCycle(name))
        }
    }
}

// The calls of circuits of these names, and an order of them.
fn ordered_calls(
    alloc: Global,
    names: &TextTable,
    circuits: &[CircuitCards],
) -> Result<(Vec<Vec<u32>>, Vec<u32>), SpiceFault>
    requires names { names.now ≡ names_of (map circuit_seen circuits.now) }
    requires apart { Lacks (IsSecond (map circuit_seen circuits.now)) }
    ensures ordered { IfOk result (λ r. AreOrdered (map circuit_seen circuits.now)
        names.now (lists r.0.items) r.1.items) }
    ensures fault { IfErr result (IsCircuitsFault (map circuit_seen circuits.now)) }
{
    check_calls(names, circuits)?;
    number(circuits.len())?;
    let calls = call_lists(alloc, names, circuits)?;
    let order = circuit_order(alloc, circuits, &calls)?;
    Ok((calls, order))
}

fn ordered(
    alloc: Global,
    circuits: &[CircuitCards],
) -> Result<(TextTable, Vec<Vec<u32>>, Vec<u32>), SpiceFault>
    ensures ordered { IfOk result (λ r. AreOrdered (map circuit_seen circuits.now)
        r.0 (lists r.1.items) r.2.items) }
    ensures fault { IfErr result (IsCircuitsFault (map circuit_seen circuits.now)) }
{
    let names = circuit_names(alloc, circuits)?;
    let found = ordered_calls(alloc, &names, circuits)?;
    let (calls, order) = found;
    Ok((names, calls, order))
}
