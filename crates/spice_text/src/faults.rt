//! What can be wrong with the circuits of a text: names twice, calls that don't fit.

ghost use Rattle.std.specs.Prelude.{◌≡◌, [], None, map, IfOk, IfErr, OnOk};
ghost use Rattle.spice_rows.specs.Seen.{call_seen};
ghost use Rattle.spice_text.specs.Circuits.{names_of};
ghost use Rattle.spice_text.specs.Faults.{HasCall, IsSecond, is_missing, is_other_count, Lacks};
ghost use Rattle.spice_text.specs.Faults.{FindsLeast, IsCircuitsFault};
ghost use Rattle.spice_text.specs.Search.{first_twice, least_in, least_in_all, test_of, SaysClash};
ghost use Rattle.spice_text.specs.Search.{lesser};
ghost use Rattle.spice_text.specs.Seen.{circuit_seen};

use crate::gather::CircuitCards;
use spice_rows::{CallCard, SpiceFault};
use std::alloc::Global;
use text_table::TextTable;

/// What can be wrong with a call: its circuit isn't there, or has another number of pins.
#[derive(Clone, Copy, Debug)]
enum CallFault {
    Missing,
    OtherCount,
}

/// The names of the circuits by their numbers, or that one stands twice. Linear in the names.
pub fn circuit_names(alloc: Global, circuits: &[CircuitCards]) -> Result<TextTable, SpiceFault>
    ensures names { IfOk result (λ names. names ≡ names_of (map circuit_seen circuits.now)) }
    ensures apart { OnOk result (Lacks (IsSecond (map circuit_seen circuits.now))) }
    ensures clash { IfErr result (IsCircuitsFault (map circuit_seen circuits.now)) }
{
    known_names(alloc, circuits)
}

fn known_names(alloc: Global, circuits: &[CircuitCards]) -> Result<TextTable, SpiceFault>
    ensures names { IfOk result (λ names. names ≡ names_of (map circuit_seen circuits.now)) }
    ensures apart { OnOk result (first_twice [] (map circuit_seen circuits.now) ≡ None) }
    ensures clash { IfErr result (SaysClash (first_twice [] (map circuit_seen circuits.now))) }
{
    let mut names = TextTable::new(alloc);
    let mut rest = circuits;
    'circuits: while let [circuit, more @ ..] = rest {
        if names.contains(circuit.name.bytes()) {
            return Err(SpiceFault::NameClash(circuit.line));
        }
        names.add(alloc, circuit.name.bytes())?;
        rest = more;
    }
    Ok(names)
}

fn is_bad(names: &TextTable, circuits: &[CircuitCards], fault: CallFault, call: &CallCard) -> bool
    requires { names.now ≡ names_of (map circuit_seen circuits.now) }
    ensures { result ≡ test_of (map circuit_seen circuits.now) fault (call_seen call.now) }
{
    match fault {
        CallFault::Missing => !names.contains(call.circuit.bytes()),
        CallFault::OtherCount => match circuits.get(names.place(call.circuit.bytes())) {
            None => false,
            Some(called) => call.nets.len() != called.pins.len(),
        },
    }
}

fn lesser(line: Option<u64>, other: u64) -> Option<u64>
    ensures { result ≡ lesser line other }
{
    match line {
        None => Some(other),
        Some(line) => Some(if other < line { other } else { line }),
    }
}

// The least line of such calls and of a line found before.
fn least_in(
    names: &TextTable,
    circuits: &[CircuitCards],
    fault: CallFault,
    calls: &[CallCard],
    found: Option<u64>,
) -> Option<u64>
    requires { names.now ≡ names_of (map circuit_seen circuits.now) }
    ensures { result
        ≡ least_in (test_of (map circuit_seen circuits.now) fault) found (map call_seen calls.now) }
{
    let mut line = found;
    let mut rest = calls;
    'calls: while let [call, more @ ..] = rest {
        if is_bad(names, circuits, fault, call) {
            line = lesser(line, call.line);
        }
        rest = more;
    }
    line
}

/// The least line of a call of no circuit.
pub fn first_missing(names: &TextTable, circuits: &[CircuitCards]) -> Option<u64>
    requires { names.now ≡ names_of (map circuit_seen circuits.now) }
    ensures { FindsLeast
        (HasCall (map circuit_seen circuits.now) (is_missing (map circuit_seen circuits.now)))
        result }
{
    least_line(names, circuits, CallFault::Missing)
}

/// The least line of a call with another number of nets than the called circuit lists pins.
pub fn first_other_count(names: &TextTable, circuits: &[CircuitCards]) -> Option<u64>
    requires { names.now ≡ names_of (map circuit_seen circuits.now) }
    ensures { FindsLeast
        (HasCall (map circuit_seen circuits.now) (is_other_count (map circuit_seen circuits.now)))
        result }
{
    least_line(names, circuits, CallFault::OtherCount)
}

// The least line of a call with this fault.
fn least_line(names: &TextTable, circuits: &[CircuitCards], fault: CallFault) -> Option<u64>
    requires { names.now ≡ names_of (map circuit_seen circuits.now) }
    ensures { result
        ≡ least_in_all (test_of (map circuit_seen circuits.now) fault) None
        (map circuit_seen circuits.now) }
{
    let mut line = None;
    let mut rest = circuits;
    'circuits: while let [circuit, more @ ..] = rest {
        line = least_in(names, circuits, fault, &circuit.calls, line);
        rest = more;
    }
    line
}
