//! Numbers of nets and circuits out of range, and calls with more or fewer nets than pins.

ghost use Rattle.std.specs.Prelude.{◌≡◌, ◌<◌, ◌^◌, length, map};
ghost use Rattle.net_model.specs.Tests.{is_out, is_bad_device, is_bad_call, has_bad_terminal};
ghost use Rattle.net_model.specs.Tests.{calls_none, is_other_count, has_other_count, first_of};
ghost use Rattle.net_model.specs.Rows.{plain_circuit, plain_call, plain_device};
ghost use Rattle.std.specs.Prelude.{slice_get};
ghost use Rattle.std.specs.List.{list_any};

use crate::netlist::{CallRow, Circuit, DeviceRow};

fn is_out(count: usize, n: u32) -> bool
    ensures { result ≡ is_out count n }
{
    n as usize >= count
}

fn has_out(count: usize, nets: &[u32]) -> bool
    ensures { result ≡ list_any (is_out count) nets.now }
{
    nets.iter().any(|n| is_out(count, *n))
}

fn is_bad_device(count: usize, d: &DeviceRow) -> bool
    ensures { result ≡ is_bad_device count (plain_device d.now) }
{
    has_out(count, d.terminal_nets())
}

fn is_bad_call(count: usize, r: &CallRow) -> bool
    ensures { result ≡ is_bad_call count (plain_call r.now) }
{
    has_out(count, &r.nets)
}

fn some_bad_device(count: usize, rows: &[DeviceRow]) -> bool
    ensures { result ≡ list_any (λ d. is_bad_device count (plain_device d)) rows.now }
{
    rows.iter().any(|d| is_bad_device(count, d))
}

fn has_bad_device(count: usize, rows: &[DeviceRow]) -> bool
    ensures { result ≡ list_any (is_bad_device count) (map plain_device rows.now) }
{
    some_bad_device(count, rows)
}

fn some_bad_call(count: usize, rows: &[CallRow]) -> bool
    ensures { result ≡ list_any (λ r. is_bad_call count (plain_call r)) rows.now }
{
    rows.iter().any(|r| is_bad_call(count, r))
}

fn has_bad_call(count: usize, rows: &[CallRow]) -> bool
    ensures { result ≡ list_any (is_bad_call count) (map plain_call rows.now) }
{
    some_bad_call(count, rows)
}

fn has_bad_terminal(c: &Circuit) -> bool
    ensures { result ≡ has_bad_terminal (plain_circuit c.now) }
{
    let count = c.nets.len();
    has_out(count, &c.pins) || has_bad_device(count, &c.devices) || has_bad_call(count, &c.calls)
}

fn some_call_of_none(count: usize, rows: &[CallRow]) -> bool
    ensures { result ≡ list_any (λ r. is_out count r.circuit) rows.now }
{
    rows.iter().any(|r| is_out(count, r.circuit))
}

fn has_call_of_none(count: usize, rows: &[CallRow]) -> bool
    ensures { result ≡ list_any (λ r. is_out count r.circuit) (map plain_call rows.now) }
{
    some_call_of_none(count, rows)
}

fn calls_none(count: usize, c: &Circuit) -> bool
    ensures { result ≡ calls_none count (plain_circuit c.now) }
{
    has_call_of_none(count, &c.calls)
}

fn is_other_count(circuits: &[Circuit], r: &CallRow) -> bool
    ensures { result
        ≡ is_other_count
        (slice_get (map plain_circuit circuits.now) r.now.circuit) (plain_call r.now) }
{
    match circuits.get(r.circuit as usize) {
        None => false,
        Some(called) => r.nets.len() != called.pins.len(),
    }
}

fn some_other_count(circuits: &[Circuit], rows: &[CallRow]) -> bool
    ensures { result ≡ list_any
        (λ r. is_other_count (slice_get (map plain_circuit circuits.now) r.circuit) (plain_call r))
        rows.now }
{
    rows.iter().any(|r| is_other_count(circuits, r))
}

fn has_other_call(circuits: &[Circuit], rows: &[CallRow]) -> bool
    ensures { result ≡ list_any
        (λ r. is_other_count (slice_get (map plain_circuit circuits.now) r.circuit) r)
        (map plain_call rows.now) }
{
    some_other_count(circuits, rows)
}

fn has_other_count(circuits: &[Circuit], c: &Circuit) -> bool
    ensures { result ≡ has_other_count (map plain_circuit circuits.now) (plain_circuit c.now) }
{
    has_other_call(circuits, &c.calls)
}

/// The first circuit with a net number that is out of range.
pub fn first_bad_terminal(circuits: &[Circuit]) -> Option<u32>
    requires { length circuits.now < 2 ^ 32 }
    ensures { result ≡ first_of has_bad_terminal (map plain_circuit circuits.now) }
{
    let mut number = 0;
    let mut rest = circuits;
    'circuits: while let [circuit, more @ ..] = rest {
        if has_bad_terminal(circuit) {
            return Some(number);
        }
        number += 1;
        rest = more;
    }
    None
}

/// The first circuit that calls no circuit.
pub fn first_missing(circuits: &[Circuit]) -> Option<u32>
    requires { length circuits.now < 2 ^ 32 }
    ensures { result
        ≡ first_of (calls_none (length circuits.now)) (map plain_circuit circuits.now) }
{
    let mut number = 0;
    let mut rest = circuits;
    'circuits: while let [circuit, more @ ..] = rest {
        if calls_none(circuits.len(), circuit) {
            return Some(number);
        }
        number += 1;
        rest = more;
    }
    None
}

/// The first circuit with a call that has another number of nets than the called circuit has pins.
pub fn first_other_count(circuits: &[Circuit]) -> Option<u32>
    requires { length circuits.now < 2 ^ 32 }
    ensures { result
        ≡ first_of
        (has_other_count (map plain_circuit circuits.now)) (map plain_circuit circuits.now) }
{
    let mut number = 0;
    let mut rest = circuits;
    'circuits: while let [circuit, more @ ..] = rest {
        if has_other_count(circuits, circuit) {
            return Some(number);
        }
        number += 1;
        rest = more;
    }
    None
}
