//! Whether a circuit as it is compared has the rows of one as it was found.

ghost use Rattle.std.specs.Prelude.{◌≡◌, ◌↔◌, true, map, slice_get};
ghost use Rattle.net_model.specs.Rows.{plain_call, plain_circuit, plain_device};
ghost use Rattle.plain_netlist.specs.Devices.{terminal_nets};
ghost use Rattle.view_labels.specs.Same.{AreSameCalls, AreSameRows, IsSameCall};

use fixed_num::Femto;
use net_model::{CallRow, Circuit, DeviceRow};
use net_names::Name;

fn same_sizes(some: [Femto; 2], others: [Femto; 2]) -> bool
    ensures { (result ≡ true)
        ↔ (map (λ (f : Femto). f.0) some ≡ map (λ (f : Femto). f.0) others) }
{
    some[0].0 == others[0].0 && some[1].0 == others[1].0
}

// Whether two devices have the same nets at their terminals, where they are of one kind.
fn same_nets_of(a: &DeviceRow, b: &DeviceRow) -> bool
    ensures { (result ≡ true)
        ↔ (terminal_nets (plain_device a.now) ≡ terminal_nets (plain_device b.now)) }
{
    a.terminal_nets() == b.terminal_nets()
}

fn is_same_device(a: &DeviceRow, b: &DeviceRow) -> bool
    ensures { (result ≡ true) ↔ (plain_device a.now ≡ plain_device b.now) }
{
    if !a.kind.is(b.kind) || a.class != b.class {
        return false;
    }
    same_sizes(a.sizes, b.sizes) && same_nets_of(a, b)
}

/// Whether these are the same devices. Linear in them.
pub fn same_devices(some: &[DeviceRow], others: &[DeviceRow]) -> bool
    ensures { (result ≡ true) ↔ (map plain_device some.now ≡ map plain_device others.now) }
{
    let mut rest = some;
    let mut behind = others;
    'devices: while let [a, more @ ..] = rest {
        let [b, later @ ..] = behind else {
            return false;
        };
        if !is_same_device(a, b) {
            return false;
        }
        rest = more;
        behind = later;
    }
    behind.is_empty()
}

// The number by which a circuit is found; none past the last.
fn shown_at(shown: &[u32], k: u32) -> Option<u32>
    ensures { result ≡ slice_get shown.now k }
{
    match shown.get(k as usize) {
        Some(n) => Some(*n),
        None => None,
    }
}

// Whether a call's circuit is found by the number that another one calls, and their nets are the
// same.
fn is_same_call(shown: &[u32], a: &CallRow, b: &CallRow) -> bool
    ensures { (result ≡ true) ↔ IsSameCall shown.now (plain_call a.now) (plain_call b.now) }
{
    let found = shown_at(shown, a.circuit);
    found == Some(b.circuit) && a.nets.as_slice() == b.nets.as_slice()
}

fn same_calls(shown: &[u32], some: &[CallRow], others: &[CallRow]) -> bool
    ensures { (result ≡ true) ↔ AreSameCalls shown.now (map plain_call some.now)
        (map plain_call others.now) }
{
    let mut rest = some;
    let mut behind = others;
    'calls: while let [a, more @ ..] = rest {
        let [b, later @ ..] = behind else {
            return false;
        };
        if !is_same_call(shown, a, b) {
            return false;
        }
        rest = more;
        behind = later;
    }
    behind.is_empty()
}

fn is_same_name(a: &Name, b: &Name) -> bool
    ensures { (result ≡ true) ↔ (a.now ≡ b.now) }
{
    a == b
}

fn same_names(some: &[Name], others: &[Name]) -> bool
    ensures { (result ≡ true) ↔ (some.now ≡ others.now) }
{
    let mut rest = some;
    let mut behind = others;
    'names: while let [a, more @ ..] = rest {
        let [b, later @ ..] = behind else {
            return false;
        };
        if !is_same_name(a, b) {
            return false;
        }
        rest = more;
        behind = later;
    }
    behind.is_empty()
}

fn same_nets(some: &Circuit, other: &Circuit) -> bool
    ensures { (result ≡ true) ↔ ((plain_circuit some.now).nets ≡ (plain_circuit other.now).nets) }
{
    same_names(&some.nets, &other.nets)
}

fn same_call_rows(shown: &[u32], some: &Circuit, other: &Circuit) -> bool
    ensures { (result ≡ true) ↔ AreSameCalls shown.now (plain_circuit some.now).calls
        (plain_circuit other.now).calls }
{
    same_calls(shown, &some.calls, &other.calls)
}

/// Whether the nets of a circuit have the names of another one's, and its calls are the same, where
/// each circuit is found by a number. Linear in both.
pub fn same_rows(shown: &[u32], some: &Circuit, other: &Circuit) -> bool
    ensures { (result ≡ true) ↔ AreSameRows shown.now (plain_circuit some.now)
        (plain_circuit other.now) }
{
    same_nets(some, other) && same_call_rows(shown, some, other)
}
