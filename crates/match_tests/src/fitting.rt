//! Circuits that fit and are compared, and pairings that are checked.

ghost use Rattle.std.specs.Prelude.{◌≡◌, ◌<◌, ◌↔◌, IfOk, length, true};
ghost use Rattle.match_laws.specs.Circuits.{IsOneToOne};
ghost use Rattle.match_parts.specs.Rows.{AreBelow, AreCallPins, AreTerminalsBelow};
ghost use Rattle.match_types.specs.Children.{children_of};
ghost use Rattle.net_model.specs.Rows.{plain_call, plain_circuit, plain_device};
ghost use Rattle.match_tests.specs.Fitting.{AreCallsFit, AreDevicesFit, IsFit};

use match_parts::is_one_to_one;
use match_types::{Answer, ChildPins, Pairing};
use net_model::{CallRow, Circuit, DeviceRow};
use pairing_check::{Marks, check_pairing};
use refine_match::match_circuits;
use std::alloc::{AllocError, Global};

// The answer of two circuits that fit, and of no others.
pub fn compare(
    alloc: Global,
    left: &Circuit,
    right: &Circuit,
    children: &ChildPins,
    limit: u32,
) -> Result<Option<Answer>, AllocError> {
    if fits(alloc, left, children)? && fits(alloc, right, children)? {
        let answer = match_circuits(alloc, left, right, children, limit)?;
        return Ok(Some(answer));
    }
    Ok(None)
}

// Whether nets of transistors and calls are nets, and the list of each called pair is one to one.
pub fn fits(alloc: Global, circuit: &Circuit, children: &ChildPins) -> Result<bool, AllocError>
    ensures { IfOk result (λ good. good ≡ true
        → IsFit (plain_circuit circuit.now) (children_of children.now)) }
{
    if !devices_fit(circuit) {
        return Ok(false);
    }
    calls_fit(alloc, circuit, children)
}

fn devices_fit(circuit: &Circuit) -> bool
    ensures { result ≡ true → AreDevicesFit circuit.now (length circuit.now.devices.items) }
{
    for k in 0..circuit.devices.len() {
        if !device_fits(&circuit.devices[k], circuit.nets.len()) {
            return false;
        }
    }
    true
}

fn device_fits(device: &DeviceRow, count: usize) -> bool
    ensures { result ≡ true → AreTerminalsBelow (plain_device device.now) count }
{
    are_below(device.terminal_nets(), count)
}

fn calls_fit(alloc: Global, circuit: &Circuit, children: &ChildPins) -> Result<bool, AllocError>
    ensures { IfOk result (λ good. good ≡ true
        → AreCallsFit circuit.now (children_of children.now) (length circuit.now.calls.items)) }
{
    for k in 0..circuit.calls.len() {
        let call = &circuit.calls[k];
        if !are_below(&call.nets, circuit.nets.len()) {
            return Ok(false);
        }
        if !pins_fit(alloc, call, children)? {
            return Ok(false);
        }
    }
    Ok(true)
}

fn are_below(numbers: &[u32], count: usize) -> bool
    ensures { result ≡ true → AreBelow numbers.now count }
{
    for i in 0..numbers.len() {
        if numbers[i] as usize >= count {
            return false;
        }
    }
    true
}

fn pins_fit(alloc: Global, call: &CallRow, children: &ChildPins) -> Result<bool, AllocError>
    ensures { IfOk result (λ good. good ≡ true
        → AreCallPins (children_of children.now) (plain_call call.now)) }
{
    match children.get(call.circuit) {
        None => Ok(true),
        Some(pins) => {
            let mut marks = vec![in alloc; false; call.nets.len()]?;
            if pins.len() != call.nets.len() {
                return Ok(false);
            }
            Ok(is_one_to_one(pins, &mut marks))
        }
    }
}

// Whether a pairing is a correspondence of two circuits that fit and call none.
pub fn is_match(
    alloc: Global,
    left: &Circuit,
    right: &Circuit,
    pairing: &Pairing,
) -> Result<bool, AllocError> {
    let none = ChildPins::new(alloc, false);
    if !fits(alloc, left, &none)? || !fits(alloc, right, &none)? {
        return Ok(false);
    }
    let mut marks = Marks::new(alloc, right)?;
    Ok(check_pairing(left, right, &none, pairing, &mut marks))
}
