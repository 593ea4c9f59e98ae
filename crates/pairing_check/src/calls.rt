//! The calls of a pairing: whether each left one goes to its image.

ghost use Rattle.std.specs.Prelude.{◌≡◌, Decides, length};
ghost use Rattle.net_model.specs.Rows.{plain_circuit, plain_call};
ghost use Rattle.match_types.specs.Children.{children_of};
ghost use Rattle.match_laws.specs.Circuits.{IsCallImage};
ghost use Rattle.pairing_check.specs.Parts.{AreCallImages, HasImagePins};
ghost use Rattle.match_parts.specs.Rows.{AreBelow, AreCallPins, AreCallsOn, ArePinsOf};

use match_types::ChildPins;
use net_model::{CallRow, Circuit};

// Whether each left call goes to its image.
pub fn calls_kept(
    left: &Circuit,
    right: &Circuit,
    children: &ChildPins,
    nets: &[u32],
    calls: &[u32],
) -> bool
    requires nets { AreCallsOn (plain_circuit left.now) (length nets.now) }
    requires pins { ArePinsOf (plain_circuit left.now) (children_of children.now) }
    requires count { length calls.now ≡ length left.now.calls.items }
    requires onto { AreBelow calls.now (length right.now.calls.items) }
    ensures { Decides result (AreCallImages (children_of children.now) (plain_circuit left.now)
        (plain_circuit right.now) nets.now calls.now) }
{
    for k in 0..calls.len() {
        let image = &right.calls[calls[k] as usize];
        if !is_call_image(children, nets, &left.calls[k], image) {
            return false;
        }
    }
    true
}

// Whether the right call is the image of the left one.
fn is_call_image(children: &ChildPins, nets: &[u32], left: &CallRow, right: &CallRow) -> bool
    requires nets { AreBelow left.now.nets.items (length nets.now) }
    requires pins { AreCallPins (children_of children.now) (plain_call left.now) }
    ensures { Decides result (IsCallImage (children_of children.now) nets.now (plain_call left.now)
        (plain_call right.now)) }
{
    if left.circuit != right.circuit || left.nets.len() != right.nets.len() {
        return false;
    }
    match children.get(left.circuit) {
        Some(pins) => pins_go_to_pins(nets, pins, &left.nets, &right.nets),
        None => false,
    }
}

// Whether the net at each left pin goes to the net at its right pin.
fn pins_go_to_pins(nets: &[u32], pins: &[u32], left: &[u32], right: &[u32]) -> bool
    requires nets { AreBelow left.now (length nets.now) }
    requires count { length pins.now ≡ length left.now }
    requires right { AreBelow pins.now (length right.now) }
    ensures { Decides result (HasImagePins nets.now pins.now left.now right.now) }
{
    for i in 0..left.len() {
        if nets[left[i] as usize] != right[pins[i] as usize] {
            return false;
        }
    }
    true
}
