//! Which nodes are of one kind.

ghost use Rattle.std.specs.Prelude.{◌≡◌, false, IfOk, get_or, length, map, slice_get};
ghost use Rattle.std.specs.Option.{option_map};
ghost use Rattle.match_parts.specs.Marks.{AreMarked};
ghost use Rattle.net_model.specs.Rows.{plain_call, plain_circuit, plain_device};
ghost use Rattle.view_pairs.specs.Alike.{both, is_alike, marks_of, pin_marks, same_class};
ghost use Rattle.view_pairs.specs.Alike.{same_pair};
ghost use Rattle.view_pairs.specs.Partners.{meets};

use crate::partners::Partners;
use match_parts::mark;
use net_model::{CallRow, Circuit, DeviceRow};
use std::alloc::{AllocError, Global};
use view_cross::Kind;

fn listed_marks(alloc: Global, count: usize, numbers: &[u32]) -> Result<Vec<bool>, AllocError>
    ensures count { IfOk result (λ marks. length marks.items ≡ count) }
    ensures marked { IfOk result (λ marks. AreMarked numbers.now marks.items) }
{
    let mut marks = vec![in alloc; false; count]?;
    mark(numbers, &mut marks);
    Ok(marks)
}

/// For each of so many numbers whether it is listed. Linear in both.
pub fn marks_of(alloc: Global, count: usize, numbers: &[u32]) -> Result<Vec<bool>, AllocError>
    ensures { IfOk result (λ marks. marks.items ≡ marks_of count numbers.now) }
{
    let marks = listed_marks(alloc, count, numbers)?;
    Ok(marks)
}

/// The mark of a number, false past the last.
pub fn mark_at(marks: &[bool], k: u32) -> bool
    ensures { result ≡ get_or marks.now k false }
{
    match marks.get(k as usize) {
        Some(mark) => *mark,
        None => false,
    }
}

/// A number of a list, where it has one there.
pub fn number_at(numbers: &[u32], k: u32) -> Option<u32>
    ensures { result ≡ slice_get numbers.now k }
{
    match numbers.get(k as usize) {
        Some(number) => Some(*number),
        None => None,
    }
}

/// A device of a list.
pub fn device_at(devices: &[DeviceRow], k: u32) -> Option<&DeviceRow>
    ensures { option_map (λ d. plain_device d.now) result
        ≡ slice_get (map plain_device devices.now) k }
{
    match devices.get(k as usize) {
        Some(device) => Some(device),
        None => None,
    }
}

/// A call of a list.
pub fn call_at(calls: &[CallRow], k: u32) -> Option<&CallRow>
    ensures { option_map (λ c. plain_call c.now) result ≡ slice_get (map plain_call calls.now) k }
{
    match calls.get(k as usize) {
        Some(call) => Some(call),
        None => None,
    }
}

fn are_on_partners(nets: &Partners, n: Option<u32>, m: Option<u32>) -> bool
    ensures { result ≡ both (meets nets.now) n m }
{
    match n {
        Some(left) => match m {
            Some(right) => nets.meet(left, right),
            None => false,
        },
        None => false,
    }
}

fn are_one_class(d: Option<&DeviceRow>, e: Option<&DeviceRow>) -> bool
    ensures { result ≡ both same_class (option_map (λ x. plain_device x.now) d.entry)
        (option_map (λ x. plain_device x.now) e.entry) }
{
    match d {
        Some(left) => match e {
            Some(right) => left.kind.is(right.kind) && left.class == right.class,
            None => false,
        },
        None => false,
    }
}

fn are_one_pair(c: Option<&CallRow>, e: Option<&CallRow>) -> bool
    ensures { result ≡ both same_pair (option_map (λ x. plain_call x.now) c.entry)
        (option_map (λ x. plain_call x.now) e.entry) }
{
    match c {
        Some(left) => match e {
            Some(right) => left.circuit == right.circuit,
            None => false,
        },
        None => false,
    }
}

/// Two circuits, and which of their nets are pins.
#[derive(Drop)]
pub struct Sides<'a> {
    pub left: &'a Circuit,
    pub right: &'a Circuit,
    pub left_pins: Vec<bool>,
    pub right_pins: Vec<bool>,
}

/// The circuits with the marks of their pins. Linear in their nets and pins.
pub fn sides_of<'a>(
    alloc: Global,
    left: &'a Circuit,
    right: &'a Circuit,
) -> Result<Sides<'a>, AllocError>
    ensures left { IfOk result (λ s. s.left.now ≡ left.now) }
    ensures right { IfOk result (λ s. s.right.now ≡ right.now) }
    ensures left_pins { IfOk result (λ s. s.left_pins.items ≡ pin_marks (plain_circuit left.now)) }
    ensures right_pins { IfOk result (λ s. s.right_pins.items
        ≡ pin_marks (plain_circuit right.now)) }
{
    let left_pins = marks_of(alloc, left.nets.len(), &left.pins)?;
    let right_pins = marks_of(alloc, right.nets.len(), &right.pins)?;
    Ok(Sides {
        left,
        right,
        left_pins,
        right_pins,
    })
}

/// Whether two nodes may be partners, the nets having these. Constant time, but for the names of
/// classes.
pub fn is_alike(sides: &Sides<'_>, nets: &Partners, kind: Kind, k: u32, m: u32) -> bool
    requires left_pins { sides.now.left_pins.items ≡ pin_marks (plain_circuit sides.now.left.now) }
    requires right_pins { sides.now.right_pins.items
        ≡ pin_marks (plain_circuit sides.now.right.now) }
    ensures { result ≡ is_alike (plain_circuit sides.now.left.now)
        (plain_circuit sides.now.right.now) nets.now kind k m }
{
    match kind {
        Kind::Net => mark_at(&sides.left_pins, k) == mark_at(&sides.right_pins, m),
        Kind::Pin => {
            let left = number_at(&sides.left.pins, k);
            are_on_partners(nets, left, number_at(&sides.right.pins, m))
        }
        Kind::Device => {
            let left = device_at(&sides.left.devices, k);
            are_one_class(left, device_at(&sides.right.devices, m))
        }
        Kind::Call => {
            let left = call_at(&sides.left.calls, k);
            are_one_pair(left, call_at(&sides.right.calls, m))
        }
    }
}
