//! The names of pins: whether each is that of the pin's image.

ghost use Rattle.std.specs.Prelude.{◌≡◌, Decides, length};
ghost use Rattle.match_parts.specs.Rows.{AreBelow};
ghost use Rattle.net_model.specs.Rows.{plain_circuit};
ghost use Rattle.net_names.specs.Folding.{folded_byte, folded_bytes};
ghost use Rattle.pairing_check.specs.Parts.{AreNamesKept, ArePinsKept};

use match_parts::mark;
use net_model::Circuit;

// A small letter made a large one.
fn capital(b: u8) -> u8
    ensures { result ≡ folded_byte b }
{
    match b {
        b'a'..=b'z' => b - 32,
        _ => b,
    }
}

// Whether both are one name, small letters being large ones.
fn is_one_name(one: &[u8], other: &[u8]) -> bool
    ensures { Decides result (folded_bytes one.now ≡ folded_bytes other.now) }
{
    if one.len() != other.len() {
        return false;
    }
    for k in 0..one.len() {
        if capital(one[k]) != capital(other[k]) {
            return false;
        }
    }
    true
}

// Whether each left pin goes to one of its name, where names tell pins apart.
pub fn names_kept(
    left: &Circuit,
    right: &Circuit,
    told: bool,
    nets: &[u32],
    left_marks: &mut [bool],
) -> bool
    requires count { length nets.now ≡ length left.now.nets.items }
    requires onto { AreBelow nets.now (length right.now.nets.items) }
    requires same { length left_marks.old ≡ length nets.now }
    requires pins { ArePinsKept (plain_circuit left.now) (plain_circuit right.now) nets.now }
    ensures { Decides result (AreNamesKept told (plain_circuit left.now) (plain_circuit right.now)
        nets.now) }
{
    if !told {
        return true;
    }
    mark(&left.pins, left_marks);
    for n in 0..nets.len() {
        let image = nets[n] as usize;
        if left_marks[n] && !is_one_name(left.nets[n].bytes(), right.nets[image].bytes()) {
            return false;
        }
    }
    true
}
