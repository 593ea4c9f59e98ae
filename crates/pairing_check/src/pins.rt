//! The pins of a pairing: whether a left net is one exactly where its image is.

ghost use Rattle.std.specs.Prelude.{◌≡◌, Decides, length};
ghost use Rattle.net_model.specs.Rows.{plain_circuit};
ghost use Rattle.pairing_check.specs.Parts.{ArePinsKept};
ghost use Rattle.match_parts.specs.Rows.{AreBelow};

use match_parts::mark;
use net_model::Circuit;

// Whether each left net is a pin exactly where its image is one.
pub fn pins_kept(
    left: &Circuit,
    right: &Circuit,
    nets: &[u32],
    left_marks: &mut [bool],
    right_marks: &mut [bool],
) -> bool
    requires count { length nets.now ≡ length left.now.nets.items }
    requires onto { AreBelow nets.now (length right_marks.old) }
    requires same { length left_marks.old ≡ length nets.now }
    ensures { Decides result (ArePinsKept (plain_circuit left.now) (plain_circuit right.now)
        nets.now) }
{
    mark(&left.pins, left_marks);
    mark(&right.pins, right_marks);
    for n in 0..nets.len() {
        if left_marks[n] != right_marks[nets[n] as usize] {
            return false;
        }
    }
    true
}
