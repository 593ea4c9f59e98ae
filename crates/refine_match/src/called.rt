//! The first called pair that isn't matched.

ghost use Rattle.std.specs.Prelude.{IfSome, IsNone};
ghost use Rattle.net_model.specs.declared.netlist.Circuit.{Circuit};
ghost use Rattle.match_laws.specs.Circuits.{AreMatched};
ghost use Rattle.match_laws.specs.Answer.{IsFirstUnmatched};
ghost use Rattle.match_types.specs.Plain.{pair_of};

use match_types::ChildPins;
use net_model::Circuit;

/// The pair of the first call of the left circuit whose pair isn't matched, if there is one.
pub fn first_unmatched(left: &Circuit, children: &ChildPins) -> Option<u32>
    ensures some { IfSome result (λ pair. (right : Circuit)
        → IsFirstUnmatched (pair_of left.now right children.now) pair) }
    ensures none { IsNone result → (right : Circuit)
        → AreMatched (pair_of left.now right children.now) }
{
    for k in 0..left.calls.len() {
        let pair = left.calls[k].circuit;
        if children.get(pair).is_none() {
            return Some(pair);
        }
    }
    None
}
