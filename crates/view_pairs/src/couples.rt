//! Couples of one kind.

ghost use Rattle.std.specs.Prelude.{◌≡◌, IfOk};
ghost use Rattle.std.specs.List.{filter};
ghost use Rattle.net_model.specs.Rows.{plain_circuit};
ghost use Rattle.view_pairs.specs.Alike.{pin_marks};
ghost use Rattle.view_pairs.specs.Partners.{ArePartners};
ghost use Rattle.view_pairs.specs.Proposals.{AreAlike, is_alike_couple};
ghost use Rattle.view_pairs.specs.Wanted.{TakesAlike};

use crate::alike::{Sides, is_alike};
use crate::partners::{Couple, Partners, claimed};
use std::alloc::{AllocError, Global};
use view_cross::Kind;

// Those of the couples that are of one kind.
fn alike_couples(
    alloc: Global,
    sides: &Sides<'_>,
    nets: &Partners,
    kind: Kind,
    couples: &[Couple],
) -> Result<Vec<Couple>, AllocError>
    requires left_pins { sides.now.left_pins.items ≡ pin_marks (plain_circuit sides.now.left.now) }
    requires right_pins { sides.now.right_pins.items
        ≡ pin_marks (plain_circuit sides.now.right.now) }
    ensures { IfOk result (λ found. found.items ≡ filter (is_alike_couple
        (plain_circuit sides.now.left.now) (plain_circuit sides.now.right.now) nets.now kind)
        couples.now) }
{
    let mut found = Vec::new(alloc);
    let mut rest = couples;
    'couples: while let [couple, more @ ..] = rest {
        if is_alike(sides, nets, kind, couple.left, couple.right.number) {
            found.push(*couple)?;
        }
        rest = more;
    }
    Ok(found)
}

/// The partners among so many nodes of a kind, the nets having these: of the couples that are of
/// one kind, in order, each whose nodes have no partner yet. Linear.
pub fn partners_of(
    alloc: Global,
    sides: &Sides<'_>,
    nets: &Partners,
    kind: Kind,
    lefts: usize,
    rights: usize,
    couples: &[Couple],
) -> Result<Partners, AllocError>
    requires left_pins { sides.now.left_pins.items ≡ pin_marks (plain_circuit sides.now.left.now) }
    requires right_pins { sides.now.right_pins.items
        ≡ pin_marks (plain_circuit sides.now.right.now) }
    ensures partners { IfOk result (λ x. ArePartners lefts rights x) }
    ensures alike { IfOk result (λ x. AreAlike (plain_circuit sides.now.left.now)
        (plain_circuit sides.now.right.now) nets.now kind x) }
    ensures first { IfOk result (λ x. TakesAlike (plain_circuit sides.now.left.now)
        (plain_circuit sides.now.right.now) nets.now kind lefts rights couples.now x) }
{
    let alike = alike_couples(alloc, sides, nets, kind, couples)?;
    let found = claimed(alloc, lefts, rights, &alike)?;
    Ok(found)
}
