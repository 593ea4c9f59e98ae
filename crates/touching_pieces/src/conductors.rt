//! Pieces of several conductors, some of which are joined.

ghost use Rattle.std.specs.Prelude.{◌≡◌, ◌≢◌, OnOk, IfOk};
ghost use Rattle.touching_pieces.specs.Pairs.{AddsChains, AreInTouch, AreInTouchOf, AreLinksOf};
ghost use Rattle.touching_pieces.specs.Pairs.{AreOf, of_conductor};

use crate::pairs::{own_chains, touching_chains};
use crate::pieces::Piece;
use link_classes::Link;
use std::alloc::{AllocError, Global};

/// Two conductors whose touching pieces are joined.
#[derive(Clone, Copy, Debug, PartialEq, Eq)]
pub struct Joined {
    pub first: u32,
    pub second: u32,
}

fn of_conductor(alloc: Global, pieces: &[Piece], conductor: u32) -> Result<Vec<Piece>, AllocError>
    ensures { IfOk result (λ v. v.items ≡ of_conductor conductor pieces.now) }
{
    pieces
        .iter()
        .filter(|p| p.conductor == conductor)
        .copied()
        .collect(alloc)
}

// Links the pieces of a conductor with those that the line joins to it.
fn link_line(
    alloc: Global,
    own: &[Piece],
    pieces: &[Piece],
    conductor: u32,
    line: &Joined,
    out: &mut Vec<Link>,
) -> Result<(), AllocError>
    requires { own.now ≡ of_conductor conductor pieces.now }
    ensures line { OnOk result (line.now.first ≡ conductor
        → AddsChains (AreInTouch (of_conductor conductor pieces.now)
        (of_conductor line.now.second pieces.now)) out.old.items out.new.items) }
    ensures other { OnOk result (line.now.first ≢ conductor → out.new.items ≡ out.old.items) }
{
    if line.first != conductor {
        return Ok(());
    }
    let others = of_conductor(alloc, pieces, line.second)?;
    touching_chains(alloc, own, &others, out)?;
    Ok(())
}

// Links the pieces of one conductor with each other, and with those of the conductors that lines
// join to it.
fn link_conductor(
    alloc: Global,
    pieces: &[Piece],
    conductor: u32,
    joins: &[Joined],
    out: &mut Vec<Link>,
) -> Result<(), AllocError>
    ensures { OnOk result (AddsChains (AreInTouchOf joins.now pieces.now conductor) out.old.items
        out.new.items) }
{
    let own = of_conductor(alloc, pieces, conductor)?;
    if own.is_empty() {
        return Ok(());
    }
    own_chains(alloc, &own, out)?;
    for join in joins {
        link_line(alloc, &own, pieces, conductor, join, out)?;
    }
    Ok(())
}

/// Links whose chains join each two items that have touching pieces of one conductor or of two that
/// a line joins. Each link is of two such items.
///
/// Takes a pass over the pieces for each conductor, and for each line from one that has pieces,
/// beside what `touching_chains` takes. One piece by itself costs nothing.
pub fn touching_links(
    alloc: Global,
    pieces: &[Piece],
    conductors: u32,
    joins: &[Joined],
) -> Result<Vec<Link>, AllocError>
    requires { AreOf conductors pieces.now }
    ensures { IfOk result (λ v. AreLinksOf joins.now pieces.now v.items) }
{
    let mut out = Vec::new(alloc);
    if pieces.len() < 2 {
        return Ok(out);
    }
    for conductor in 0..conductors {
        link_conductor(alloc, pieces, conductor, joins, &mut out)?;
    }
    Ok(out)
}
