//! Pairs of placements, in an order in which those that lie alike stand together.

ghost use Rattle.std.specs.Prelude.{◌≡◌, ◌<◌, [], true, length, IfOk, OnOk};
ghost use Rattle.std.specs.List.Sorted.{IsPermutation};
ghost use Rattle.link_classes.specs.Classes.{AreInRange, IsLinked, IsOf};
ghost use Rattle.net_walk.specs.Alike.{AreLain, IsLain, link_of};
ghost use Rattle.net_walk.specs.Walk.{AreClose};
ghost use Rattle.touching_pieces.specs.Pairs.{AddsLinks};

use crate::alike::relative;
use crate::cells::Element;
use geo_base::{Motion, Turn};
use link_classes::Link;
use std::alloc::{AllocError, Global};

// A pair of placements by their numbers, behind a number for how they lie.
#[derive(Clone, Copy, Debug, PartialEq, Eq, PartialOrd, Ord)]
struct Lying {
    way: u64,
    one: u32,
    other: u32,
}

pub(crate) fn turn_number(turn: Turn) -> u8 {
    match turn {
        Turn::R0 => 0,
        Turn::R90 => 1,
        Turn::R180 => 2,
        Turn::R270 => 3,
        Turn::M0 => 4,
        Turn::M90 => 5,
        Turn::M180 => 6,
        Turn::M270 => 7,
    }
}

// A number and a further part as one number.
fn mixed(number: u64, part: u64) -> u64 {
    let product = (number ^ part).wrapping_mul(0x9E37_79B9_7F4A_7C15);
    product ^ (product >> 32)
}

// The same of a part with its sign.
fn mixed_signed(number: u64, part: i64) -> u64 {
    let sign = if part < 0 { 1 } else { 0 };
    mixed(mixed(number, part.unsigned_abs()), sign)
}

// A number for how two placements lie: for their cells, and for the first as it is seen from the
// other. Where two ways have one number, each is only looked for more often.
fn way_of(cell: u32, other: u32, motion: &Motion) -> u64 {
    let cells = mixed(mixed(1, u64::from(cell)), u64::from(other));
    let turned = mixed(cells, u64::from(turn_number(motion.turn)));
    mixed_signed(mixed_signed(turned, motion.dx), motion.dy)
}

// How two placements lie.
fn lying_of(elements: &[Element], one: u32, other: u32) -> Lying
    requires one { one < length elements.now }
    requires other { other < length elements.now }
    requires close { AreClose elements.now }
    ensures one { result.one ≡ one }
    ensures other { result.other ≡ other }
{
    let first = &elements[one as usize];
    let second = &elements[other as usize];
    let motion = relative(&first.motion, &second.motion);
    let way = way_of(first.cell, second.cell, &motion);
    Lying { way, one, other }
}

// How the placements of a pair lie, the one of the lesser number first.
fn lying_pair(elements: &[Element], pair: &Link) -> Lying
    requires one { pair.now.one < length elements.now }
    requires other { pair.now.other < length elements.now }
    requires close { AreClose elements.now }
    ensures { IsOf (link_of result) pair.now.one pair.now.other }
{
    if pair.one < pair.other {
        return lying_of(elements, pair.one, pair.other);
    }
    lying_of(elements, pair.other, pair.one)
}

fn lyings(alloc: Global, elements: &[Element], pairs: &[Link]) -> Result<Vec<Lying>, AllocError>
    requires pairs { AreInRange (length elements.now) pairs.now }
    requires close { AreClose elements.now }
    ensures { IfOk result (λ v. AreLain pairs.now v.items) }
{
    let mut out = Vec::new(alloc);
    for pair in pairs {
        out.push(lying_pair(elements, pair))?;
    }
    Ok(out)
}

fn sort_lyings(lyings: &mut Vec<Lying>)
    ensures { IsPermutation lyings.old.items lyings.new.items }
{
    lyings.sort_unstable();
}

// Whether the last link is of these two.
fn is_last(links: &[Link], lying: &Lying) -> bool
    ensures { result ≡ true → IsLinked links.now lying.now.one lying.now.other }
{
    match links.last() {
        None => false,
        Some(last) => last.one == lying.one && last.other == lying.other,
    }
}

// Adds the pair, unless it is the last one already.
fn push_new(lying: &Lying, out: &mut Vec<Link>) -> Result<(), AllocError>
    ensures { OnOk result (AddsLinks (λ i j. (lying.now.one ≡ i) × (lying.now.other ≡ j))
        out.old.items out.new.items) }
{
    if is_last(out, lying) {
        return Ok(());
    }
    out.push(Link {
        one: lying.one,
        other: lying.other,
    })?;
    Ok(())
}

// The pairs, without those that stand right behind their like.
fn unlike_last(alloc: Global, lyings: &[Lying]) -> Result<Vec<Link>, AllocError>
    ensures { IfOk result (λ v. AddsLinks (IsLain lyings.now) [] v.items) }
{
    let mut out = Vec::new(alloc);
    for lying in lyings {
        push_new(lying, &mut out)?;
    }
    Ok(out)
}

/// The same pairs of placements, each once, in an order in which those that lie alike stand
/// together: O(n log n) for n pairs.
pub fn alike_together(
    alloc: Global,
    elements: &[Element],
    pairs: &[Link],
) -> Result<Vec<Link>, AllocError>
    requires pairs { AreInRange (length elements.now) pairs.now }
    requires close { AreClose elements.now }
    ensures { IfOk result (λ v. AddsLinks (IsLinked pairs.now) [] v.items) }
{
    let mut lyings = lyings(alloc, elements, pairs)?;
    sort_lyings(&mut lyings);
    unlike_last(alloc, &lyings)
}
