//! Placements of a cell that stand alike: one of them leads the others.

ghost use Rattle.std.specs.Prelude.{◌≡◌, ◌==◌, ◌⊎◌, ◌<◌, ◌≤◌, true, get_or, length, IfOk, OnOk};
ghost use Rattle.std.specs.List.{filter};
ghost use Rattle.net_walk.specs.Leaders.{AreLeaders, IsFollower, IsLeader};
ghost use Rattle.touching_pieces.specs.Pairs.{AddsLinks};

use crate::cells::Element;
use crate::lyings::turn_number;
use link_classes::Link;
use std::alloc::{AllocError, Global};
use std::collections::HashMap;
use touching_pieces::Piece;

// Whether two placements are one.
fn are_same(one: &Element, other: &Element) -> bool
    ensures { result ≡ true → one.now ≡ other.now }
{
    if one.cell != other.cell {
        return false;
    }
    one.motion == other.motion
}

// Whether the first placement leads itself, and stands as the second does.
fn leads(elements: &[Element], leaders: &[u32], leader: u32, number: u32) -> bool
    requires within { number < length elements.now }
    requires few { length leaders.now ≤ length elements.now }
    ensures { result ≡ true → IsLeader elements.now leaders.now leader number }
{
    match leaders.get(leader as usize) {
        None => false,
        Some(own) => {
            if *own != leader {
                return false;
            }
            are_same(&elements[leader as usize], &elements[number as usize])
        }
    }
}

// What leads the next placement: a known one that stands alike, and else itself.
fn leader_of(elements: &[Element], leaders: &[u32], known: Option<u32>, number: u32) -> u32
    requires next { number ≡ length leaders.now }
    requires within { number < length elements.now }
    ensures { (result ≡ number) ⊎ IsLeader elements.now leaders.now result number }
{
    match known {
        None => number,
        Some(leader) => {
            if leads(elements, leaders, leader, number) {
                return leader;
            }
            number
        }
    }
}

/// For each placement the number of the first that stands as it does: O(1) each.
pub(crate) fn leaders_of(alloc: Global, elements: &[Element]) -> Result<Vec<u32>, AllocError>
    requires { length elements.now < 4294967296 }
    ensures { IfOk result (λ v. AreLeaders elements.now (length elements.now) v.items) }
{
    let mut leaders = Vec::new(alloc);
    let mut known: HashMap<(u32, u8, i64, i64), u32> = HashMap::new(alloc);
    for k in 0..elements.len() {
        let number = k as u32;
        let motion = &elements[k].motion;
        let key = (
            elements[k].cell,
            turn_number(motion.turn),
            motion.dx,
            motion.dy,
        );
        let leader = leader_of(elements, &leaders, known.get(&key).copied(), number);
        if leader == number {
            known.insert(key, number)?;
        }
        leaders.push(leader)?;
    }
    Ok(leaders)
}

// Whether the piece is of a placement that leads itself.
fn is_leading(leaders: &[u32], piece: &Piece) -> bool
    ensures { result ≡ (get_or leaders.now piece.now.item 0 == piece.now.item) }
{
    leaders.get(piece.item as usize).copied().unwrap_or(0) == piece.item
}

/// The pieces of placements that lead themselves.
pub(crate) fn leading(
    alloc: Global,
    pieces: &[Piece],
    leaders: &[u32],
) -> Result<Vec<Piece>, AllocError>
    ensures { IfOk result (λ v. v.items
        ≡ filter (λ p. get_or leaders.now p.item 0 == p.item) pieces.now) }
{
    pieces
        .iter()
        .filter(|p| is_leading(leaders, p))
        .copied()
        .collect(alloc)
}

// Adds a link from a placement to what leads it, unless it leads itself.
fn push_follower(leader: u32, number: u32, out: &mut Vec<Link>) -> Result<(), AllocError>
    ensures { OnOk result (AddsLinks (λ i j. (leader ≡ i) × (number ≡ j)) out.old.items
        out.new.items) }
{
    if leader == number {
        return Ok(());
    }
    out.push(Link {
        one: leader,
        other: number,
    })?;
    Ok(())
}

/// Adds a link from each placement to what leads it.
pub(crate) fn push_followers(leaders: &[u32], out: &mut Vec<Link>) -> Result<(), AllocError>
    requires { length leaders.now < 4294967296 }
    ensures { OnOk result (AddsLinks (IsFollower leaders.now (length leaders.now)) out.old.items
        out.new.items) }
{
    for k in 0..leaders.len() {
        push_follower(leaders[k], k as u32, out)?;
    }
    Ok(())
}
