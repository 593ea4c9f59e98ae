//! The nets in contact of two placed cells, looked for once for each way in which two lie.

ghost use Rattle.std.specs.Prelude.{◌≡◌, ◌+◌, ◌<◌, ◌↔◌, ◌≤◌, ◌⊎◌, ℕ, true, IfOk, IfSome, OnOk};
ghost use Rattle.flat_layout.specs.Regions.{IsJoined};
ghost use Rattle.link_classes.specs.Classes.{IsOf};
ghost use Rattle.net_link_laws.specs.Laws.{AreNetsUnder};
ghost use Rattle.net_walk.specs.Contacts.{AddsAcross, AreContacts, IsAcross, IsBeside, IsFromTo};
ghost use Rattle.net_walk.specs.Contacts.{IsReplayed, LieSo};
ghost use Rattle.net_walk.specs.Pairs.{IsWindowFor};
ghost use Rattle.net_walk.specs.Walk.{IsClose, place_of};
ghost use Rattle.touching_pieces.specs.Pairs.{AddsLinks, AreJoined};

use crate::alike::relative;
use crate::cells::{Cells, Element};
use crate::children::window_of;
use crate::placed::Placed;
use crate::seen::pair_links;
use crate::sums::more;
use geo_base::{Motion, Rect};
use link_classes::Link;
use std::alloc::{AllocError, Global};
use touching_pieces::Joined;

// The nets in contact of two placed cells that lie beside each other in one way.
#[derive(Drop)]
pub struct Beside {
    pub one: u32,
    pub other: u32,
    pub motion: Motion,
    pub contacts: Vec<Link>,
}

// Adds what a link says across a count: that a number below it is linked with one from there on,
// this counted from there on.
fn push_across(link: &Link, count: u32, out: &mut Vec<Link>) -> Result<(), AllocError>
    ensures { OnOk result (AddsAcross link.now count out.old.items out.new.items) }
{
    if link.one < count && count <= link.other {
        out.push(Link {
            one: link.one,
            other: link.other - count,
        })?;
        return Ok(());
    }
    if link.other < count && count <= link.one {
        out.push(Link {
            one: link.other,
            other: link.one - count,
        })?;
        return Ok(());
    }
    Ok(())
}

// What links say across a count.
fn across(alloc: Global, links: &[Link], count: u32) -> Result<Vec<Link>, AllocError>
    ensures { IfOk result (λ v. (x y : ℕ) → IsFromTo v.items x y ↔ IsAcross links.now count x y) }
{
    let mut out = Vec::new(alloc);
    for link in links {
        push_across(link, count, &mut out)?;
    }
    Ok(out)
}

// The contacts of two placed cells, looked for in a window that is enough. Cells of 2^32 nets
// together are refused.
fn window_contacts<C: Cells>(
    alloc: Global,
    cells: &C,
    one: &Element,
    other: &Element,
    window: &Rect,
    joins: &[Joined],
) -> Result<Vec<Link>, AllocError>
    requires nets { AreNetsUnder (C.design cells.now) (C.wiring cells.now) (C.tables cells.now)
        one.now.cell }
    requires nets_too { AreNetsUnder (C.design cells.now) (C.wiring cells.now) (C.tables cells.now)
        other.now.cell }
    requires close { IsClose one.now.motion }
    requires close_too { IsClose other.now.motion }
    requires window { IsWindowFor (C.design cells.now) (C.tables cells.now) (place_of one.now)
        (place_of other.now) window.now }
    requires joins { (c e : ℕ) → AreJoined joins.now c e ↔ IsJoined (C.wiring cells.now) c e }
    ensures { IfOk result (λ v. AreContacts (C.design cells.now) (C.wiring cells.now)
        (C.tables cells.now) (place_of one.now) (place_of other.now) v.items) }
{
    let count = cells.count(one.cell);
    more(count, cells.count(other.cell) as usize)?;
    let first = Placed {
        element: one,
        at: 0,
    };
    let second = Placed {
        element: other,
        at: count,
    };
    let links = pair_links(alloc, cells, &first, &second, window, joins)?;
    across(alloc, &links, count)
}

fn find_contacts<C: Cells>(
    alloc: Global,
    cells: &C,
    one: &Element,
    other: &Element,
    joins: &[Joined],
) -> Result<Vec<Link>, AllocError>
    requires nets { AreNetsUnder (C.design cells.now) (C.wiring cells.now) (C.tables cells.now)
        one.now.cell }
    requires nets_too { AreNetsUnder (C.design cells.now) (C.wiring cells.now) (C.tables cells.now)
        other.now.cell }
    requires close { IsClose one.now.motion }
    requires close_too { IsClose other.now.motion }
    requires joins { (c e : ℕ) → AreJoined joins.now c e ↔ IsJoined (C.wiring cells.now) c e }
    ensures { IfOk result (λ v. AreContacts (C.design cells.now) (C.wiring cells.now)
        (C.tables cells.now) (place_of one.now) (place_of other.now) v.items) }
{
    match window_of(cells, one, other) {
        None => Ok(Vec::new(alloc)),
        Some(window) => window_contacts(alloc, cells, one, other, &window, joins),
    }
}

// Whether two placements are of these cells and lie so.
fn lie_so(beside: &Beside, one: &Element, other: &Element) -> bool
    requires close { IsClose one.now.motion }
    requires close_too { IsClose other.now.motion }
    ensures { result ≡ true → LieSo (place_of one.now) (place_of other.now) beside.now }
{
    if beside.one != one.cell || beside.other != other.cell {
        return false;
    }
    let motion = relative(&one.motion, &other.motion);
    beside.motion == motion
}

fn find_beside<C: Cells>(
    alloc: Global,
    cells: &C,
    one: &Element,
    other: &Element,
    joins: &[Joined],
) -> Result<Beside, AllocError>
    requires nets { AreNetsUnder (C.design cells.now) (C.wiring cells.now) (C.tables cells.now)
        one.now.cell }
    requires nets_too { AreNetsUnder (C.design cells.now) (C.wiring cells.now) (C.tables cells.now)
        other.now.cell }
    requires close { IsClose one.now.motion }
    requires close_too { IsClose other.now.motion }
    requires joins { (c e : ℕ) → AreJoined joins.now c e ↔ IsJoined (C.wiring cells.now) c e }
    ensures is { IfOk result (IsBeside (C.design cells.now) (C.wiring cells.now)
        (C.tables cells.now)) }
    ensures lie { IfOk result (LieSo (place_of one.now) (place_of other.now)) }
{
    let contacts = find_contacts(alloc, cells, one, other, joins)?;
    Ok(Beside {
        one: one.cell,
        other: other.cell,
        motion: relative(&one.motion, &other.motion),
        contacts,
    })
}

/// The contacts of two placed cells: those that are known, if the two lie so, else by a search.
pub fn beside_of<C: Cells>(
    alloc: Global,
    cells: &C,
    known: Option<Beside>,
    one: &Element,
    other: &Element,
    joins: &[Joined],
) -> Result<Beside, AllocError>
    requires known { IfSome known (IsBeside (C.design cells.now) (C.wiring cells.now)
        (C.tables cells.now)) }
    requires nets { AreNetsUnder (C.design cells.now) (C.wiring cells.now) (C.tables cells.now)
        one.now.cell }
    requires nets_too { AreNetsUnder (C.design cells.now) (C.wiring cells.now) (C.tables cells.now)
        other.now.cell }
    requires close { IsClose one.now.motion }
    requires close_too { IsClose other.now.motion }
    requires joins { (c e : ℕ) → AreJoined joins.now c e ↔ IsJoined (C.wiring cells.now) c e }
    ensures is { IfOk result (IsBeside (C.design cells.now) (C.wiring cells.now)
        (C.tables cells.now)) }
    ensures lie { IfOk result (LieSo (place_of one.now) (place_of other.now)) }
{
    match known {
        None => find_beside(alloc, cells, one, other, joins),
        Some(beside) => {
            if lie_so(&beside, one, other) {
                return Ok(beside);
            }
            find_beside(alloc, cells, one, other, joins)
        }
    }
}

/// Adds the links of contacts between the nets that stand from two places on.
pub fn replay(
    contacts: &[Link],
    at: u32,
    other_at: u32,
    out: &mut Vec<Link>,
) -> Result<(), AllocError>
    requires room { (x y : ℕ) → IsFromTo contacts.now x y → at + x < 4294967296 }
    requires room_too { (x y : ℕ) → IsFromTo contacts.now x y → other_at + y < 4294967296 }
    ensures { OnOk result (AddsLinks (IsReplayed contacts.now at other_at)
        out.old.items out.new.items) }
{
    for contact in contacts {
        out.push(Link {
            one: at + contact.one,
            other: other_at + contact.other,
        })?;
    }
    Ok(())
}
