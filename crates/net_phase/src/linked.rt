//! The links of a cell, by up to three workers where it is large.
ghost use Rattle.std.specs.Prelude.{◌≡◌, [], length, IfOk};
ghost use Rattle.cell_graph.specs.Linked.{plain};
ghost use Rattle.flat_layout.specs.Nets.{AreRightBelow, items_of};
ghost use Rattle.link_classes.specs.Classes.{AreInRange};
ghost use Rattle.net_link_laws.specs.Found.{AreAllFound};
ghost use Rattle.net_link_laws.specs.Places.{places_of};
ghost use Rattle.net_walk.specs.Beside.{AddsBeside};
ghost use Rattle.net_walk.specs.Pairs.{AddsChildren, AddsPairs};
ghost use Rattle.net_phase.specs.Below.{tables_seen, wiring_seen};
ghost use Rattle.net_walk.specs.Placed.{IsLinkable};
ghost use Rattle.net_phase.specs.Linked.{AreApartLinks, AreSquareLinks};
ghost use Rattle.net_phase.specs.Wires.{AreWires};

use crate::below::Below;
use crate::wires::Wires;
use job_board::Crew;
use link_classes::Link;
use net_walk::{
    GlobalItems, LinkSite, all_beside, all_links, enough_pairs, first_places, global_links,
    link_pairs, own_links,
};
use std::alloc::{AllocError, Global};
use std::thread::Threads;

/// Whether a cell has so many items that a further thread costs less than it gives: 10,000 or more.
pub fn is_large(items: usize) -> bool {
    items >= 10_000
}

// Those who work one of two works side by side: half of the workers.
fn half<'a, R: Threads, G>(crew: &Crew<'a, R, G>) -> Crew<'a, R, G> {
    Crew::new(crew.rt, (crew.workers / 2).max(1), crew.gate)
}

// Links of the nets of some pairs of placements.
fn some_placed(
    alloc: Global,
    below: &Below,
    site: &LinkSite<'_>,
    pairs: &[Link],
) -> Result<Vec<Link>, AllocError>
    requires pairs { AreInRange (length (places_of (plain below.now.design) site.now.cell))
        pairs.now }
    requires site { IsLinkable (plain below.now.design) (wiring_seen below.now)
        (tables_seen below.now) site.now }
    ensures { IfOk result (λ v. AddsPairs (plain below.now.design) (wiring_seen below.now)
        (tables_seen below.now) site.now.cell pairs.now [] v.items) }
{
    let mut links = Vec::new(alloc);
    link_pairs(alloc, below, site, pairs, &mut links)?;
    Ok(links)
}

// Those of two lists of pairs, side by side where there are two workers.
fn both_halves<R: Threads, G>(
    alloc: Global,
    below: &Below,
    site: &LinkSite<'_>,
    some: &[Link],
    others: &[Link],
    crew: &Crew<R, G>,
) -> Result<(Vec<Link>, Vec<Link>), AllocError>
    requires some { AreInRange (length (places_of (plain below.now.design) site.now.cell))
        some.now }
    requires others { AreInRange (length (places_of (plain below.now.design) site.now.cell))
        others.now }
    requires site { IsLinkable (plain below.now.design) (wiring_seen below.now)
        (tables_seen below.now) site.now }
    ensures some { IfOk result (λ v. AddsPairs (plain below.now.design) (wiring_seen below.now)
        (tables_seen below.now) site.now.cell some.now [] v.0.items) }
    ensures others { IfOk result (λ v. AddsPairs (plain below.now.design) (wiring_seen below.now)
        (tables_seen below.now) site.now.cell others.now [] v.1.items) }
{
    let first = move || -> Result<Vec<Link>, AllocError>
        requires { AreInRange (length (places_of (plain below.now.design) site.now.cell)) some.now
            × IsLinkable (plain below.now.design) (wiring_seen below.now)
            (tables_seen below.now) site.now }
        ensures { IfOk result (λ v. AddsPairs (plain below.entry.now.design)
            (wiring_seen below.entry.now) (tables_seen below.entry.now) site.entry.now.cell
            some.entry.now [] v.items) }
    { some_placed(alloc, below, site, some) };
    let second = move || -> Result<Vec<Link>, AllocError>
        requires { AreInRange (length (places_of (plain below.now.design) site.now.cell)) others.now
            × IsLinkable (plain below.now.design) (wiring_seen below.now)
            (tables_seen below.now) site.now }
        ensures { IfOk result (λ v. AddsPairs (plain below.entry.now.design)
            (wiring_seen below.entry.now) (tables_seen below.entry.now) site.entry.now.cell
            others.entry.now [] v.items) }
    { some_placed(alloc, below, site, others) };
    let (one, other) = crew.both(first, second);
    Ok((one?, other?))
}

// Links of the nets of any two placements: half of the pairs by each of two workers.
fn placed_links<R: Threads, G>(
    alloc: Global,
    below: &Below,
    site: &LinkSite<'_>,
    crew: &Crew<R, G>,
) -> Result<Vec<Link>, AllocError>
    requires site { IsLinkable (plain below.now.design) (wiring_seen below.now)
        (tables_seen below.now) site.now }
    ensures { IfOk result (λ v. AddsChildren (plain below.now.design) (wiring_seen below.now)
        (tables_seen below.now) site.now.cell [] v.items) }
{
    let found = enough_pairs(alloc, below, site.cell)?;
    let pairs = found.as_slice();
    let (some, others) = pairs.split_at(pairs.len() / 2);
    let halves = both_halves(alloc, below, site, some, others, crew)?;
    let mut links = halves.0;
    links.extend_from_slice(&halves.1)?;
    Ok(links)
}

// Links of a cell's own rectangles, and of the nets of any two placements.
fn apart_links<R: Threads, G>(
    alloc: Global,
    below: &Below,
    site: &LinkSite<'_>,
    crew: &Crew<R, G>,
) -> Result<Vec<Link>, AllocError>
    requires site { IsLinkable (plain below.now.design) (wiring_seen below.now)
        (tables_seen below.now) site.now }
    ensures { IfOk result (λ v. AreApartLinks (plain below.now.design) (wiring_seen below.now)
        (tables_seen below.now) site.now.cell v.items) }
{
    let mut links = own_links(alloc, below, site.cell, site.joins)?;
    let further = placed_links(alloc, below, site, crew)?;
    links.extend_from_slice(&further)?;
    Ok(links)
}

// Links of rectangles and the nets of placements.
fn beside_links(alloc: Global, below: &Below, site: &LinkSite<'_>) -> Result<Vec<Link>, AllocError>
    requires site { IsLinkable (plain below.now.design) (wiring_seen below.now)
        (tables_seen below.now) site.now }
    ensures { IfOk result (λ v. AddsBeside (plain below.now.design) (wiring_seen below.now)
        (tables_seen below.now) site.now.cell [] v.items) }
{
    let mut links = Vec::new(alloc);
    all_beside(alloc, below, site, &mut links)?;
    Ok(links)
}

// Those and these, side by side where there are two workers.
fn both_kinds<R: Threads, G>(
    alloc: Global,
    below: &Below,
    site: &LinkSite<'_>,
    crew: &Crew<R, G>,
) -> Result<(Vec<Link>, Vec<Link>), AllocError>
    requires site { IsLinkable (plain below.now.design) (wiring_seen below.now)
        (tables_seen below.now) site.now }
    ensures apart { IfOk result (λ v. AreApartLinks (plain below.now.design) (wiring_seen below.now)
        (tables_seen below.now) site.now.cell v.0.items) }
    ensures beside { IfOk result (λ v. AddsBeside (plain below.now.design) (wiring_seen below.now)
        (tables_seen below.now) site.now.cell [] v.1.items) }
{
    let few = &half(crew);
    let beside = move || -> Result<Vec<Link>, AllocError>
        requires { IsLinkable (plain below.now.design) (wiring_seen below.now)
            (tables_seen below.now) site.now }
        ensures { IfOk result (λ v. AddsBeside (plain below.entry.now.design)
            (wiring_seen below.entry.now) (tables_seen below.entry.now) site.entry.now.cell []
            v.items) }
    { beside_links(alloc, below, site) };
    let apart = move || -> Result<Vec<Link>, AllocError>
        requires { IsLinkable (plain below.now.design) (wiring_seen below.now)
            (tables_seen below.now) site.now }
        ensures { IfOk result (λ v. AreApartLinks (plain below.entry.now.design)
            (wiring_seen below.entry.now) (tables_seen below.entry.now) site.entry.now.cell
            v.items) }
    { apart_links(alloc, below, site, few) };
    let (beside, apart) = crew.both(beside, apart);
    Ok((apart?, beside?))
}

// Links by squares.
fn square_links<R: Threads, G>(
    alloc: Global,
    below: &Below,
    site: &LinkSite<'_>,
    crew: &Crew<R, G>,
) -> Result<Vec<Link>, AllocError>
    requires site { IsLinkable (plain below.now.design) (wiring_seen below.now)
        (tables_seen below.now) site.now }
    ensures { IfOk result (λ v. AreSquareLinks (plain below.now.design) (wiring_seen below.now)
        (tables_seen below.now) site.now.cell v.items) }
{
    let kinds = both_kinds(alloc, below, site, crew)?;
    let mut links = kinds.0;
    links.extend_from_slice(&kinds.1)?;
    Ok(links)
}

/// All links between the items of a cell, as many as those are. Where it has 10,000 items or more,
/// those of rectangles and placements are sought beside the others, and these in two halves, on up
/// to two further threads. Cost: that of `all_links`.
pub fn cell_links<R: Threads, G>(
    alloc: Global,
    below: &Below,
    cell: u32,
    count: u32,
    wires: &Wires,
    crew: &Crew<R, G>,
) -> Result<Vec<Link>, AllocError>
    requires right { AreRightBelow (plain below.now.design) (wiring_seen below.now)
        (tables_seen below.now) cell }
    requires count { count ≡ length (items_of (plain below.now.design) (wiring_seen below.now)
        (tables_seen below.now) cell) }
    requires wires { AreWires (wiring_seen below.now) wires.now }
    ensures { IfOk result (λ v. AreAllFound (plain below.now.design) (wiring_seen below.now)
        (tables_seen below.now) cell v.items) }
{
    let globals = wires.globals;
    if !is_large(count as usize) {
        return all_links(
            alloc,
            below,
            cell,
            count,
            &wires.joins,
            &wires.grounds,
            globals,
        );
    }
    let firsts = first_places(alloc, below, cell)?;
    let site = LinkSite {
        cell,
        firsts: &firsts,
        joins: &wires.joins,
    };
    let mut links = square_links(alloc, below, &site, crew)?;
    let globals = GlobalItems {
        cell,
        count: globals,
        at: count - globals,
    };
    global_links(below, &globals, &firsts, &wires.grounds, &mut links)?;
    Ok(links)
}
