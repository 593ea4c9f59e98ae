//! Indexes of what stands in cells.
ghost use Rattle.std.specs.Prelude.{◌≡◌, ◌≤◌, ℕ, true, false, get_or, map, IfOk};
ghost use Rattle.std.specs.List.{All};
ghost use Rattle.cell_graph.specs.Linked.{HullIsSound};
ghost use Rattle.rule_text.specs.Seen.{rules_seen};
ghost use Rattle.rule_text.specs.Sound.{IsSound};
ghost use Rattle.net_walk.specs.Walk.{AreClose, IsClose};
ghost use Rattle.net_phase.specs.Elements.{AreAllElements, element_lists};
ghost use Rattle.net_phase.specs.Indexes.{AreIndexes, IsNetReach, bound_by, bound_of};
ghost use Rattle.net_phase.specs.Indexes.{index_lists, span_of, spans_of};
ghost use Rattle.net_phase.specs.Own.{rect_lists, rects_of};

use crate::bare::all_bare;
use cell_context::grown;
use cell_graph::Design;
use deep_tables::index_of;
use geo_base::Rect;
use list_base::small;
use net_walk::Element;
use rule_text::{RuleSet, reaches};
use std::alloc::{AllocError, Global};
use tile_index::TileIndex;

/// For each cell, an index of the rectangles that it holds itself of each conductor, and one of
/// what bounds its placements, by their numbers.
#[derive(Drop)]
pub struct Indexes {
    pub own: Vec<Vec<TileIndex>>,
    pub spans: Vec<TileIndex>,
    /// How far outside a cell's hull a net's squares may lie.
    pub reach: u32,
    /// For each conductor, which cells hold nothing of it, nor does any cell below them.
    pub bare: Vec<Vec<bool>>,
}

// The greatest reach of a conductor.
fn greatest(reaches: &[u32], conductors: &[bool]) -> u32
    ensures all { (k : ℕ) → get_or conductors.now k false ≡ true
        → get_or reaches.now k 0 ≤ result }
    ensures most { (n : ℕ) → All (λ m. m ≤ n) reaches.now → result ≤ n }
{
    let [reach, more @ ..] = reaches else {
        return 0;
    };
    let [known, others @ ..] = conductors else {
        return 0;
    };
    let most = greatest(more, others);
    if *known { most.max(*reach) } else { most }
}

// How far a net's squares may lie outside a cell's hull: as far as the conductor that reaches
// furthest.
fn net_reach(alloc: Global, rules: &RuleSet) -> Result<u32, AllocError>
    requires { IsSound (rules_seen rules.now) }
    ensures { IfOk result (IsNetReach (rules_seen rules.now)) }
{
    small(rules.names.len()).ok_or(AllocError)?;
    let known = rules.conductors(alloc)?;
    let found = reaches(alloc, &rules.names)?;
    let most = greatest(&found, &known);
    Ok(most)
}

// A hull grown so far.
fn bound_by(hull: Option<Rect>, reach: u32) -> Option<Rect>
    requires { HullIsSound hull }
    ensures { result ≡ bound_by reach hull }
{
    match hull {
        Some(hull) => Some(grown(&hull, reach)),
        None => None,
    }
}

/// What bounds the nets of a cell, whose squares may lie so far outside its hull; nothing past the
/// last cell.
pub fn bound_at(design: &Design, cell: u32, reach: u32) -> Option<Rect>
    requires { reach ≤ 10000 }
    ensures { result ≡ bound_of reach design.now cell }
{
    if cell < design.cells() {
        design.sound();
        return bound_by(design.hull(cell), reach);
    }
    None
}

// What bounds a placement, an empty rectangle where the placed cell has nothing.
fn span_of(design: &Design, element: &Element, reach: u32) -> Rect
    requires close { IsClose element.now.motion }
    requires reach { reach ≤ 10000 }
    ensures { result ≡ span_of reach design.now element.now }
{
    design.sound();
    match bound_at(design, element.cell, reach) {
        None => Rect {
            x1: 0,
            y1: 0,
            x2: 0,
            y2: 0,
        },
        Some(bound) => element.motion.rect(bound),
    }
}

fn spans_of(
    alloc: Global,
    design: &Design,
    elements: &[Element],
    reach: u32,
) -> Result<Vec<Rect>, AllocError>
    requires close { AreClose elements.now }
    requires reach { reach ≤ 10000 }
    ensures { IfOk result (λ v. v.items ≡ spans_of reach design.now elements.now) }
{
    let mut spans = Vec::with_capacity(alloc, elements.len())?;
    for k in 0..elements.len() {
        spans.push(span_of(design, &elements[k], reach))?;
    }
    Ok(spans)
}

// An index of what bounds each cell's placements.
fn span_indexes(
    alloc: Global,
    design: &Design,
    elements: &[Vec<Element>],
    reach: u32,
) -> Result<Vec<TileIndex>, AllocError>
    requires elements { AreAllElements design.now (element_lists elements.now) }
    requires reach { reach ≤ 10000 }
    ensures { IfOk result (λ v. v.items ≡ map (spans_of reach design.now)
        (element_lists elements.now)) }
{
    let mut indexes = Vec::new(alloc);
    for cell in 0..elements.len() {
        let spans = spans_of(alloc, design, &elements[cell], reach)?;
        let index = index_of(alloc, &spans)?;
        indexes.push(index)?;
    }
    Ok(indexes)
}

// An index of each list.
fn list_indexes(alloc: Global, lists: &[&[Rect]]) -> Result<Vec<TileIndex>, AllocError>
    ensures { IfOk result (λ v. v.items ≡ rects_of lists.now) }
{
    let mut indexes = Vec::new(alloc);
    for rects in lists {
        let index = index_of(alloc, rects)?;
        indexes.push(index)?;
    }
    Ok(indexes)
}

// An index of each cell's rectangles of each conductor.
fn own_indexes(alloc: Global, own: &[Vec<&[Rect]>]) -> Result<Vec<Vec<TileIndex>>, AllocError>
    ensures { IfOk result (λ v. index_lists v.items ≡ rect_lists own.now) }
{
    let mut all = Vec::new(alloc);
    for lists in own {
        let indexes = list_indexes(alloc, lists)?;
        all.push(indexes)?;
    }
    Ok(all)
}

/// The indexes of a layout's cells for some rules: O(n log n) for n rectangles and placements, and
/// at most linear in the references for each name. 2^32 or more of a list are refused.
pub fn find_indexes(
    alloc: Global,
    design: &Design,
    rules: &RuleSet,
    own: &[Vec<&[Rect]>],
    elements: &[Vec<Element>],
) -> Result<Indexes, AllocError>
    requires rules { IsSound (rules_seen rules.now) }
    requires elements { AreAllElements design.now (element_lists elements.now) }
    ensures { IfOk result (AreIndexes design.now (rules_seen rules.now) (rect_lists own.now)
        (element_lists elements.now)) }
{
    let reach = net_reach(alloc, rules)?;
    let conductors = small(rules.names.len()).ok_or(AllocError)?;
    let bare = all_bare(alloc, design, own, conductors)?;
    let own = own_indexes(alloc, own)?;
    let spans = span_indexes(alloc, design, elements, reach)?;
    Ok(Indexes {
        own,
        spans,
        reach,
        bare,
    })
}
