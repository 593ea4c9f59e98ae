//! Partners found by names, then by colours and equal ends in turn.

use crate::alike::Sides;
use crate::colours::Colours;
use crate::graph::Graph;
use crate::keys::{Choice, Key, Mates, mixed};
use crate::kinds::kinds_of;
use crate::only::is_given;
use crate::proposal::Proposal;
use net_names::Name;
use std::alloc::{AllocError, Global};
use text_table::TextTable;

const REPETITIONS: u32 = 10;

const COUPLE: u64 = 1 << 35;

/// Both circuits as a graph, and the partners found so far.
#[derive(Drop)]
pub struct Search {
    pub graph: Graph,
    pub mates: Mates,
}

// Adds the nets of a side that have a name of their own, by that and by being a pin.
fn push_named(
    alloc: Global,
    keys: &mut Vec<Key>,
    table: &mut TextTable,
    first: u32,
    names: &[Name],
    pins: &[bool],
) -> Result<(), AllocError> {
    let mut node = first;
    for (name, is_pin) in names.iter().zip(pins) {
        if is_given(name.bytes()) {
            let place = table.number(alloc, name.bytes())?;
            keys.push(Key {
                class: place as u64,
                around: u64::from(*is_pin),
                node,
            })?;
        }
        node = node.wrapping_add(1);
    }
    Ok(())
}

// Adds those of both sides, equal names having one number.
fn push_sides(
    alloc: Global,
    keys: &mut Vec<Key>,
    graph: &Graph,
    sides: &Sides<'_>,
) -> Result<(), AllocError> {
    let mut table = TextTable::new(alloc);
    let (left, right) = (graph.left.first, graph.right.first);
    push_named(
        alloc,
        keys,
        &mut table,
        left,
        &sides.left.nets,
        &sides.left_pins,
    )?;
    push_named(
        alloc,
        keys,
        &mut table,
        right,
        &sides.right.nets,
        &sides.right_pins,
    )
}

impl Search {
    fn new(alloc: Global, sides: &Sides<'_>, before: &[Proposal]) -> Result<Search, AllocError> {
        let kinds = kinds_of(alloc, sides)?;
        let graph = Graph::of_pair(alloc, sides.left, sides.right, before, kinds)?;
        let mates = Mates::none(alloc, graph.left.end(), graph.count())?;
        Ok(Search { graph, mates })
    }

    // Nets are partners that are the only ones of a name.
    fn pair_names(&mut self, alloc: Global, sides: &Sides<'_>) -> Result<(), AllocError> {
        let mut keys = Vec::new(alloc);
        push_sides(alloc, &mut keys, &self.graph, sides)?;
        self.mates.pair(&mut keys, Choice::Lone);
        Ok(())
    }

    // Colours parted from the kinds on, each two partners being of one kind of their own.
    fn colours(&self, alloc: Global) -> Result<Colours, AllocError> {
        let mut keys = Vec::new(alloc);
        for node in 0..self.graph.count() {
            let class = match self.mates.couple(node) {
                Some(couple) => COUPLE | u64::from(couple),
                None => self.graph.kind(node),
            };
            keys.push(Key {
                class,
                around: 0,
                node,
            })?;
        }
        let mut colours = Colours::of_groups(alloc, &self.graph, &mut keys)?;
        colours.refine(alloc, &self.graph)?;
        Ok(colours)
    }

    // The nodes without a partner that have a colour, by it: of these only nets, or all.
    fn coloured(
        &self,
        alloc: Global,
        colours: &Colours,
        only_nets: bool,
    ) -> Result<Vec<Key>, AllocError> {
        let mut keys = Vec::new(alloc);
        for node in 0..self.graph.count() {
            if self.mates.of(node).is_some() || (only_nets && !self.graph.is_net(node)) {
                continue;
            }
            if let Some(colour) = colours.of(node) {
                keys.push(Key {
                    class: u64::from(colour),
                    around: 0,
                    node,
                })?;
            }
        }
        Ok(keys)
    }

    // What the partners around a node add up to; none where a net there has no partner.
    fn around(&self, node: u32) -> Option<u64> {
        let mut sum: u64 = 0;
        for end in self.graph.ends(node) {
            let couple = self.mates.couple(end.other)?;
            sum = sum.wrapping_add(mixed(end.port, u64::from(couple)));
        }
        Some(sum)
    }

    // The devices and calls without a partner, by kind, and by their nets where that is asked:
    // those then whose nets all have partners.
    fn owners(&self, alloc: Global, by_nets: bool) -> Result<Vec<Key>, AllocError> {
        let mut keys = Vec::new(alloc);
        for node in 0..self.graph.count() {
            if self.mates.of(node).is_some() || self.graph.is_net(node) {
                continue;
            }
            let around = if by_nets { self.around(node) } else { Some(0) };
            if let Some(sum) = around {
                keys.push(Key {
                    class: self.graph.kind(node),
                    around: sum,
                    node,
                })?;
            }
        }
        Ok(keys)
    }

    // One repetition: partners by colours, by equal ends, and where just two are left; whether
    // there were some.
    fn repeat(&mut self, alloc: Global) -> Result<bool, AllocError> {
        let colours = self.colours(alloc)?;
        let mut lone = self.coloured(alloc, &colours, false)?;
        let by_colour = self.mates.pair(&mut lone, Choice::Lone);
        let mut equal = self.owners(alloc, true)?;
        let by_ends = self.mates.pair(&mut equal, Choice::InOrder { tied: false });
        let mut left_over = self.owners(alloc, false)?;
        let by_kind = self.mates.pair(&mut left_over, Choice::Lone);
        Ok(by_colour || by_ends || by_kind)
    }

    // The rest in order: nets of one colour, then what has equal ends, then all of one colour.
    fn tie(&mut self, alloc: Global) -> Result<(), AllocError> {
        let tied = Choice::InOrder { tied: true };
        let colours = self.colours(alloc)?;
        let mut nets = self.coloured(alloc, &colours, true)?;
        self.mates.pair(&mut nets, tied);
        let mut equal = self.owners(alloc, true)?;
        self.mates.pair(&mut equal, tied);
        let mut rest = self.coloured(alloc, &colours, false)?;
        self.mates.pair(&mut rest, tied);
        Ok(())
    }
}

/// Partners of the nodes of two circuits, by names, colours and equal ends, at most ten times over,
/// and then in order of those that look alike. Each repetition takes the time of ordering the nodes
/// that change.
pub fn searched(
    alloc: Global,
    sides: &Sides<'_>,
    before: &[Proposal],
) -> Result<Search, AllocError> {
    let mut search = Search::new(alloc, sides, before)?;
    search.pair_names(alloc, sides)?;
    for _ in 0..REPETITIONS {
        if !search.repeat(alloc)? {
            break;
        }
    }
    search.tie(alloc)?;
    Ok(search)
}
