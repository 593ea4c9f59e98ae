//! The right nodes that a left node is guessed to go to, one after another.

ghost use Rattle.std.specs.Prelude.{◌≡◌, ◌<◌, ◌≤◌, ◌↔◌, ℕ, IfSome, List, length, nat_lt, true};
ghost use Rattle.match_graph.specs.Graph.{left_of, nodes_of};
ghost use Rattle.match_rounds.specs.Classes.{IsPartition, class_in};
ghost use Rattle.refine_match.specs.Candidates.{IsBestBehind, IsFirst, IsSureFirst, NextLaw};
ghost use Rattle.refine_match.specs.Candidates.{candidate_rank, have_one_name, is_behind};
ghost use Rattle.refine_match.specs.Namesakes.{IsNamesake};
ghost use Rattle.refine_match.specs.Sides.{AreSides, rank_by};
ghost use Rattle.refine_match.specs.Rights.{AreRightsOf};
ghost use Rattle.match_rounds.specs.Turned.{AreAllOf};

use crate::rights::Rights;
use match_graph::Graph;
use match_rounds::Classes;
use net_model::Circuit;

/// A right node that a left node is guessed to go to.
#[derive(Clone, Copy, Debug, PartialEq, Eq)]
pub struct Candidate {
    /// Whether both are nets of one name.
    pub has_name: bool,
    pub node: u32,
}

/// Two circuits that are matched, with their graph, and for each left net the first right net of its
/// name.
#[derive(Clone, Copy)]
pub struct Sides<'a> {
    pub graph: &'a Graph,
    pub left: &'a Circuit,
    pub right: &'a Circuit,
    pub namesakes: &'a [Option<u32>],
}

impl<'a> Sides<'a> {
    /// The next candidate of a left node behind the last one: the right nodes of its class, those of
    /// its name first, each group by number. Where it is the first right net of its name, or the
    /// first right node of the class has the name or no right net has, the first candidate is found
    /// in the time to pass over what left the class; any other in a time in proportion to its size.
    pub fn next_candidate(
        &self,
        classes: &Classes,
        rights: &Rights,
        node: u32,
        last: Option<Candidate>,
    ) -> Option<Candidate>
        requires sides { AreSides self.now }
        requires partition { IsPartition classes.now (left_of self.now.graph.now)
            (nodes_of self.now.graph.now) }
        requires rights { AreRightsOf rights.now self.now.graph.now classes.now }
        requires node { node < left_of self.now.graph.now }
        ensures { (items : List ℕ) × AreAllOf (class_in classes.now) (class_in classes.now node)
            items (nodes_of self.now.graph.now) × IsBestBehind self.now.graph.now
            (rank_by self.now node) last items (length items) result }
    {
        let class = classes.of(node);
        let members = classes.members(self.graph, class);
        if last.is_none() {
            if let Some(candidate) = self.first_candidate(classes, rights, node) {
                return Some(candidate);
            }
        }
        self.best_of(members, node, last)
    }

    // The first candidate of a left node, if it is known without a walk over the class: the first
    // right net of its name, or the first right node of the class, where this has the name or no
    // right net has.
    fn first_candidate(&self, classes: &Classes, rights: &Rights, node: u32) -> Option<Candidate>
        requires sides { AreSides self.now }
        requires partition { IsPartition classes.now (left_of self.now.graph.now)
            (nodes_of self.now.graph.now) }
        requires rights { AreRightsOf rights.now self.now.graph.now classes.now }
        requires node { node < left_of self.now.graph.now }
        ensures { IfSome result (IsSureFirst self.now.graph.now classes.now
            (rank_by self.now node) (class_in classes.now node)) }
    {
        let class = classes.of(node);
        let namesake = self.namesake_of(node);
        if let Some(net) = namesake {
            if classes.of(net) == class {
                return Some(Candidate {
                    has_name: true,
                    node: net,
                });
            }
        }
        let first = rights.first(self.graph, classes, class)?;
        let has_name = self.is_one_name(node, first);
        if has_name || namesake.is_none() {
            return Some(Candidate {
                has_name,
                node: first,
            });
        }
        None
    }

    // The first right net of the name of a left node, if this is a net and a right net has its name.
    fn namesake_of(&self, node: u32) -> Option<u32>
        requires { AreSides self.now }
        ensures { IsNamesake self.now.graph.now self.now.left.now self.now.right.now node result }
    {
        let graph = self.graph;
        if graph.left.first_device() <= node {
            return None;
        }
        match self.namesakes[(node - graph.left.first) as usize] {
            Some(net) => Some(graph.right.first + net),
            None => None,
        }
    }

    // The best candidate behind the last one of the right ones of these nodes.
    fn best_of(&self, nodes: &[u32], node: u32, last: Option<Candidate>) -> Option<Candidate>
        requires sides { AreSides self.now }
        requires node { node < left_of self.now.graph.now }
        ensures { IsBestBehind self.now.graph.now (rank_by self.now node) last nodes.now
            (length nodes.now) result }
    {
        let left_count = self.graph.left_count();
        let mut best = None;
        for other in nodes {
            if left_count <= *other {
                let candidate = Candidate {
                    has_name: self.is_one_name(node, *other),
                    node: *other,
                };
                if is_after(candidate, last) && is_first(candidate, best) {
                    best = Some(candidate);
                }
            }
        }
        best
    }

    // Whether a left node and a right one are nets of one name.
    fn is_one_name(&self, x: u32, y: u32) -> bool
        requires sides { AreSides self.now }
        requires left { self.now.graph.now.left.first ≤ x }
        requires right { self.now.graph.now.right.first ≤ y }
        ensures { result ≡ have_one_name self.now.graph.now self.now.left.now self.now.right.now
            x y }
    {
        let graph = self.graph;
        x < graph.left.first_device()
            && y < graph.right.first_device()
            && self.left.nets[(x - graph.left.first) as usize]
                == self.right.nets[(y - graph.right.first) as usize]
    }
}

/// The first right node behind the last candidate is the next one of all candidates in order.
pub fn following()
    ensures { NextLaw }
{}

// Whether a candidate comes behind the last one.
fn is_after(candidate: Candidate, last: Option<Candidate>) -> bool
    ensures { result ≡ is_behind last (candidate_rank candidate) }
{
    match last {
        Some(other) => is_before(other, candidate),
        None => true,
    }
}

// Whether a candidate comes before the best one so far.
fn is_first(candidate: Candidate, best: Option<Candidate>) -> bool
    ensures { (result ≡ true) ↔ IsFirst candidate best }
{
    match best {
        Some(other) => is_before(candidate, other),
        None => true,
    }
}

// Whether one candidate comes before another.
fn is_before(first: Candidate, second: Candidate) -> bool
    ensures { result ≡ nat_lt (candidate_rank first) (candidate_rank second) }
{
    if first.has_name == second.has_name {
        first.node < second.node
    } else {
        first.has_name
    }
}
