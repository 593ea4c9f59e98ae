//! The classes before the first round: what looks alike, and each guessed pair apart.

ghost use Rattle.std.specs.Prelude.{◌≡◌, ◌↔◌, ◌<◌, ◌≤◌, ℕ, true, length, slice_index, IfOk, OnOk};
ghost use Rattle.round_laws.specs.Colours.{AreColours};
ghost use Rattle.match_graph.specs.Graph.{IsGraph, kind_at, left_of, nodes_of};
ghost use Rattle.match_rounds.specs.Classes.{IsPartition, KeepsFresh, class_in, is_fresh};
ghost use Rattle.match_rounds.specs.Order.{IsPlaced};
ghost use Rattle.match_rounds.specs.Start.{AreGuesses, AreKindParts, guessed_web};

use crate::classes::Classes;
use crate::counts::Counts;
use crate::groups::Part;
use crate::marks::Marks;
use crate::order::Order;
use crate::pairs::part_pair;
use crate::sorting::part_by;
use match_graph::Graph;
use std::alloc::{AllocError, Global};

/// All nodes in one class, which is to be looked at.
pub fn one_class(alloc: Global, count: u32, left_count: u32) -> Result<Classes, AllocError>
    requires left { left_count ≤ count }
    ensures partition { IfOk result (λ c. IsPartition c left_count count) }
    ensures one { IfOk result (λ c. (a : ℕ) → a < count → class_in c a ≡ 0) }
    ensures fresh { IfOk result (λ c. (a : ℕ) → a < count → is_fresh c a ≡ true) }
{
    // no class, where there is no node
    let classes = if count == 0 { 0 } else { 1 };
    let order = in_order(alloc, count)?;
    Ok(Classes {
        class_of: vec![in alloc; 0; count as usize]?,
        order,
        begin: vec![in alloc; 0; classes]?,
        counts: Counts {
            size: vec![in alloc; count; classes]?,
            left: vec![in alloc; left_count; classes]?,
            is_uneven: 2 * left_count as u64 != count as u64,
        },
        marks: Marks {
            is_fresh: vec![in alloc; true; classes]?,
            fresh: vec![in alloc; 0; classes]?,
        },
    })
}

// Each node at the place of its number.
fn in_order(alloc: Global, count: u32) -> Result<Order, AllocError>
    ensures { IfOk result (λ o. IsPlaced o count) }
{
    Ok(Order {
        node_at: numbers_below(alloc, count)?,
        place_of: numbers_below(alloc, count)?,
    })
}

fn numbers_below(alloc: Global, count: u32) -> Result<Vec<u32>, AllocError>
    ensures long { IfOk result (λ v. length v.items ≡ count) }
    ensures each { IfOk result (λ v. (k : ℕ) → k < count → slice_index v.items k ≡ k) }
{
    let mut numbers = Vec::new(alloc);
    for k in 0..count {
        numbers.push(k)?;
    }
    Ok(numbers)
}

impl Classes {
    /// The classes before the first round: nodes are of one class where they look alike, but each
    /// guessed pair is a class of its own.
    pub fn start(
        alloc: Global,
        graph: &Graph,
        guesses: &[(u32, u32)],
    ) -> Result<Classes, AllocError>
        requires graph { IsGraph graph.now }
        requires guesses { AreGuesses graph.now guesses.now }
        ensures partition { IfOk result
            (λ c. IsPartition c (left_of graph.now) (nodes_of graph.now)) }
        ensures colours { IfOk result (λ c.
            AreColours (guessed_web graph.now guesses.now) 0 (class_in c)) }
        ensures fresh { IfOk result (λ c. (a : ℕ) → a < nodes_of graph.now → is_fresh c a ≡ true) }
    {
        let left_count = graph.left_count();
        let mut classes = one_class(alloc, graph.node_count(), left_count)?;
        part_kinds(alloc, graph, &mut classes)?;
        for (a, b) in guesses {
            part_pair(alloc, &mut classes, left_count, *a, *b)?;
        }
        Ok(classes)
    }
}

// Parts the one class by what nodes look like.
fn part_kinds(alloc: Global, graph: &Graph, classes: &mut Classes) -> Result<(), AllocError>
    requires graph { IsGraph graph.now }
    requires partition { IsPartition classes.old (left_of graph.now) (nodes_of graph.now) }
    requires one { (a : ℕ) → a < nodes_of graph.now → class_in classes.old a ≡ 0 }
    ensures partition { OnOk result (IsPartition classes.new (left_of graph.now)
        (nodes_of graph.now)) }
    ensures kinds { OnOk result ((a b : ℕ) → a < nodes_of graph.now → b < nodes_of graph.now
        → (class_in classes.new a ≡ class_in classes.new b)
        ↔ (kind_at graph.now a ≡ kind_at graph.now b)) }
    ensures fresh { OnOk result (KeepsFresh classes.old classes.new (nodes_of graph.now)) }
{
    let mut parts = list_kinds(alloc, graph)?;
    let mut group = Vec::new(alloc);
    part_by(classes, graph.left_count(), &mut parts, &mut group)?;
    Ok(())
}

// Each node with the number of its kind.
fn list_kinds(alloc: Global, graph: &Graph) -> Result<Vec<Part>, AllocError>
    requires { IsGraph graph.now }
    ensures { IfOk result (λ parts. AreKindParts graph.now parts.items (nodes_of graph.now)) }
{
    let mut parts = Vec::new(alloc);
    for node in 0..graph.node_count() {
        parts.push(Part {
            class: 0,
            count: graph.kind(node) as usize,
            node,
        })?;
    }
    Ok(parts)
}
