//! The nodes in classes, and the parting of a class in two.

ghost use Rattle.std.specs.Prelude.{◌≡◌, ◌<◌, ◌^◌, count_by, length, OnOk, nat_lt};
ghost use Rattle.match_rounds.specs.Classes.{AreAlike, IsGrown, IsPartedOff, IsPartition};
ghost use Rattle.match_rounds.specs.Classes.{KeepsFresh, class_count, node_count};

use crate::counts::Counts;
use crate::marks::Marks;
use crate::order::Order;
use std::alloc::AllocError;

/// The nodes in classes. The nodes of a class stand side by side in `order`.
#[derive(Drop)]
pub struct Classes {
    /// The class of each node.
    pub class_of: Vec<u32>,
    /// The nodes, class by class.
    pub order: Order,
    /// Where each class begins in `order`.
    pub begin: Vec<u32>,
    pub counts: Counts,
    pub marks: Marks,
}

impl Classes {
    /// How many classes there are.
    pub fn count(&self) -> usize
        ensures { result ≡ class_count self.now }
    {
        self.counts.size.len()
    }

    /// Makes these nodes, which are of one class, a class of their own, unless they are all of
    /// their class. It takes time in proportion to
    /// their number.
    pub fn part(&mut self, nodes: &[u32], left_count: u32) -> Result<(), AllocError>
        requires partition { IsPartition self.old left_count (node_count self.old) }
        requires nodes { AreAlike self.old.class_of.items nodes.now (node_count self.old) }
        ensures partition { OnOk result (IsPartition self.new left_count (node_count self.old)) }
        ensures parted { OnOk result (IsPartedOff self.old self.new nodes.now
            (node_count self.old)) }
        ensures fresh { OnOk result (KeepsFresh self.old self.new (node_count self.old)) }
        ensures grown { OnOk result (IsGrown self.old self.new) }
    {
        let whole = self.class_of[nodes[0] as usize];
        let size = self.counts.size[whole as usize];
        if nodes.len() >= size as usize {
            return Ok(());
        }
        let count = nodes.len() as u32;
        let begin = self.begin[whole as usize];
        let fresh = self.begin.len() as u32;
        self.order
            .pull_out(&mut self.class_of, nodes, begin, size, fresh);
        self.begin.push(begin + (size - count))?;
        self.counts
            .split_off(whole, count, count_below(nodes, left_count))?;
        self.marks.split_off(whole, count <= size - count)?;
        Ok(())
    }
}

// How many of the nodes are below a number.
fn count_below(nodes: &[u32], end: u32) -> u32
    requires { length nodes.now < 2 ^ 32 }
    ensures { result ≡ count_by (λ a. nat_lt a end) nodes.now }
{
    let mut count = 0;
    for i in 0..nodes.len() {
        if nodes[i] < end {
            count += 1;
        }
    }
    count
}
