//! Trees of numbers that links join: union by rank, with path halving.

ghost use Rattle.std.specs.Prelude.{◌≡◌, ◌≢◌, ◌<◌, ◌≤◌, ◌^◌, length, get_or, set, IfOk};
ghost use Rattle.link_classes.specs.Forest.{AreAlone, AreNumbered, InOneTree, IsForest, IsTop};
ghost use Rattle.link_classes.specs.Forest.{IsJoinedBy, SameTrees};

use crate::classes::{Classes, Link};
use std::alloc::{AllocError, Global};

/// Trees of numbers: each number's parent, and a rank that rises on the way up. The number at a
/// tree's top is its own parent.
#[derive(Drop)]
pub struct Forest {
    parent: Vec<u32>,
    rank: Vec<u32>,
}

impl Forest {
    /// Each number below `n` a tree of its own.
    pub fn new(alloc: Global, n: u32) -> Result<Self, AllocError>
        ensures alone { IfOk result (λ f. AreAlone f.parent.items n) }
        ensures forest { IfOk result (λ f. IsForest f.parent.items f.rank.items) }
    {
        let mut parent = Vec::new(alloc);
        let mut rank = Vec::new(alloc);
        for i in 0..n {
            parent.push(i)?;
            rank.push(0)?;
        }
        Ok(Forest { parent, rank })
    }

    /// The number at the top of the tree of `start`. Each number on the way is hung on the next but
    /// one (path halving).
    fn top(&mut self, start: u32) -> u32
        requires forest { IsForest self.old.parent.items self.old.rank.items }
        requires in_range { start < length self.old.parent.items }
        ensures forest { IsForest self.new.parent.items self.new.rank.items }
        ensures same { SameTrees self.old.parent.items self.new.parent.items }
        ensures top { IsTop self.new.parent.items result }
        ensures joined { InOneTree self.new.parent.items start result }
    {
        let mut x = start;
        while self.parent[x as usize] != x {
            let up = self.parent[self.parent[x as usize] as usize];
            self.parent[x as usize] = up;
            x = up;
        }
        x
    }

    /// Hangs one top on another, whose rank is no lower.
    fn hang(&mut self, low: u32, high: u32)
        requires forest { IsForest self.old.parent.items self.old.rank.items }
        requires low { IsTop self.old.parent.items low }
        requires high { IsTop self.old.parent.items high }
        requires apart { low ≢ high }
        requires rank { get_or self.old.rank.items low 0 ≤ get_or self.old.rank.items high 0 }
        requires short { length self.old.parent.items < 2 ^ 32 }
        ensures forest { IsForest self.new.parent.items self.new.rank.items }
        ensures hung { self.new.parent.items ≡ set self.old.parent.items low high }
    {
        if self.rank[low as usize] == self.rank[high as usize] {
            self.rank[high as usize] += 1;
        }
        self.parent[low as usize] = high;
    }

    /// Joins the trees of the link's two ends, the lower under the higher.
    pub fn join(&mut self, link: Link)
        requires forest { IsForest self.old.parent.items self.old.rank.items }
        requires one { link.one < length self.old.parent.items }
        requires other { link.other < length self.old.parent.items }
        requires short { length self.old.parent.items < 2 ^ 32 }
        ensures forest { IsForest self.new.parent.items self.new.rank.items }
        ensures joined { IsJoinedBy self.old.parent.items link self.new.parent.items }
    {
        let a = self.top(link.one);
        let b = self.top(link.other);
        if a != b {
            if self.rank[a as usize] < self.rank[b as usize] {
                self.hang(a, b);
            } else {
                self.hang(b, a);
            }
        }
    }

    /// Numbers the trees from 0 by their least members.
    pub fn number(mut self, alloc: Global) -> Result<Classes, AllocError>
        requires forest { IsForest self.parent.items self.rank.items }
        requires short { length self.parent.items < 2 ^ 32 }
        ensures { IfOk result (λ c. AreNumbered self.parent.items c.class_of.items c.count) }
    {
        let n = self.parent.len();
        let mut class_at: Vec<Option<u32>> = Vec::new(alloc);
        for _ in 0..n {
            class_at.push(None)?;
        }
        let mut class_of = Vec::new(alloc);
        let mut count: u32 = 0;
        for i in 0..n {
            let top = self.top(i as u32) as usize;
            match class_at[top] {
                Some(class) => class_of.push(class)?,
                None => {
                    class_at[top] = Some(count);
                    class_of.push(count)?;
                    count += 1;
                }
            }
        }
        Ok(Classes { class_of, count })
    }
}
