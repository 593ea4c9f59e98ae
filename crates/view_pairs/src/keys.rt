//! Nodes in groups that look alike, and the partners that a group gives.

ghost use Rattle.std.specs.Prelude.{◌<◌, ◌≤◌, length};

use crate::partners::Partner;
use std::alloc::{AllocError, Global};

/// A node, with what it looks like: its class, and what is around it.
#[derive(Clone, Copy, PartialEq, Eq, PartialOrd, Ord, Debug)]
pub struct Key {
    pub class: u64,
    pub around: u64,
    pub node: u32,
}

/// Two numbers mixed into one, so that sums of such numbers tell lists of pairs apart.
pub fn mixed(a: u64, b: u64) -> u64 {
    let first = (a ^ 0x9E37_79B9_7F4A_7C15).wrapping_mul(0xBF58_476D_1CE4_E5B9);
    let second = (b ^ (first >> 31)).wrapping_mul(0x94D0_49BB_1331_11EB);
    (second ^ (second >> 29)).wrapping_add(first)
}

/// Where the keys end that look like this one.
pub fn group_end(keys: &[Key], from: usize) -> usize
    requires { from < length keys.now }
    ensures behind { from < result }
    ensures within { result ≤ length keys.now }
{
    for i in from + 1..keys.len() {
        if keys[i].class != keys[from].class || keys[i].around != keys[from].around {
            return i;
        }
    }
    keys.len()
}

/// Where the keys end that have the class of this one.
pub fn class_end(keys: &[Key], from: usize) -> usize
    requires { from < length keys.now }
    ensures behind { from < result }
    ensures within { result ≤ length keys.now }
{
    for i in from + 1..keys.len() {
        if keys[i].class != keys[from].class {
            return i;
        }
    }
    keys.len()
}

/// Which nodes of a group become partners: the left one and the right one where there are no more,
/// or all in order, tied or not.
#[derive(Clone, Copy, PartialEq, Eq, Debug)]
pub enum Choice {
    Lone,
    InOrder { tied: bool },
}

/// The partner of each node of both sides, by the numbers of all nodes.
#[derive(Drop)]
pub struct Mates {
    of: Vec<Option<Partner>>,
    left_count: u32,
}

impl Mates {
    /// No partners among so many nodes, of which so many are left ones.
    pub fn none(alloc: Global, left_count: u32, count: u32) -> Result<Mates, AllocError> {
        let of = vec![in alloc; None; count as usize]?;
        Ok(Mates { of, left_count })
    }

    pub fn of(&self, node: u32) -> Option<Partner> {
        match self.of.get(node as usize) {
            Some(mate) => *mate,
            None => None,
        }
    }

    /// A number that both partners have.
    pub fn couple(&self, node: u32) -> Option<u32> {
        let mate = self.of(node)?;
        if node < self.left_count {
            Some(node)
        } else {
            Some(mate.number)
        }
    }

    pub fn is_left(&self, node: u32) -> bool {
        node < self.left_count
    }

    fn set(&mut self, node: u32, mate: u32, tied: bool) {
        if let Some(place) = self.of.get_mut(node as usize) {
            *place = Some(Partner { number: mate, tied });
        }
    }

    // How many keys of a group are of left nodes, which stand first.
    fn lefts_in(&self, group: &[Key]) -> usize
        ensures { result ≤ length group.now }
    {
        for i in 0..group.len() {
            if !self.is_left(group[i].node) {
                return i;
            }
        }
        group.len()
    }

    // The partners that a group of alike nodes gives; whether it gave some.
    fn pair_group(&mut self, group: &[Key], choice: Choice) -> bool {
        let lefts = self.lefts_in(group);
        let rights = group.len() - lefts;
        let tied = match choice {
            Choice::Lone => {
                if lefts != 1 || rights != 1 {
                    return false;
                }
                false
            }
            Choice::InOrder { tied } => tied,
        };
        let count = lefts.min(rights);
        for i in 0..count {
            let left = group[i].node;
            let right = group[lefts + i].node;
            self.set(left, right, tied);
            self.set(right, left, tied);
        }
        count > 0
    }

    /// The partners that alike nodes give, which have none yet; whether there were some. Takes the
    /// time of ordering the keys.
    pub fn pair(&mut self, keys: &mut Vec<Key>, choice: Choice) -> bool {
        keys.sort_unstable();
        let mut found = false;
        let mut i = 0;
        while i < keys.len() {
            let end = group_end(keys, i);
            found |= self.pair_group(&keys[i..end], choice);
            i = end;
        }
        found
    }
}
