//! Colours of nodes, parted by what is around them until nothing changes.

use crate::graph::Graph;
use crate::keys::{Key, class_end, group_end, mixed};
use std::alloc::{AllocError, Global};
use std::mem;

// How many left and right nodes have a colour, and all that had it.
#[derive(Drop)]
struct Class {
    lefts: u32,
    rights: u32,
    members: Vec<u32>,
}

/// The colour of each node; none where the nodes of its colour were of one side alone.
#[derive(Drop)]
pub struct Colours {
    of: Vec<Option<u32>>,
    classes: Vec<Class>,
    left_count: u32,
}

impl Colours {
    // No colours yet.
    fn none(alloc: Global, graph: &Graph) -> Result<Colours, AllocError> {
        let of = vec![in alloc; None; graph.count() as usize]?;
        Ok(Colours {
            of,
            classes: Vec::new(alloc),
            left_count: graph.left.end(),
        })
    }

    /// The colours of nodes that look alike: those of a group have one. Takes the time of ordering
    /// the keys.
    pub fn of_groups(
        alloc: Global,
        graph: &Graph,
        keys: &mut Vec<Key>,
    ) -> Result<Colours, AllocError> {
        let mut colours = Colours::none(alloc, graph)?;
        let mut moved = Vec::new(alloc);
        keys.sort_unstable();
        let mut i = 0;
        while i < keys.len() {
            let end = group_end(keys, i);
            colours.add_class(alloc, &keys[i..end], &mut moved)?;
            i = end;
        }
        Ok(colours)
    }

    pub fn of(&self, node: u32) -> Option<u32> {
        match self.of.get(node as usize) {
            Some(colour) => *colour,
            None => None,
        }
    }

    // Counts a node of a colour in or out.
    fn count(&mut self, colour: u32, node: u32, into: bool) {
        let is_left = node < self.left_count;
        let Some(class) = self.classes.get_mut(colour as usize) else {
            return;
        };
        let counted = if is_left {
            &mut class.lefts
        } else {
            &mut class.rights
        };
        *counted = if into {
            counted.wrapping_add(1)
        } else {
            counted.wrapping_sub(1)
        };
    }

    fn set(&mut self, node: u32, colour: Option<u32>) {
        if let Some(place) = self.of.get_mut(node as usize) {
            *place = colour;
        }
    }

    // Gives a group a new colour.
    fn add_class(
        &mut self,
        alloc: Global,
        group: &[Key],
        moved: &mut Vec<u32>,
    ) -> Result<(), AllocError> {
        let colour = list_base::number(self.classes.len())?;
        let mut members = Vec::new(alloc);
        for key in group {
            members.push(key.node)?;
            moved.push(key.node)?;
        }
        self.classes.push(Class {
            lefts: 0,
            rights: 0,
            members,
        })?;
        for key in group {
            if let Some(old) = self.of(key.node) {
                self.count(old, key.node, false);
            }
            self.set(key.node, Some(colour));
            self.count(colour, key.node, true);
        }
        self.settle(alloc, colour, moved)
    }

    // Takes a colour from its nodes where they are of one side alone.
    fn settle(
        &mut self,
        alloc: Global,
        colour: u32,
        moved: &mut Vec<u32>,
    ) -> Result<(), AllocError> {
        let Some(class) = self.classes.get_mut(colour as usize) else {
            return Ok(());
        };
        if class.lefts > 0 && class.rights > 0 {
            return Ok(());
        }
        let members = mem::replace(&mut class.members, Vec::new(alloc));
        for node in &members {
            if self.of(*node) == Some(colour) {
                self.set(*node, None);
                moved.push(*node)?;
            }
        }
        Ok(())
    }

    // How many nodes have a colour; none where no more can be parted off.
    fn size_to_part(&self, colour: u32) -> Option<usize> {
        let class = self.classes.get(colour as usize)?;
        if class.lefts == 1 && class.rights == 1 {
            return None;
        }
        Some((class.lefts as usize).saturating_add(class.rights as usize))
    }

    // Parts the nodes of one colour that are listed here from each other and from the rest.
    fn part_class(
        &mut self,
        alloc: Global,
        keys: &[Key],
        colour: u32,
        moved: &mut Vec<u32>,
    ) -> Result<(), AllocError> {
        let Some(size) = self.size_to_part(colour) else {
            return Ok(());
        };
        let mut i = 0;
        if keys.len() == size && size > 0 {
            i = group_end(keys, 0);
        }
        while i < keys.len() {
            let end = group_end(keys, i);
            self.add_class(alloc, &keys[i..end], moved)?;
            i = end;
        }
        self.settle(alloc, colour, moved)
    }

    // Parts all classes by what is around their nodes that are listed here; which nodes changed.
    fn part(&mut self, alloc: Global, keys: &[Key]) -> Result<Vec<u32>, AllocError> {
        let mut moved = Vec::new(alloc);
        let mut i = 0;
        while i < keys.len() {
            let end = class_end(keys, i);
            if let Some(colour) = self.of(keys[i].node) {
                self.part_class(alloc, &keys[i..end], colour, &mut moved)?;
            }
            i = end;
        }
        Ok(moved)
    }

    // What the colours around a node add up to.
    fn around(&self, graph: &Graph, node: u32) -> u64 {
        let mut sum: u64 = 0;
        for end in graph.ends(node) {
            if let Some(colour) = self.of(end.other) {
                sum = sum.wrapping_add(mixed(end.port, u64::from(colour)));
            }
        }
        sum
    }

    // These nodes with their colours and what is around them, in order, each once: but for those
    // of a colour that can't be parted, such as a supply that both sides name, of very many ends.
    fn keys_of(&self, alloc: Global, graph: &Graph, nodes: &[u32]) -> Result<Vec<Key>, AllocError> {
        let mut keys = Vec::new(alloc);
        for node in nodes {
            if let Some(colour) = self.of(*node) {
                if self.size_to_part(colour).is_some() {
                    keys.push(Key {
                        class: u64::from(colour),
                        around: self.around(graph, *node),
                        node: *node,
                    })?;
                }
            }
        }
        keys.sort_unstable();
        keys.dedup();
        Ok(keys)
    }

    /// Parts the colours until nothing changes. Only nodes beside changed ones are looked at.
    pub fn refine(&mut self, alloc: Global, graph: &Graph) -> Result<(), AllocError> {
        let mut nodes = Vec::new(alloc);
        for node in 0..graph.count() {
            nodes.push(node)?;
        }
        let limit = u64::from(graph.count()) * 2 + 2;
        for _ in 0..limit {
            if nodes.is_empty() {
                break;
            }
            let keys = self.keys_of(alloc, graph, &nodes)?;
            let moved = self.part(alloc, &keys)?;
            nodes = graph.neighbours(alloc, &moved)?;
        }
        Ok(())
    }
}
