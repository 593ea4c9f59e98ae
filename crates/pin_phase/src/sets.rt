//! The tags of each net of a cell.
ghost use Rattle.std.specs.Prelude.{◌≡◌, ◌<◌, ◌↔◌, ℕ, List, true, false, get_or, length, map, IfOk};
ghost use Rattle.std.specs.Prelude.{OnOk};
ghost use Rattle.deep_tables.specs.Pins.{name_in};
ghost use Rattle.pin_phase.specs.Bases.{AreBasesOf};
ghost use Rattle.pin_phase.specs.Sets.{Adds, HasAny, HaveNone};

use crate::bases::base_name;
use crate::tags::Tag;
use net_names::Name;
use std::alloc::{AllocError, Global};
use std::marker::Model;

/// The tags of each net of a cell, in any order, and perhaps more than once.
#[derive(Drop)]
pub struct NetTags {
    lists: Vec<Vec<Tag>>,
}

impl Model for NetTags {
    ghost use Rattle.std.specs.Prelude.{ℕ, List, map};

    ghost Value = { List (List (List ℕ)) };

    ghost view = { λ t. map (λ tags. tags.items) t.lists.items };
}

impl NetTags {
    /// So many nets without a tag.
    pub fn new(alloc: Global, nets: u32) -> Result<NetTags, AllocError>
        ensures { IfOk result (HaveNone nets) }
    {
        let mut lists = Vec::with_capacity(alloc, nets as usize)?;
        for _ in 0..nets {
            lists.push(Vec::new(alloc))?;
        }
        Ok(NetTags { lists })
    }

    /// Gives a net one tag more.
    pub fn add(&mut self, net: u32, tag: Tag) -> Result<(), AllocError>
        requires { net < length self.old }
        ensures { OnOk result (Adds (λ (x : ℕ) (s : List ℕ). (x ≡ net) × (s ≡ tag)) self.old
            self.new) }
    {
        self.lists[net as usize].push(tag)?;
        Ok(())
    }

    /// Which nets have a tag.
    pub fn marks(&self, alloc: Global) -> Result<Vec<bool>, AllocError>
        ensures count { IfOk result (λ v. length v.items ≡ length self.now) }
        ensures each { IfOk result (λ v. (x : ℕ) → (get_or v.items x false ≡ true)
            ↔ HasAny self.now x) }
    {
        let mut marks = Vec::with_capacity(alloc, self.lists.len())?;
        for tags in &self.lists {
            marks.push(!tags.is_empty())?;
        }
        Ok(marks)
    }

    /// The base name of each net; none where it is empty. About O(n log n) for n tags.
    pub fn bases(self, alloc: Global) -> Result<Vec<Option<Name>>, AllocError>
        ensures { IfOk result (λ names. AreBasesOf self (map name_in names.items)) }
    {
        let mut names = Vec::with_capacity(alloc, self.lists.len())?;
        for tags in self.lists {
            let name = base_name(alloc, tags)?;
            names.push(name)?;
        }
        Ok(names)
    }
}
