//! What alike devices have in common, found by its hash.

ghost use Rattle.std.specs.Prelude.{◌≡◌, ℕ, List, [], ◌∷◌, ◌++◌, length, map, OnOk};
ghost use Rattle.fixed_num.specs.declared.femto.Femto.{Femto};
ghost use Rattle.merge_laws.specs.Grouped.{Group};
ghost use Rattle.merge_laws.specs.Merge.{may_merge};
ghost use Rattle.net_model.specs.Rows.{plain_device};
ghost use Rattle.device_merge.specs.Keys.{AreKeys, IsKey, lone, place_of};

use fixed_num::Femto;
use indexmap::IndexSet;
use net_model::DeviceRow;
use plain_netlist::DeviceKind;
use std::alloc::{AllocError, Global};
use std::marker::Model;

/// What alike devices have in common: the kind, the class, the size that stays when they become
/// one, and the nets, those of the two ends in the order of their numbers; and the place of one
/// that is alike to no other.
#[derive(Clone, Copy, Debug, PartialEq, Eq, Hash)]
pub struct DeviceKey<'a> {
    kind: DeviceKind,
    class: &'a [u8],
    kept: u128,
    low: u32,
    high: u32,
    third: u32,
    fourth: u32,
    alone: Option<usize>,
}

/// Whether alike devices of the kind and class become one: transistors of a class whose first byte
/// is above 32.
pub fn may_merge(kind: DeviceKind, class: &[u8]) -> bool
    ensures { result ≡ may_merge kind class.now }
{
    match kind {
        DeviceKind::Mos4 => match class {
            [byte, ..] => *byte > 32,
            [] => false,
        },
        _ => false,
    }
}

/// Of the sizes of a device that which stays, and that which adds, when alike ones become one: of a
/// transistor length and width.
pub fn kept_and_added(sizes: [Femto; 2]) -> (Femto, Femto)
    ensures { map (λ (f : Femto). f.0) sizes ≡ result.0.0 ∷ result.1.0 ∷ [] }
{
    let [kept, added] = sizes;
    (kept, added)
}

/// The key of a device that would stand at this place.
pub fn key_of<'a>(row: &'a DeviceRow, place: usize) -> DeviceKey<'a>
    ensures { IsKey result place (plain_device row.now) }
{
    let class = row.class.bytes();
    let (kept, _) = kept_and_added(row.sizes);
    let (a, b) = (row.nets[2], row.nets[0]);
    let (low, high) = if a < b { (a, b) } else { (b, a) };
    DeviceKey {
        kind: row.kind,
        class,
        kept: kept.0,
        low,
        high,
        third: row.nets[1],
        fourth: row.nets[3],
        alone: if may_merge(row.kind, class) {
            None
        } else {
            Some(place)
        },
    }
}

/// The keys of the groups of alike devices, in the order of the groups.
pub struct Keys<'a> {
    keys: IndexSet<DeviceKey<'a>>,
}

// Written out, so that its owners drop it by one call.
impl Drop for Keys<'_> {
    fn drop(self) {
        let Keys { keys: _ } = self;
    }
}

impl<'a> Model for Keys<'a> {
    ghost use Rattle.std.specs.Prelude.{List};
    ghost use Rattle.device_merge.specs.declared.keys.DeviceKey.{DeviceKey};

    ghost Value = { List DeviceKey };

    ghost view = { λ t. t.keys.keys };
}

impl<'a> Keys<'a> {
    pub fn new(alloc: Global) -> Keys<'a>
        ensures { AreKeys 0 result [] }
    {
        Keys {
            keys: IndexSet::new(alloc),
        }
    }

    /// The place of the group that the device joins, or the number of groups. O(1) on the
    /// average.
    pub fn place(&self, row: &DeviceRow) -> usize
        ensures { (gs : List Group) → AreKeys 0 self.now gs
            → result ≡ place_of gs (plain_device row.now) }
    {
        let count = self.keys.len();
        self.keys.get_index_of(&key_of(row, count)).unwrap_or(count)
    }

    /// Adds the group of a device that joins none. O(1) on the average.
    pub fn add(&mut self, row: &'a DeviceRow) -> Result<(), AllocError>
        ensures { OnOk result ((gs : List Group) → AreKeys 0 self.old gs
            → place_of gs (plain_device row.now) ≡ length gs
            → (place : ℕ) → AreKeys 0 self.new (gs ++ lone place (plain_device row.now) ∷ [])) }
    {
        self.keys.insert(key_of(row, self.keys.len()))?;
        Ok(())
    }
}
