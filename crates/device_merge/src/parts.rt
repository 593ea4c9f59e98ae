//! Which transistors each merged one is made of.

ghost use Rattle.std.specs.Prelude.{◌≡◌, ◌∷◌, ◌++◌, List, [], IfOk, OnOk, map};
ghost use Rattle.merge_laws.specs.Grouped.{Group, groups, with_device};
ghost use Rattle.net_model.specs.Rows.{plain_device};
ghost use Rattle.device_merge.specs.Merging.{placed};
ghost use Rattle.device_merge.specs.Parts.{IsParting, joined_at, place_lists, places_of};

use crate::keys::Keys;
use list_base::number;
use net_model::DeviceRow;
use std::alloc::{AllocError, Global};

// What alike transistors have in common, and of each group the places of its transistors.
#[derive(Drop)]
struct Parting<'a> {
    keys: Keys<'a>,
    places: Vec<Vec<u32>>,
}

fn alone(alloc: Global, place: u32) -> Result<Vec<u32>, AllocError>
    ensures { IfOk result (λ list. list.items ≡ place ∷ []) }
{
    let mut list = Vec::new(alloc);
    list.push(place)?;
    Ok(list)
}

fn keep(places: &mut Vec<Vec<u32>>, list: Vec<u32>) -> Result<(), AllocError>
    ensures { OnOk result (place_lists places.new.items
        ≡ place_lists places.old.items ++ list.items ∷ []) }
{
    places.push(list)?;
    Ok(())
}

// Adds a place to the list of this number, or as a list of its own behind all.
fn join(alloc: Global, places: &mut Vec<Vec<u32>>, at: usize, place: u32) -> Result<(), AllocError>
    ensures { OnOk result (place_lists places.new.items
        ≡ joined_at at place (place_lists places.old.items)) }
{
    if at < places.len() {
        places[at].push(place)?;
        return Ok(());
    }
    let list = alone(alloc, place)?;
    keep(places, list)?;
    Ok(())
}

impl<'a> Parting<'a> {
    // Adds a transistor to the group of those alike to it, or as a group of its own.
    fn add(&mut self, alloc: Global, row: &'a DeviceRow, place: u32) -> Result<(), AllocError>
        ensures { OnOk result ((gs : List Group) → IsParting self.old gs
            → IsParting self.new (with_device gs (placed place (plain_device row.now)))) }
    {
        let at = self.keys.place(row);
        if at < self.places.len() {
            join(alloc, &mut self.places, at, place)?;
            return Ok(());
        }
        self.keys.add(row)?;
        join(alloc, &mut self.places, at, place)?;
        Ok(())
    }
}

/// For each transistor that `merge` makes of these, the places of those that it is made of, the
/// first first. Linear: alike transistors are found by a hash.
pub fn merged_parts(alloc: Global, devices: &[DeviceRow]) -> Result<Vec<Vec<u32>>, AllocError>
    ensures { IfOk result (λ parts. place_lists parts.items
        ≡ map places_of (groups (map plain_device devices.now))) }
{
    number(devices.len())?;
    let mut parting = Parting {
        keys: Keys::new(alloc),
        places: Vec::new(alloc),
    };
    let mut place = 0;
    let mut rest = devices;
    'devices: while let [row, more @ ..] = rest {
        parting.add(alloc, row, place)?;
        place += 1;
        rest = more;
    }
    Ok(parting.places)
}
