//! The base name of a net: its tags, each once, in byte order, joined by commas.
ghost use Rattle.std.specs.Prelude.{◌≡◌, ◌↔◌, ℕ, List, IfOk};
ghost use Rattle.plain_netlist.specs.Lists.{AreRising, IsListed};
ghost use Rattle.flat_layout.specs.Pins.{IsTextBefore, with_commas};
ghost use Rattle.deep_tables.specs.Pins.{name_in};
ghost use Rattle.pin_phase.specs.Bases.{IsBaseOf};

use crate::tags::Tag;
use net_names::Name;
use std::alloc::{AllocError, Global};

// Each tag once, in byte order.
fn in_order(mut tags: Vec<Tag>) -> Vec<Tag>
    ensures each { (s : List ℕ) → IsListed s result.items ↔ IsListed s tags.items }
    ensures rising { AreRising IsTextBefore result.items }
{
    tags.sort_unstable();
    tags.dedup();
    tags
}

// The tags, joined by commas.
fn joined(alloc: Global, tags: &[Tag]) -> Result<Vec<u8>, AllocError>
    ensures { IfOk result (λ text. text.items ≡ with_commas tags.now) }
{
    let mut text = Vec::new(alloc);
    for i in 0..tags.len() {
        if 0 < i {
            text.push(b',')?;
        }
        text.extend_from_slice(tags[i].bytes())?;
    }
    Ok(text)
}

/// The base name of a net from its tags, which may stand in any order and be equal; none where it
/// is empty. About O(n log n) for n tags.
pub fn base_name(alloc: Global, tags: Vec<Tag>) -> Result<Option<Name>, AllocError>
    ensures { IfOk result (λ name. IsBaseOf tags.items (name_in name)) }
{
    let once = in_order(tags);
    let text = joined(alloc, &once)?;
    if text.is_empty() {
        return Ok(None);
    }
    Ok(Some(Name::from_vec(text)))
}
