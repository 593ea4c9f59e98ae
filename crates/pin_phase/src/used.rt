//! Nets that are in use above.
ghost use Rattle.std.specs.Prelude.{◌≡◌, ◌⊎◌, ◌↔◌, ◌<◌, ℕ, Some, true, false, get_or, length};
ghost use Rattle.std.specs.Prelude.{slice_get, IfOk};
ghost use Rattle.pin_phase.specs.Sets.{HasAny};
ghost use Rattle.pin_phase.specs.Used.{IsInUse, IsUsedBy};
ghost use Rattle.pin_phase.specs.declared.links.Link.{Link};

use crate::links::Link;
use crate::sets::NetTags;
use deep_tables::CellPins;
use job_graph::Reads;
use net_marks::mark_if;
use std::alloc::{AllocError, Global};

fn is_pin(pins: &CellPins, net: u32) -> bool
    ensures { result ≡ get_or pins.now.pin.items net false }
{
    match pins.pin.get(net as usize) {
        Some(pin) => *pin,
        None => false,
    }
}

// Whether a net is in use above, by one link.
fn is_used<R: Reads<CellPins>>(reads: &R, link: &Link) -> bool
    requires { R.may_read reads.now link.now.job }
    ensures { (result ≡ true) ↔ IsUsedBy (R.value reads.now) link.now }
{
    if link.busy {
        return true;
    }
    is_pin(reads.get(link.job), link.above)
}

// Marks the nets that are items of nets above that have another item, a good gate's terminal, or
// are pins.
fn mark_used<R: Reads<CellPins>>(reads: &R, links: &[Link], marks: &mut [bool])
    requires may { (i : ℕ) (l : Link) → slice_get links.now i ≡ Some l
        → R.may_read reads.now l.job }
    requires nets { (i : ℕ) (l : Link) → slice_get links.now i ≡ Some l
        → l.net < length marks.old }
    ensures count { length marks.new ≡ length marks.old }
    ensures marked { (x : ℕ) → (get_or marks.new x false ≡ true)
        ↔ ((get_or marks.old x false ≡ true) ⊎ IsInUse (R.value reads.now) links.now x) }
{
    for link in links {
        mark_if(link.net, is_used(reads, link), marks);
    }
}

/// Which nets have a tag, or are items of nets above that have another item, a good gate's
/// terminal, or are pins. Linear in the nets and the links.
pub(crate) fn pin_marks<R: Reads<CellPins>>(
    alloc: Global,
    reads: &R,
    tags: &NetTags,
    links: &[Link],
) -> Result<Vec<bool>, AllocError>
    requires may { (i : ℕ) (l : Link) → slice_get links.now i ≡ Some l
        → R.may_read reads.now l.job }
    requires nets { (i : ℕ) (l : Link) → slice_get links.now i ≡ Some l
        → l.net < length tags.now }
    ensures count { IfOk result (λ v. length v.items ≡ length tags.now) }
    ensures marked { IfOk result (λ v. (x : ℕ) → (get_or v.items x false ≡ true)
        ↔ (HasAny tags.now x ⊎ IsInUse (R.value reads.now) links.now x)) }
{
    let mut marks = tags.marks(alloc)?;
    mark_used(reads, links, &mut marks);
    Ok(marks)
}
