//! Which nets of a placed cell are wanted.

ghost use Rattle.std.specs.Prelude.{◌≡◌, ◌+◌, ◌≤◌, IfOk, [], false, get_or, length, map};
ghost use Rattle.view_shapes.specs.Wanted.{AreWantedBelow};

use std::alloc::{AllocError, Global};

/// Whether a net is marked; none past the last.
pub fn is_marked(marks: &[bool], net: u32) -> bool
    ensures { result ≡ get_or marks.now net false }
{
    match marks.get(net as usize) {
        Some(is) => *is,
        None => false,
    }
}

/// The marks of the nets of a cell; none past the last.
pub fn marks_of(marks: &[Vec<bool>], cell: u32) -> &[bool]
    ensures { result.now ≡ get_or (map (λ v. v.items) marks.now) cell [] }
{
    match marks.get(cell as usize) {
        Some(found) => found.as_slice(),
        None => &[],
    }
}

/// Of so many nets of a placed cell, those that are in wanted nets and aren't called; their nets in
/// the cell stand in a list from a place on. Linear in them.
pub fn wanted_below(
    alloc: Global,
    net_of: &[u32],
    at: usize,
    count: u32,
    wanted: &[bool],
    called: &[bool],
) -> Result<Vec<bool>, AllocError>
    requires { at + count ≤ length net_of.now }
    ensures { IfOk result (λ v.
        AreWantedBelow net_of.now at count wanted.now called.now v.items) }
{
    let mut below = Vec::new(alloc);
    'nets: for b in 0..count {
        let is = is_marked(wanted, net_of[at + b as usize]);
        below.push(is && !is_marked(called, b))?;
    }
    Ok(below)
}
