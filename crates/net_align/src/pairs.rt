//! The pairs of circuits that are compared.
ghost use Rattle.std.specs.Prelude.{◌≡◌, IfOk, length, slice_index_or, false};
ghost use Rattle.net_align.specs.Paired.{ArePairsBelow, are_compared, compared_partner};

use list_base::number;
use std::alloc::{AllocError, Global};

/// The circuits of the layout and of the schematic that are compared, by the numbers of the pairs.
#[derive(Drop)]
pub struct Pairs {
    pub lefts: Vec<u32>,
    pub rights: Vec<u32>,
}

/// For each side, which circuits are called from its top, and which have devices.
#[derive(Clone, Copy)]
pub struct Marks<'a> {
    pub left_reached: &'a [bool],
    pub left_holds: &'a [bool],
    pub right_reached: &'a [bool],
    pub right_holds: &'a [bool],
}

/// The pairs of partners that are called from the tops and are the tops or have devices, in the
/// order of the layout's circuits. `of` has the partner of each. Linear.
pub fn find_pairs(
    alloc: Global,
    of: &[Option<usize>],
    top: usize,
    marks: &Marks<'_>,
) -> Result<Pairs, AllocError>
    ensures { IfOk result (λ pairs. ArePairsBelow of.now
        (are_compared top marks.now.left_reached.now marks.now.left_holds.now
        marks.now.right_reached.now marks.now.right_holds.now)
        (length of.now) pairs.lefts.items pairs.rights.items) }
{
    let mut lefts = Vec::new(alloc);
    let mut rights = Vec::new(alloc);
    for a in 0..of.len() {
        if let Some(b) = compared_partner(top, marks, a, of[a]) {
            lefts.push(number(a)?)?;
            rights.push(number(b)?)?;
        }
    }
    Ok(Pairs { lefts, rights })
}

fn compared_partner(top: usize, marks: &Marks<'_>, a: usize, of: Option<usize>) -> Option<usize>
    ensures { result ≡ compared_partner
        (are_compared top marks.now.left_reached.now marks.now.left_holds.now
        marks.now.right_reached.now marks.now.right_holds.now) a of }
{
    match of {
        None => None,
        Some(b) => {
            if are_compared(top, marks, a, b) {
                Some(b)
            } else {
                None
            }
        }
    }
}

fn are_compared(top: usize, marks: &Marks<'_>, a: usize, b: usize) -> bool
    ensures { result ≡ are_compared top marks.now.left_reached.now marks.now.left_holds.now
        marks.now.right_reached.now marks.now.right_holds.now a b }
{
    is_set(marks.left_reached, a)
        && is_set(marks.right_reached, b)
        && (a == top || (is_set(marks.left_holds, a) && is_set(marks.right_holds, b)))
}

fn is_set(marks: &[bool], c: usize) -> bool
    ensures { result ≡ slice_index_or marks.now c false }
{
    match marks.get(c) {
        Some(mark) => *mark,
        None => false,
    }
}
