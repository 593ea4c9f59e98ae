//! How many nodes each class has, how many of them are left ones, and whether one is uneven.

ghost use Rattle.std.specs.Prelude.{◌≡◌, ◌*◌, ◌≢◌, true};

use std::alloc::AllocError;

/// How many nodes each class has, and how many of them are left ones.
#[derive(Drop)]
pub struct Counts {
    pub size: Vec<u32>,
    pub left: Vec<u32>,
    /// Whether a class has more nodes of one side than of the other.
    pub is_uneven: bool,
}

impl Counts {
    ghost use Rattle.std.specs.Prelude.{◌≡◌, ◌<◌, ◌≤◌, length, slice_index, OnOk};
    ghost use Rattle.match_rounds.specs.Counts.{AreFlagged, AreSplit};

    /// Makes so many nodes of a class, and so many left ones of them, the last class.
    pub fn split_off(&mut self, whole: u32, size: u32, left: u32) -> Result<(), AllocError>
        requires flagged { AreFlagged self.old }
        requires whole { whole < length self.old.size.items }
        requires size { size ≤ slice_index self.old.size.items whole }
        requires left { left ≤ slice_index self.old.left.items whole }
        ensures flagged { OnOk result (AreFlagged self.new) }
        ensures split { OnOk result (AreSplit self.old self.new whole size left) }
    {
        let w = whole as usize;
        let rest = self.size[w] - size;
        let rest_left = self.left[w] - left;
        self.size[w] = rest;
        self.size.push(size)?;
        self.left[w] = rest_left;
        self.left.push(left)?;
        self.is_uneven = self.is_uneven | is_uneven(rest_left, rest) | is_uneven(left, size);
        Ok(())
    }
}

// Whether the counts of left and right nodes differ.
fn is_uneven(left: u32, size: u32) -> bool
    ensures yes { result ≡ true → 2 * left ≢ size }
    ensures no { 2 * left ≢ size → result ≡ true }
{
    2 * (left as u64) != size as u64
}
