//! Tags of nets: the strings of texts, and the names of globals.
ghost use Rattle.std.specs.Prelude.{◌≡◌, IfOk, Some, nat_eq, refl};
ghost use Rattle.std.specs.Ordering.{nat_cmp};
ghost use Rattle.std.specs.Cmp.Lexicographic.{pointwise, slice_cmp, nat_list_eq_equiv};
ghost use Rattle.std.specs.Cmp.Lexicographic.{nat_list_cmp_total, texts_ties, texts_po};
ghost use Rattle.std.specs.Cmp.{partial_equiv_from_equiv};

use std::alloc::{AllocError, Global};
use std::cmp::Ordering;
use std::marker::Model;

/// What names a net: any number of bytes, of any value. Tags are equal and ordered as their bytes
/// are.
#[derive(Debug, Drop)]
pub struct Tag {
    bytes: Vec<u8>,
}

impl Model for Tag {
    ghost use Rattle.std.specs.Prelude.{ℕ, List};

    ghost Value = { List ℕ };

    ghost view = { λ t. t.bytes.items };
}

impl Tag {
    /// The tag of these bytes.
    pub fn new(alloc: Global, bytes: &[u8]) -> Result<Tag, AllocError>
        ensures { IfOk result (λ tag. tag ≡ bytes.now) }
    {
        Ok(Tag {
            bytes: bytes.to_vec(alloc)?,
        })
    }

    /// The bytes.
    pub fn bytes(&self) -> &[u8]
        ensures { result.now ≡ self.now }
    {
        self.bytes.as_slice()
    }
}

impl PartialEq for Tag {
    ghost eq = { pointwise nat_eq };

    ghost laws = { partial_equiv_from_equiv nat_list_eq_equiv };

    fn eq(&self, other: &Tag) -> bool {
        self.bytes() == other.bytes()
    }
}

impl Eq for Tag {
    ghost laws = { nat_list_eq_equiv };
}

impl PartialOrd for Tag {
    ghost partial_cmp = { λ a b. Some (slice_cmp nat_cmp a b) };

    ghost laws = { texts_po };

    fn partial_cmp(&self, other: &Tag) -> Option<Ordering> {
        Some(self.cmp(other))
    }
}

impl Ord for Tag {
    ghost cmp = { slice_cmp nat_cmp };

    ghost total = { nat_list_cmp_total };

    ghost matches_partial_cmp = { λ a b. refl };

    ghost matches_eq = { texts_ties };

    fn cmp(&self, other: &Tag) -> Ordering {
        self.bytes().cmp(&other.bytes())
    }
}
