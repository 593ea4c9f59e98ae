//! Names of one or more bytes, their order, and their folding to capitals.

ghost use Rattle.std.specs.Prelude.{◌≡◌, ◌<◌, ◌↔◌, length, IfOk, IfSome, IsNone, Some, nat_eq};
ghost use Rattle.std.specs.Prelude.{refl, [], map};
ghost use Rattle.std.specs.Ordering.{nat_cmp};
ghost use Rattle.std.specs.Cmp.Lexicographic.{pointwise, slice_cmp, nat_list_eq_equiv};
ghost use Rattle.std.specs.Cmp.Lexicographic.{nat_list_cmp_total, texts_ties, texts_po};
ghost use Rattle.std.specs.Cmp.{partial_equiv_from_equiv};
ghost use Rattle.net_names.specs.Folding.{folded_byte, folded_bytes};

use std::alloc::{AllocError, Global};
use std::cmp::Ordering;
use std::marker::Model;

/// A name of one or more bytes, of any value. Names are equal and ordered as their bytes are.
#[derive(Debug, Drop)]
pub struct Name {
    bytes: Vec<u8>,
}

impl Model for Name {
    ghost use Rattle.std.specs.Prelude.{ℕ, List, length, ◌<◌};

    ghost Value = { List ℕ };

    ghost view = { λ n. n.bytes.items };

    ghost invariant = { λ n. 0 < length n.bytes.items };
}

impl Name {
    /// The name of these bytes, or none where there are no bytes.
    pub fn from_bytes(alloc: Global, bytes: &[u8]) -> Result<Option<Name>, AllocError>
        ensures none { IfOk result (λ found. IsNone found ↔ (bytes.now ≡ [])) }
        ensures same { IfOk result (λ found. IfSome found (λ name. name ≡ bytes.now)) }
    {
        if bytes.is_empty() {
            return Ok(None);
        }
        Ok(Some(Name::from_vec(bytes.to_vec(alloc)?)))
    }

    /// The name of these bytes, which it keeps. It takes no memory.
    pub fn from_vec(bytes: Vec<u8>) -> Name
        requires { 0 < length bytes.items }
        ensures { result ≡ bytes.items }
    {
        Name { bytes }
    }

    /// The bytes, of which there is at least one.
    pub fn bytes(&self) -> &[u8]
        ensures same { result.now ≡ self.now }
        ensures some { 0 < length self.now }
    {
        self.bytes.as_slice()
    }

    /// The same name once more.
    pub fn try_clone(&self, alloc: Global) -> Result<Name, AllocError>
        ensures { IfOk result (λ name. name ≡ self.now) }
    {
        Ok(Name::from_vec(self.bytes().to_vec(alloc)?))
    }
}

/// The name with the letters a to z made A to Z, as SPICE reads names.
pub fn folded(alloc: Global, name: &Name) -> Result<Name, AllocError>
    ensures { IfOk result (λ n. n ≡ folded_bytes name.now) }
{
    let bytes = name.bytes().iter().map(|b| folded_byte(*b)).collect(alloc)?;
    Ok(Name::from_vec(bytes))
}

fn folded_byte(b: u8) -> u8
    ensures { result ≡ folded_byte b }
{
    match b {
        b'a'..=b'z' => b - 32,
        _ => b,
    }
}

impl PartialEq for Name {
    ghost eq = { pointwise nat_eq };

    ghost laws = { partial_equiv_from_equiv nat_list_eq_equiv };

    fn eq(&self, other: &Name) -> bool {
        self.bytes() == other.bytes()
    }
}

impl Eq for Name {
    ghost laws = { nat_list_eq_equiv };
}

impl PartialOrd for Name {
    ghost partial_cmp = { λ a b. Some (slice_cmp nat_cmp a b) };

    ghost laws = { texts_po };

    fn partial_cmp(&self, other: &Name) -> Option<Ordering> {
        Some(self.cmp(other))
    }
}

impl Ord for Name {
    ghost cmp = { slice_cmp nat_cmp };

    ghost total = { nat_list_cmp_total };

    ghost matches_partial_cmp = { λ a b. refl };

    ghost matches_eq = { texts_ties };

    fn cmp(&self, other: &Name) -> Ordering {
        self.bytes().cmp(&other.bytes())
    }
}
