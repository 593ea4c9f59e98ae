//! Partners of the nodes of one kind.

ghost use Rattle.std.specs.Prelude.{◌≡◌, true, false, IfOk, length, slice_get};
ghost use Rattle.std.specs.Prelude.{None, Some, replicate};
ghost use Rattle.view_pairs.specs.Partners.{AreFirstTaken, ArePartners, HaveAll, IsClaim};
ghost use Rattle.view_pairs.specs.Partners.{IsClaimed, free_from, meets, partner_in, sure};

use list_base::number;
use std::alloc::{AllocError, Global};

/// A node's right partner, and whether it was taken from several that look alike.
#[derive(Clone, Copy, Debug, PartialEq, Eq)]
pub struct Partner {
    pub number: u32,
    pub tied: bool,
}

/// A left node and the right one that shall be its partner.
#[derive(Clone, Copy, Debug, PartialEq, Eq)]
pub struct Couple {
    pub left: u32,
    pub right: Partner,
}

/// These two, that weren't taken from several.
pub fn sure(left: u32, right: u32) -> Couple
    ensures { result ≡ sure left right }
{
    Couple {
        left,
        right: Partner {
            number: right,
            tied: false,
        },
    }
}

/// The partner of each left node of a kind, if it has one, and the right nodes that are nobody's.
#[derive(Drop)]
pub struct Partners {
    pub lefts: Vec<Option<Partner>>,
    pub free: Vec<u32>,
}

impl Partners {
    /// The right partner of a left node.
    pub fn partner(&self, left: u32) -> Option<u32>
        ensures { result ≡ partner_in self.now left }
    {
        match self.lefts.get(left as usize) {
            Some(Some(partner)) => Some(partner.number),
            Some(None) => None,
            None => None,
        }
    }

    /// Whether these two are partners.
    pub fn meet(&self, left: u32, right: u32) -> bool
        ensures { result ≡ meets self.now left right }
    {
        match self.partner(left) {
            Some(found) => found == right,
            None => false,
        }
    }
}

// Partners so far, and which right nodes are taken.
#[derive(Drop)]
struct Claims {
    lefts: Vec<Option<Partner>>,
    taken: Vec<bool>,
}

impl Claims {
    // None among so many nodes.
    fn none(alloc: Global, lefts: usize, rights: usize) -> Result<Claims, AllocError>
        ensures lefts { IfOk result (λ c. c.lefts.items ≡ replicate lefts None) }
        ensures taken { IfOk result (λ c. c.taken.items ≡ replicate rights false) }
    {
        let none = vec![in alloc; None; lefts]?;
        let taken = vec![in alloc; false; rights]?;
        Ok(Claims { lefts: none, taken })
    }

    // Whether a left node is there and has no partner.
    fn is_lone(&self, left: u32) -> bool
        ensures lone { result ≡ true → slice_get self.now.lefts.items left ≡ Some None }
        ensures not_lone { result ≡ false → slice_get self.now.lefts.items left ≡ Some None → ⊥ }
    {
        match self.lefts.get(left as usize) {
            Some(Some(_)) => false,
            Some(None) => true,
            None => false,
        }
    }

    // Whether a right node is there and nobody's partner.
    fn is_free(&self, right: u32) -> bool
        ensures free { result ≡ true → slice_get self.now.taken.items right ≡ Some false }
        ensures not_free { result ≡ false → slice_get self.now.taken.items right ≡ Some false → ⊥ }
    {
        match self.taken.get(right as usize) {
            Some(is_taken) => !*is_taken,
            None => false,
        }
    }

    // Makes these two partners where neither has one.
    fn claim(&mut self, couple: Couple)
        requires { IsClaimed self.old.lefts.items self.old.taken.items }
        ensures claimed { IsClaimed self.new.lefts.items self.new.taken.items }
        ensures count { length self.new.lefts.items ≡ length self.old.lefts.items }
        ensures rights { length self.new.taken.items ≡ length self.old.taken.items }
        ensures claim { IsClaim self.old.lefts.items self.new.lefts.items self.old.taken.items
            self.new.taken.items couple }
    {
        if self.is_lone(couple.left) && self.is_free(couple.right.number) {
            self.lefts[couple.left as usize] = Some(couple.right);
            self.taken[couple.right.number as usize] = true;
        }
    }
}

// The places of false.
fn free_places(alloc: Global, taken: &[bool]) -> Result<Vec<u32>, AllocError>
    ensures { IfOk result (λ free. free.items ≡ free_from 0 taken.now) }
{
    number(taken.len())?;
    let mut free = Vec::new(alloc);
    let mut k = 0;
    let mut rest = taken;
    'places: while let [is_taken, more @ ..] = rest {
        if !*is_taken {
            free.push(k)?;
        }
        k += 1;
        rest = more;
    }
    Ok(free)
}

/// The partners among so many left and right nodes: of these couples, in order, each whose nodes
/// have none yet. Linear in all three.
pub fn claimed(
    alloc: Global,
    lefts: usize,
    rights: usize,
    couples: &[Couple],
) -> Result<Partners, AllocError>
    ensures partners { IfOk result (λ x. ArePartners lefts rights x) }
    ensures couples { IfOk result (λ x. HaveAll couples.now x.lefts.items) }
    ensures first { IfOk result (λ x. AreFirstTaken lefts rights couples.now x.lefts.items) }
{
    let mut claims = Claims::none(alloc, lefts, rights)?;
    let mut rest = couples;
    'couples: while let [couple, more @ ..] = rest {
        claims.claim(*couple);
        rest = more;
    }
    let free = free_places(alloc, &claims.taken)?;
    Ok(Partners {
        lefts: claims.lefts,
        free,
    })
}
