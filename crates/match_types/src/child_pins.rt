//! The right pin of each left pin, for the called pairs that are matched.

ghost use Rattle.std.specs.Prelude.{◌≡◌, ◌≢◌, ℕ, None, Some, IfSome, IsNone, OnErr, OnOk, ◌↔◌};
ghost use Rattle.match_types.specs.Children.{children_of, is_told};

use std::alloc::{AllocError, Global};
use std::collections::HashMap;

/// For each pair the position of the right pin for each left pin, or nothing where the pair isn't
/// matched or not yet compared; and whether names tell the pins of the pair above apart.
pub struct ChildPins {
    lists: HashMap<u32, Vec<u32>>,
    told: bool,
}

// Written out, so that its owners drop it by one call.
impl Drop for ChildPins {
    fn drop(self) {
        let ChildPins { lists: _, told: _ } = self;
    }
}

impl ChildPins {
    /// Nothing for every pair.
    pub fn new(alloc: Global, told: bool) -> ChildPins
        ensures none { (q : ℕ) → children_of result q ≡ None }
        ensures told { is_told result ≡ told }
    {
        ChildPins {
            lists: HashMap::new(alloc),
            told,
        }
    }

    /// Whether names tell the pins of the pair above apart.
    pub fn told(&self) -> bool
        ensures { result ≡ is_told self.now }
    {
        self.told
    }

    /// Gives a pair its list. Where memory is wanting, all lists stay.
    pub fn set(&mut self, pair: u32, pins: Vec<u32>) -> Result<(), AllocError>
        ensures set { OnOk result (children_of self.new pair ≡ Some pins.items) }
        ensures rest { OnOk result ((q : ℕ) → q ≢ pair
            → children_of self.new q ≡ children_of self.old q) }
        ensures err { OnErr result ((q : ℕ) → children_of self.new q ≡ children_of self.old q) }
        ensures told { is_told self.new ≡ is_told self.old }
    {
        self.lists.insert(pair, pins)?;
        Ok(())
    }

    /// The list of a pair.
    pub fn get(&self, pair: u32) -> Option<&[u32]>
        ensures some { IfSome result (λ pins. children_of self.now pair ≡ Some pins.now) }
        ensures none { IsNone result ↔ (children_of self.now pair ≡ None) }
    {
        match self.lists.get(&pair) {
            Some(pins) => Some(pins.as_slice()),
            None => None,
        }
    }
}
