//! Layers with their numbers, found without a scan.

ghost use Rattle.std.specs.Prelude.{◌≡◌, ◌≤◌, false, length, [], ◌∷◌, ◌++◌, OnOk};
ghost use Rattle.std.specs.List.{list_any, position_or_len};
ghost use Rattle.geo_base.specs.Layers.{is_same_key};

use geo_base::LayerKey;
use indexmap::IndexSet;
use std::alloc::{AllocError, Global};
use std::marker::Model;

/// Layers in the order in which they were added, each once. A layer's number is its place.
pub struct KeyTable {
    keys: IndexSet<LayerKey>,
}

// Written out, so that its owners drop it by one call.
impl Drop for KeyTable {
    fn drop(self) {
        let KeyTable { keys: _ } = self;
    }
}

impl Model for KeyTable {
    ghost use Rattle.std.specs.Prelude.{List};
    ghost use Rattle.geo_base.specs.declared.layer.LayerKey.{LayerKey};

    ghost Value = { List LayerKey };

    ghost view = { λ t. t.keys.keys };
}

impl KeyTable {
    pub(crate) fn new(alloc: Global) -> KeyTable
        ensures { result ≡ [] }
    {
        KeyTable {
            keys: IndexSet::new(alloc),
        }
    }

    /// The number of a layer, or the number of layers where it isn't one of them. O(1).
    pub(crate) fn number(&self, key: LayerKey) -> usize
        ensures place { result ≡ position_or_len (is_same_key key) self.now }
        ensures within { result ≤ length self.now }
    {
        self.keys.get_index_of(&key).unwrap_or(self.keys.len())
    }

    /// Adds a layer at the end. O(1) on the average.
    pub(crate) fn add(&mut self, key: LayerKey) -> Result<(), AllocError>
        requires { list_any (is_same_key key) self.old ≡ false }
        ensures { OnOk result (self.new ≡ self.old ++ key ∷ []) }
    {
        self.keys.insert(key)?;
        Ok(())
    }
}
