//! Texts and layers in order of first sight, found without a scan.

ghost use Rattle.std.specs.Prelude.{◌≡◌, false, ℕ, ◌≤◌, length, List, [], ◌∷◌, ◌++◌, map, OnOk};
ghost use Rattle.std.specs.List.{list_any, position_or_len};
ghost use Rattle.std.specs.Str.{bytes_eq};
ghost use Rattle.geo_base.specs.Layers.{is_same_key};

use geo_base::LayerKey;
use indexmap::IndexSet;
use std::alloc::{AllocError, Global};
use std::marker::Model;

/// Texts in order of first sight, found without a scan.
pub struct TextTable {
    texts: IndexSet<Vec<u8>>,
}

// Written out, so that its owners drop it by one call.
impl Drop for TextTable {
    fn drop(self) {
        let TextTable { texts: _ } = self;
    }
}

impl Model for TextTable {
    ghost Value = { List (List ℕ) };

    ghost view = { λ t. map (λ text. text.items) t.texts.keys };
}

impl TextTable {
    pub fn new(alloc: Global) -> Self
        ensures { result ≡ [] }
    {
        TextTable {
            texts: IndexSet::new(alloc),
        }
    }

    pub fn contains(&self, text: &[u8]) -> bool
        ensures { result ≡ list_any (bytes_eq text.now) self.now }
    {
        self.texts.contains(text)
    }

    /// The number of a text, or the number of texts.
    pub fn place(&self, text: &[u8]) -> usize
        ensures place { result ≡ position_or_len (bytes_eq text.now) self.now }
        ensures within { result ≤ length self.now }
    {
        self.texts.get_index_of(text).unwrap_or(self.texts.len())
    }

    pub fn add(&mut self, alloc: Global, text: &[u8]) -> Result<(), AllocError>
        requires { list_any (bytes_eq text.now) self.old ≡ false }
        ensures { OnOk result (self.new ≡ self.old ++ text.now ∷ []) }
    {
        self.texts.insert(text.to_vec(alloc)?)?;
        Ok(())
    }
}

/// Layers in order of first sight, found without a scan.
pub struct KeyTable {
    keys: IndexSet<LayerKey>,
}

// Written out, so that its owners drop it by one call.
impl Drop for KeyTable {
    fn drop(self) {
        let KeyTable { keys: _ } = self;
    }
}

impl Model for KeyTable {
    ghost use Rattle.std.specs.Prelude.{List};
    ghost use Rattle.geo_base.specs.declared.layer.LayerKey.{LayerKey};

    ghost Value = { List LayerKey };

    ghost view = { λ t. t.keys.keys };
}

impl KeyTable {
    pub fn new(alloc: Global) -> Self
        ensures { result ≡ [] }
    {
        KeyTable {
            keys: IndexSet::new(alloc),
        }
    }

    pub fn contains(&self, key: LayerKey) -> bool
        ensures { result ≡ list_any (is_same_key key) self.now }
    {
        self.keys.contains(&key)
    }

    pub fn add(&mut self, key: LayerKey) -> Result<(), AllocError>
        requires { list_any (is_same_key key) self.old ≡ false }
        ensures { OnOk result (self.new ≡ self.old ++ key ∷ []) }
    {
        self.keys.insert(key)?;
        Ok(())
    }
}
