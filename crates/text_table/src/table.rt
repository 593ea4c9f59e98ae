//! Texts in order of first sight, each once and found by its hash.

ghost use Rattle.std.specs.Prelude.{◌≡◌, false, ◌≤◌, ◌<◌, length, map, [], ◌∷◌, ◌++◌, IfOk, OnOk};
ghost use Rattle.text_table.specs.Texts.{has_text, place_of, with_text};

use indexmap::IndexSet;
use std::alloc::{AllocError, Global};
use std::marker::Model;

/// Texts in order of first sight, each once. A look-up takes the time of one hash of the text.
pub struct TextTable {
    texts: IndexSet<Vec<u8>>,
}

// Written out, so that its owners drop it by one call.
impl Drop for TextTable {
    fn drop(self) {
        let TextTable { texts: _ } = self;
    }
}

impl Model for TextTable {
    ghost use Rattle.std.specs.Prelude.{ℕ, List, map};

    ghost Value = { List (List ℕ) };

    ghost view = { λ t. map (λ text. text.items) t.texts.keys };
}

impl TextTable {
    /// A table without texts, which takes no memory.
    pub fn new(alloc: Global) -> Self
        ensures { result ≡ [] }
    {
        TextTable {
            texts: IndexSet::new(alloc),
        }
    }

    /// How many texts there are.
    pub fn len(&self) -> usize
        ensures { result ≡ length self.now }
    {
        self.texts.len()
    }

    /// Whether the text is there.
    pub fn contains(&self, text: &[u8]) -> bool
        ensures { result ≡ has_text self.now text.now }
    {
        self.texts.contains(text)
    }

    /// The place of a text, or the number of texts where it isn't there.
    pub fn place(&self, text: &[u8]) -> usize
        ensures place { result ≡ place_of self.now text.now }
        ensures within { result ≤ length self.now }
    {
        self.texts.get_index_of(text).unwrap_or(self.texts.len())
    }

    /// Adds a text that isn't there, as the last.
    pub fn add(&mut self, alloc: Global, text: &[u8]) -> Result<(), AllocError>
        requires { has_text self.old text.now ≡ false }
        ensures { OnOk result (self.new ≡ self.old ++ text.now ∷ []) }
    {
        self.texts.insert(text.to_vec(alloc)?)?;
        Ok(())
    }

    /// The place of a text, which is added where it isn't there.
    pub fn number(&mut self, alloc: Global, text: &[u8]) -> Result<usize, AllocError>
        ensures number { IfOk result (λ n. n ≡ place_of self.old text.now) }
        ensures within { IfOk result (λ n. n < length self.new) }
        ensures texts { OnOk result (self.new ≡ with_text self.old text.now) }
    {
        let place = self.place(text);
        if place == self.len() {
            self.add(alloc, text)?;
        }
        Ok(place)
    }

    /// The texts, in their order. None is copied.
    pub fn into_texts(self, alloc: Global) -> Result<Vec<Vec<u8>>, AllocError>
        ensures { IfOk result (λ texts. map (λ text. text.items) texts.items ≡ self) }
    {
        let TextTable { texts } = self;
        texts.into_iter().collect(alloc)
    }
}
