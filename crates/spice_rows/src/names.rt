//! The names that words spell, folded to capitals.

ghost use Rattle.std.specs.Prelude.{◌≡◌, IfOk, IfSome, IsNone, Some, None};
ghost use Rattle.net_names.specs.Folding.{folded_byte};
ghost use Rattle.spice_cards.specs.Seen.{words_seen};
ghost use Rattle.spice_rows.specs.Names.{name_of, names_of, is_text, are_apart};

use net_model::has_twins;
use net_names::{Name, NameFault, folded, unescape};
use std::alloc::{AllocError, Global};

/// The name that a word spells, folded, or none where it spells none.
pub fn name_of(alloc: Global, word: &[u8]) -> Result<Option<Name>, AllocError>
    ensures some { IfOk result (λ found. IfSome found (λ name. name_of word.now ≡ Some name)) }
    ensures none { IfOk result (λ found. IsNone found → name_of word.now ≡ None) }
{
    if word.is_empty() {
        return Ok(None);
    }
    match unescape(alloc, word) {
        Ok(name) => Ok(Some(folded(alloc, &name)?)),
        Err(NameFault::BadEscape) => Ok(None),
        Err(NameFault::NoMemory) => Err(AllocError),
    }
}

/// The names that words spell, or none where one spells none.
pub fn names_of(alloc: Global, words: &[&[u8]]) -> Result<Option<Vec<Name>>, AllocError>
    ensures some { IfOk result (λ found. IfSome found
        (λ names. names_of (words_seen words.now) ≡ Some names.items)) }
    ensures none { IfOk result (λ found. IsNone found → names_of (words_seen words.now) ≡ None) }
{
    let mut names = Vec::new(alloc);
    let mut rest = words;
    'words: while let [word, more @ ..] = rest {
        match name_of(alloc, word)? {
            Some(name) => names.push(name)?,
            None => return Ok(None),
        }
        rest = more;
    }
    Ok(Some(names))
}

/// A byte with a to z made A to Z.
pub fn folded_byte(b: u8) -> u8
    ensures { result ≡ folded_byte b }
{
    match b {
        b'a'..=b'z' => b - 32,
        _ => b,
    }
}

/// Whether a word, folded, is this text. No escape is read.
pub fn is_text(word: &[u8], text: &[u8]) -> bool
    ensures { result ≡ is_text text.now word.now }
{
    let mut left = word;
    let mut right = text;
    'bytes: while let [b, more @ ..] = left {
        let [c, rest @ ..] = right else {
            return false;
        };
        if folded_byte(*b) != *c {
            return false;
        }
        left = more;
        right = rest;
    }
    right.is_empty()
}

/// Whether no name stands twice.
pub fn are_apart(alloc: Global, names: &[Name]) -> Result<bool, AllocError>
    ensures { IfOk result (λ b. b ≡ are_apart names.now) }
{
    Ok(!has_twins(alloc, names)?)
}
