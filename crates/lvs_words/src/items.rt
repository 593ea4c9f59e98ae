//! Options with their values.

ghost use Rattle.std.specs.Prelude.{◌≡◌, ◌≤◌, length, map, IfOk, IfSome, IsNone};
ghost use Rattle.std.specs.Prelude.{IsErrOf, ◌∷◌, true, None, Some, string_bytes};
ghost use Rattle.std.specs.List.{list_any};
ghost use Rattle.lvs_words.specs.Items.{are_once, clashes, is_value, items, named};
ghost use Rattle.lvs_words.specs.Items.{AreValues, holds_value, onto, own_item, shared, value_of};
ghost use Rattle.lvs_words.specs.Seen.{seen, seen_all};

use crate::command::WordFault;
use crate::flag::{Flag, flag_of};
use std::alloc::Global;

/// An option with its value.
#[derive(Clone, Copy)]
pub struct Item<'a> {
    pub flag: Flag,
    pub value: &'a str,
}

/// Whether a word may stand for a value: it isn't empty and doesn't begin with `-`.
pub fn is_value(word: &str) -> bool
    ensures { result ≡ is_value word.now }
{
    match word.as_bytes() {
        [first, ..] => *first != b'-',
        [] => false,
    }
}

// The option of this name with this value.
fn named<'a>(name: &str, value: &'a str) -> Option<Item<'a>>
    ensures none { IsNone result → named name.now value.now ≡ None }
    ensures some { IfSome result (λ i. named name.now value.now ≡ Some (seen i)) }
    ensures value { IfSome result (λ i. is_value (seen i).value ≡ true) }
{
    if !is_value(value) {
        return None;
    }
    let flag = flag_of(name)?;
    Some(Item { flag, value })
}

fn holds_value(word: &str) -> bool
    ensures { result ≡ holds_value word.now }
{
    word.as_bytes().iter().any(|b| *b == b'=')
}

// The option that the word spells by itself, as `--name=value`.
fn own_item(word: &str) -> Option<Item>
    ensures none { IsNone result → own_item word.now ≡ None }
    ensures some { IfSome result (λ i. own_item word.now ≡ Some (seen i)) }
    ensures value { IfSome result (λ i. is_value (seen i).value ≡ true) }
{
    match word.split_once('=') {
        Some((name, value)) => named(name, value),
        None => None,
    }
}

// The option that the word spells, by itself or with the next of those behind it, and the words
// behind that.
#[tactic(auto, using(crate::proofs::Reading::items_own, crate::proofs::Reading::items_two, crate::proofs::Reading::items_lone))]
fn next_item<'a>(word: &'a str, more: &'a [String]) -> Option<(Item<'a>, &'a [String])>
    ensures none { IsNone result → items (word.now ∷ map string_bytes more.now) ≡ None }
    ensures some { IfSome result (λ p. items (word.now ∷ map string_bytes more.now)
        ≡ onto (Some (seen p.0)) (items (map string_bytes p.1.now))) }
    ensures less { IfSome result (λ p. length p.1.now ≤ length more.now) }
    ensures value { IfSome result (λ p. is_value (seen p.0).value ≡ true) }
{
    if holds_value(word) {
        let item = own_item(word)?;
        return Some((item, more));
    }
    let [value, behind @ ..] = more else {
        return None;
    };
    let item = named(word, value.as_str())?;
    Some((item, behind))
}

/// The options that the words spell, in their order. `Refused` where a word is no option, or has
/// no value of its kind. One pass over the words; an entry in memory for each option.
pub fn read_items<'a>(alloc: Global, words: &'a [String]) -> Result<Vec<Item<'a>>, WordFault>
    ensures found { IfOk result (λ found. items (map string_bytes words.now)
        ≡ Some (seen_all found.items)) }
    ensures values { IfOk result (λ found. AreValues (seen_all found.items)) }
    ensures refused { IsErrOf result WordFault.Refused → items (map string_bytes words.now)
        ≡ None }
{
    let mut found = Vec::new(alloc);
    let mut rest = words;
    'items: while let [word, more @ ..] = rest {
        let Some((item, behind)) = next_item(word.as_str(), more) else {
            return Err(WordFault::Refused);
        };
        if found.push(item).is_err() {
            return Err(WordFault::NoMemory);
        }
        rest = behind;
    }
    Ok(found)
}

/// The value of the first option of this name. One pass over the options.
pub fn value_of<'a>(items: &[Item<'a>], flag: Flag) -> Option<&'a str>
    ensures none { IsNone result → value_of flag (seen_all items.now) ≡ None }
    ensures some { IfSome result (λ v. value_of flag (seen_all items.now) ≡ Some v.now) }
{
    let mut rest = items;
    'search: while let [item, more @ ..] = rest {
        if item.flag.is_same(flag) {
            return Some(item.value);
        }
        rest = more;
    }
    None
}

/// Whether no option stands twice. Each pair of options is looked at.
pub fn are_once(items: &[Item<'_>]) -> bool
    ensures { result ≡ are_once (seen_all items.now) }
{
    let mut rest = items;
    'each: while let [first, more @ ..] = rest {
        if value_of(more, first.flag).is_some() {
            return false;
        }
        rest = more;
    }
    true
}

// Whether they name one file, and at least one of them writes it.
fn clashes(a: &Item<'_>, b: &Item<'_>) -> bool
    ensures { result ≡ clashes (seen a.now) (seen b.now) }
{
    a.flag.is_path()
        && b.flag.is_path()
        && (a.flag.is_written() || b.flag.is_written())
        && a.value == b.value
}

fn clashes_with_any(item: &Item<'_>, others: &[Item<'_>]) -> bool
    ensures { result ≡ list_any (clashes (seen item.now)) (seen_all others.now) }
{
    let mut rest = others;
    'others: while let [other, more @ ..] = rest {
        if clashes(item, other) {
            return true;
        }
        rest = more;
    }
    false
}

/// The first path that a later option has too, where at least one of the two is written. Each pair
/// of options is looked at.
pub fn shared<'a>(items: &[Item<'a>]) -> Option<&'a str>
    ensures none { IsNone result → shared (seen_all items.now) ≡ None }
    ensures some { IfSome result (λ p. shared (seen_all items.now) ≡ Some p.now) }
{
    let mut rest = items;
    'pairs: while let [first, more @ ..] = rest {
        if clashes_with_any(first, more) {
            return Some(first.value);
        }
        rest = more;
    }
    None
}
