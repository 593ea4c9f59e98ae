//! Whether options are those that are asked for, and what they give.

ghost use Rattle.std.specs.Prelude.{◌≡◌, ◌≤◌, IfOk, IfSome, string_bytes};
ghost use Rattle.std.specs.List.{list_all};
ghost use Rattle.std.specs.Option.{option_map};
ghost use Rattle.lvs_words.specs.Fitting.{fits, has_known, has_needed, is_among, workers_of};
ghost use Rattle.lvs_words.specs.Items.{AreValues, path, shared, value_of};
ghost use Rattle.lvs_words.specs.Seen.{seen_all};

use crate::flag::Flag;
use crate::items::{Item, are_once, shared, value_of};
use crate::numbers::number_in;
use net_names::Name;
use std::alloc::{AllocError, Global};

fn is_among(flags: &[Flag], flag: Flag) -> bool
    ensures { result ≡ is_among flags.now flag }
{
    let mut rest = flags;
    'flags: while let [first, more @ ..] = rest {
        if first.is_same(flag) {
            return true;
        }
        rest = more;
    }
    false
}

// Whether each option is a needed one, or a free one.
fn has_known(needed: &[Flag], free: &[Flag], items: &[Item<'_>]) -> bool
    ensures { result ≡ has_known needed.now free.now (seen_all items.now) }
{
    let mut rest = items;
    'items: while let [item, more @ ..] = rest {
        if !is_among(free, item.flag) && !is_among(needed, item.flag) {
            return false;
        }
        rest = more;
    }
    true
}

// Whether all needed options are there.
fn has_needed(needed: &[Flag], items: &[Item<'_>]) -> bool
    ensures { result ≡ has_needed needed.now (seen_all items.now) }
{
    let mut rest = needed;
    'flags: while let [flag, more @ ..] = rest {
        if value_of(items, *flag).is_none() {
            return false;
        }
        rest = more;
    }
    true
}

/// Whether no option stands twice, none but the needed ones and the free ones stand there, and all
/// that are needed do. Each option is looked at once for each other one, of which there are few.
pub fn fits(needed: &[Flag], free: &[Flag], items: &[Item<'_>]) -> bool
    ensures { result ≡ fits needed.now free.now (seen_all items.now) }
{
    are_once(items) && has_known(needed, free, items) && has_needed(needed, items)
}

/// The path that two options give, where at least one of them writes it. Each pair of options is
/// looked at; the path is copied.
pub fn shared_path(alloc: Global, items: &[Item<'_>]) -> Result<Option<String>, AllocError>
    ensures { IfOk result (λ p. option_map string_bytes p ≡ shared (seen_all items.now)) }
{
    match shared(items) {
        Some(path) => {
            let path = String::from_str(alloc, path)?;
            Ok(Some(path))
        }
        None => Ok(None),
    }
}

/// The path that the option gives; an empty one where it isn't there. One pass over the options,
/// and a copy of the path.
pub fn path(alloc: Global, items: &[Item<'_>], flag: Flag) -> Result<String, AllocError>
    ensures { IfOk result (λ p. string_bytes p ≡ path flag (seen_all items.now)) }
{
    match value_of(items, flag) {
        Some(value) => String::from_str(alloc, value),
        None => String::from_str(alloc, ""),
    }
}

/// The path that the option gives, where it is there. One pass over the options, and a copy of the
/// path.
pub fn given_path(
    alloc: Global,
    items: &[Item<'_>],
    flag: Flag,
) -> Result<Option<String>, AllocError>
    ensures { IfOk result (λ p. option_map string_bytes p ≡ value_of flag (seen_all items.now)) }
{
    match value_of(items, flag) {
        Some(value) => {
            let path = String::from_str(alloc, value)?;
            Ok(Some(path))
        }
        None => Ok(None),
    }
}

/// The name of the top, where one is given. One pass over the options, and a copy of the name.
pub fn top(alloc: Global, items: &[Item<'_>]) -> Result<Option<Name>, AllocError>
    requires { AreValues (seen_all items.now) }
    ensures { IfOk result (λ name. name ≡ value_of Flag.Top (seen_all items.now)) }
{
    match value_of(items, Flag::Top) {
        Some(value) => Name::from_bytes(alloc, value.as_bytes()),
        None => Ok(None),
    }
}

/// How many workers the options ask for: 1 to 64, one where they don't say; nothing where they ask
/// for another number. One pass over the options.
pub fn workers(items: &[Item<'_>]) -> Option<usize>
    ensures count { result ≡ workers_of (seen_all items.now) }
    ensures within { IfSome result (λ n. (1 ≤ n) × (n ≤ 64)) }
{
    match value_of(items, Flag::Workers) {
        Some(word) => {
            let count = number_in(1, 64, word)?;
            Some(count as usize)
        }
        None => Some(1),
    }
}
