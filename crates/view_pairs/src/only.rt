//! Nets that alone have a name on both sides.

ghost use Rattle.std.specs.Prelude.{◌≡◌, ◌++◌, IfOk, None, OnOk, Some, get_or, length, slice_get};
ghost use Rattle.plain_netlist.specs.Lists.{AreApart};
ghost use Rattle.view_pairs.specs.Keys.{AreFound, AreKeys, Extends, IsKey, IsPut, couple_at};
ghost use Rattle.view_pairs.specs.Keys.{couples_from};
ghost use Rattle.view_pairs.specs.Only.{AreKeysFirst, AreOnlyFirst, is_given};

use crate::partners::{Couple, sure};
use list_base::number;
use net_names::Name;
use std::alloc::{AllocError, Global};
use text_table::TextTable;

/// Whether someone gave the name: it has no `$`.
pub fn is_given(name: &[u8]) -> bool
    ensures { result ≡ is_given name.now }
{
    let mut rest = name;
    'bytes: while let [b, more @ ..] = rest {
        if *b == b'$' {
            return false;
        }
        rest = more;
    }
    true
}

// The key of a text: its place in a table, to which it is added where it isn't there.
fn key_of(alloc: Global, table: &mut TextTable, text: &[u8]) -> Result<u32, AllocError>
    requires { AreApart table.old }
    ensures apart { OnOk result (AreApart table.new) }
    ensures grown { OnOk result (Extends table.old table.new) }
    ensures there { IfOk result (λ x. slice_get table.new x ≡ Some text.now) }
{
    let place = table.number(alloc, text)?;
    let key = number(place)?;
    Ok(key)
}

fn name_key(alloc: Global, table: &mut TextTable, name: &Name) -> Result<Option<u32>, AllocError>
    requires { AreApart table.old }
    ensures apart { OnOk result (AreApart table.new) }
    ensures grown { OnOk result (Extends table.old table.new) }
    ensures key { IfOk result (λ key. IsKey is_given table.new name.now key) }
{
    if is_given(name.bytes()) {
        let key = key_of(alloc, table, name.bytes())?;
        return Ok(Some(key));
    }
    Ok(None)
}

// The keys of names; of one that nobody gave there is none.
fn name_keys(
    alloc: Global,
    table: &mut TextTable,
    names: &[Name],
) -> Result<Vec<Option<u32>>, AllocError>
    requires { AreApart table.old }
    ensures apart { OnOk result (AreApart table.new) }
    ensures grown { OnOk result (Extends table.old table.new) }
    ensures keys { IfOk result (λ keys. AreKeys is_given table.new names.now keys.items) }
{
    let mut keys = Vec::new(alloc);
    let mut rest = names;
    'names: while let [name, more @ ..] = rest {
        let key = name_key(alloc, table, name)?;
        keys.push(key)?;
        rest = more;
    }
    Ok(keys)
}

// Place m is that of its key, which is below the places' count.
fn put_place(places: &mut Vec<Option<u32>>, key: Option<u32>, m: u32)
    ensures { IsPut places.old.items places.new.items key m }
{
    if let Some(x) = key {
        if (x as usize) < places.len() {
            places[x as usize] = Some(m);
        }
    }
}

// A place of each key below a count.
fn places_of(
    alloc: Global,
    count: usize,
    keys: &[Option<u32>],
) -> Result<Vec<Option<u32>>, AllocError>
    ensures long { IfOk result (λ places. length places.items ≡ count) }
    ensures found { IfOk result (λ places. AreFound keys.now places.items) }
{
    let end = number(keys.len())?;
    let mut places = vec![in alloc; None; count]?;
    'keys: for m in 0..end {
        put_place(&mut places, keys[m as usize], m);
    }
    Ok(places)
}

fn place_at(places: &[Option<u32>], x: u32) -> Option<u32>
    ensures { result ≡ get_or places.now x None }
{
    match places.get(x as usize) {
        Some(place) => *place,
        None => None,
    }
}

fn push_couple(
    out: &mut Vec<Couple>,
    places: &[Option<u32>],
    k: u32,
    key: Option<u32>,
) -> Result<(), AllocError>
    ensures { OnOk result (out.new.items ≡ out.old.items ++ couple_at places.now k key) }
{
    let Some(x) = key else {
        return Ok(());
    };
    let Some(m) = place_at(places, x) else {
        return Ok(());
    };
    out.push(sure(k, m))?;
    Ok(())
}

fn push_couples(
    out: &mut Vec<Couple>,
    places: &[Option<u32>],
    keys: &[Option<u32>],
) -> Result<(), AllocError>
    ensures { OnOk result (out.new.items ≡ out.old.items ++ couples_from places.now 0 keys.now) }
{
    number(keys.len())?;
    let mut k = 0;
    let mut rest = keys;
    'keys: while let [key, more @ ..] = rest {
        push_couple(out, places, k, *key)?;
        k += 1;
        rest = more;
    }
    Ok(())
}

// Left and right nodes of one key.
fn couples_of(
    alloc: Global,
    count: usize,
    lefts: &[Option<u32>],
    rights: &[Option<u32>],
) -> Result<Vec<Couple>, AllocError>
    ensures { IfOk result (λ couples. AreKeysFirst count lefts.now rights.now couples.items) }
{
    let places = places_of(alloc, count, rights)?;
    let mut couples = Vec::new(alloc);
    push_couples(&mut couples, &places, lefts)?;
    Ok(couples)
}

/// Nets of one name that someone gave, among them all that have it alone. Linear in the names.
pub fn only_nets(alloc: Global, lefts: &[Name], rights: &[Name]) -> Result<Vec<Couple>, AllocError>
    ensures { IfOk result (λ couples.
        AreOnlyFirst is_given lefts.now rights.now couples.items) }
{
    let mut table = TextTable::new(alloc);
    let left_keys = name_keys(alloc, &mut table, lefts)?;
    let right_keys = name_keys(alloc, &mut table, rights)?;
    let couples = couples_of(alloc, table.len(), &left_keys, &right_keys)?;
    Ok(couples)
}
