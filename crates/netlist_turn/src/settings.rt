//! What cards are turned by.

ghost use Rattle.std.specs.Prelude.{◌≡◌, IfOk};
ghost use Rattle.spice_cards.specs.Seen.{param_seen, params_seen, words_seen};
ghost use Rattle.net_names.specs.Folding.{folded_bytes};
ghost use Rattle.text_table.specs.Texts.{place_of};
ghost use Rattle.std.specs.Option.{option_copied};
ghost use Rattle.netlist_turn.specs.Made.{by_scale, factor_at, has_shadow, has_stuck, is_left};
ghost use Rattle.netlist_turn.specs.Made.{is_stuck, meant, value_for};
ghost use Rattle.netlist_turn.specs.Listed.{device_for, text_for};
ghost use Rattle.netlist_turn.specs.Words.{unquoted};

use crate::device::Device;
use crate::rows::{Row, is_area_key, is_size_key};
use crate::scale::{Factor, is_unscaled};
use crate::words::{folded, unquoted};
use spice_cards::Param;
use std::alloc::{AllocError, Global};
use text_table::TextTable;

/// What cards are turned by: the names that `.PARAM` cards define, folded, and their values; the
/// circuits that are kept, all or those that are marked; whether capacitors and resistors are left
/// out; the factor of sizes in 10^-15, where the text has one; the names of devices, folded, and
/// what each is; and the names of circuits, folded, and the pins of each.
#[derive(Drop)]
pub struct Settings {
    pub names: TextTable,
    pub values: Vec<Vec<u8>>,
    pub circuits: TextTable,
    pub marks: Vec<bool>,
    pub all: bool,
    pub capacitors: bool,
    pub resistors: bool,
    pub scale: Option<u128>,
    pub listed: TextTable,
    pub devices: Vec<Device>,
    pub pinned: TextTable,
    pub pins: Vec<Vec<Vec<u8>>>,
}

/// Whether the circuit of a card's first name is left out.
pub fn is_left(alloc: Global, settings: &Settings, words: &[&[u8]]) -> Result<bool, AllocError>
    ensures { IfOk result (λ b. b ≡ is_left settings.now (words_seen words.now)) }
{
    let name = match words {
        [] => folded(alloc, b"")?,
        [name, ..] => folded(alloc, name)?,
    };
    let mark = settings.marks.get(settings.circuits.place(&name)).copied();
    Ok(settings.listed.contains(&name) || !settings.all && !mark.unwrap_or(false))
}

/// The place of a value among the names that `.PARAM` cards define, or the number of them.
#[tactic(auto, using(crate::proofs::TakenLemmas::no_names))]
pub fn value_place(alloc: Global, settings: &Settings, value: &[u8]) -> Result<usize, AllocError>
    ensures { IfOk result (λ k. k ≡ place_of settings.now.names (folded_bytes value.now)) }
{
    if settings.names.len() == 0 {
        return Ok(0);
    }
    let name = folded(alloc, value)?;
    Ok(settings.names.place(&name))
}

/// Whether a parameter's name is one that a `.PARAM` defines.
pub fn has_shadow(alloc: Global, settings: &Settings, params: &[Param]) -> Result<bool, AllocError>
    ensures { IfOk result (λ b. b ≡ has_shadow settings.now (params_seen params.now)) }
{
    let mut rest = params;
    'params: while let [p, more @ ..] = rest {
        let name = folded(alloc, p.key)?;
        if settings.names.contains(&name) {
            return Ok(true);
        }
        rest = more;
    }
    Ok(false)
}

/// The value of the name that a text without quotes is, where a `.PARAM` defines it.
pub fn value_for<'a>(
    alloc: Global,
    settings: &'a Settings,
    plain: &[u8],
) -> Result<Option<&'a Vec<u8>>, AllocError>
    ensures { IfOk result (λ v. option_copied v ≡ value_for settings.now plain.now) }
{
    let place = value_place(alloc, settings, plain)?;
    Ok(settings.values.get(place))
}

/// The text that a value stands for.
pub fn meant<'a>(plain: &'a [u8], found: Option<&'a Vec<u8>>) -> &'a [u8]
    ensures { result.now ≡ meant plain.now (option_copied found.entry) }
{
    match found {
        None => plain,
        Some(text) => text.as_slice(),
    }
}

fn by_scale(is_twice: bool, scale: Option<u128>) -> Option<Factor>
    ensures { result ≡ by_scale is_twice scale }
{
    match scale {
        None => None,
        Some(scale) => Some(Factor { scale, is_twice }),
    }
}

/// The scale, once for a length, twice for an area.
pub fn factor_at(settings: &Settings, row: Row, key: &[u8]) -> Option<Factor>
    ensures { result ≡ factor_at settings.now row key.now }
{
    if is_size_key(row, key) {
        by_scale(false, settings.scale)
    } else if is_area_key(row, key) {
        by_scale(true, settings.scale)
    } else {
        None
    }
}

#[tactic(auto, using(crate::proofs::SizeLemmas::stuck_is))]
fn is_stuck(alloc: Global, settings: &Settings, row: Row, param: &Param) -> Result<bool, AllocError>
    ensures { IfOk result (λ b. b ≡ is_stuck settings.now row (param_seen param.now)) }
{
    let factor = factor_at(settings, row, param.key);
    if factor.is_none() {
        return Ok(false);
    }
    let plain = unquoted(param.value);
    let found = value_for(alloc, settings, plain)?;
    Ok(is_unscaled(factor, meant(plain, found)))
}

/// Whether a size can't be turned by the scale.
pub fn has_stuck(
    alloc: Global,
    settings: &Settings,
    row: Row,
    params: &[Param],
) -> Result<bool, AllocError>
    ensures { IfOk result (λ b. b ≡ has_stuck settings.now row (params_seen params.now)) }
{
    let mut rest = params;
    'params: while let [p, more @ ..] = rest {
        if is_stuck(alloc, settings, row, p)? {
            return Ok(true);
        }
        rest = more;
    }
    Ok(false)
}

/// What a name is listed as. Nothing is looked up where no names are listed.
#[tactic(auto, using(crate::proofs::TakenLemmas::no_devices))]
pub fn device_for<'a>(
    alloc: Global,
    settings: &'a Settings,
    name: &[u8],
) -> Result<Option<&'a Device>, AllocError>
    ensures { IfOk result (λ d. option_copied d ≡ device_for settings.now name.now) }
{
    if settings.devices.len() == 0 {
        return Ok(None);
    }
    let name = folded(alloc, name)?;
    Ok(settings.devices.get(settings.listed.place(&name)))
}

/// The text that a parameter's value stands for.
pub fn text_for<'a>(
    alloc: Global,
    settings: &'a Settings,
    param: &Param<'a>,
) -> Result<&'a [u8], AllocError>
    ensures { IfOk result (λ t. t.now ≡ text_for settings.now (param_seen param.now)) }
{
    let plain = unquoted(param.value);
    let found = value_for(alloc, settings, plain)?;
    Ok(meant(plain, found))
}
