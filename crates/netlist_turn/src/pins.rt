//! Calls that name the pins of the called circuit.

ghost use Rattle.std.specs.Prelude.{◌≡◌, ◌++◌, IfOk, OnOk, Some, map};
ghost use Rattle.std.specs.List.{list_all};
ghost use Rattle.std.specs.Option.{option_copied, option_map};
ghost use Rattle.spice_cards.specs.Seen.{params_seen, tokens_seen, words_seen};
ghost use Rattle.netlist_turn.specs.Pins.{before_last, by_circuit, by_name, by_place, has_net};
ghost use Rattle.netlist_turn.specs.Pins.{has_pins, net_of, nets_for, nets_of, pins_of};
ghost use Rattle.netlist_turn.specs.PinsSeen.{pins_seen, tokens_in};

use crate::device::called_name;
use crate::listed::kept_words;
use crate::rows::Row;
use crate::settings::Settings;
use crate::words::{folded, is_pins_word, is_text};
use spice_cards::{Param, Token, read_params, read_words};
use std::alloc::{AllocError, Global};

/// Whether the last of a call's words is `$PINS`.
pub fn has_pins(words: &[&[u8]]) -> bool
    ensures { result ≡ has_pins (words_seen words.now) }
{
    is_pins_word(called_name(words))
}

// The words before the last.
#[tactic(auto, using(crate::proofs::PinLemmas::words_before))]
fn before_last<'a, 'b>(words: &'b [&'a [u8]]) -> &'b [&'a [u8]]
    ensures { words_seen result.now ≡ before_last (words_seen words.now) }
{
    &words[..words.len().saturating_sub(1)]
}

// Whether a pin is on a net.
fn has_net(params: &[Param], pin: &[u8]) -> bool
    ensures { result ≡ has_net (params_seen params.now) pin.now }
{
    let mut rest = params;
    'params: while let [param, more @ ..] = rest {
        if is_text(param.key, pin) {
            return true;
        }
        rest = more;
    }
    false
}

// Whether each pin is.
fn have_nets(params: &[Param], pins: &[Vec<u8>]) -> bool
    ensures { result ≡ list_all (has_net (params_seen params.now)) (pins_seen pins.now) }
{
    let mut rest = pins;
    'pins: while let [pin, more @ ..] = rest {
        if !has_net(params, pin.as_slice()) {
            return false;
        }
        rest = more;
    }
    true
}

// On which.
fn net_of<'a>(params: &[Param<'a>], pin: &[u8]) -> &'a [u8]
    ensures { result.now ≡ net_of (params_seen params.now) pin.now }
{
    let mut rest = params;
    'params: while let [param, more @ ..] = rest {
        if is_text(param.key, pin) {
            return param.value;
        }
        rest = more;
    }
    b""
}

fn push_nets<'a>(
    out: &mut Vec<Token<'a>>,
    params: &[Param<'a>],
    pins: &[Vec<u8>],
) -> Result<(), AllocError>
    ensures { OnOk result (tokens_seen out.new.items ≡ tokens_seen out.old.items
        ++ nets_of (params_seen params.now) (pins_seen pins.now)) }
{
    let mut rest = pins;
    'pins: while let [pin, more @ ..] = rest {
        out.push(Token::Word(net_of(params, pin.as_slice())))?;
        rest = more;
    }
    Ok(())
}

// The nets of the pins, in their order, and the name.
#[tactic(auto, using(crate::proofs::PinLemmas::pins_long, crate::proofs::PinLemmas::params_long))]
fn nets_for<'a>(
    alloc: Global,
    params: &[Param<'a>],
    name: &'a [u8],
    pins: &[Vec<u8>],
) -> Result<Option<Vec<Token<'a>>>, AllocError>
    ensures { IfOk result (λ r. option_map tokens_in r
        ≡ nets_for (params_seen params.now) name.now (pins_seen pins.now)) }
{
    if params.len() != pins.len() || !have_nets(params, pins) {
        return Ok(None);
    }
    let mut out = Vec::new(alloc);
    push_nets(&mut out, params, pins)?;
    out.push(Token::Word(name))?;
    Ok(Some(out))
}

// The pins of a circuit.
fn pins_of<'a>(
    alloc: Global,
    settings: &'a Settings,
    name: &[u8],
) -> Result<Option<&'a Vec<Vec<u8>>>, AllocError>
    ensures { IfOk result (λ p. option_copied p ≡ pins_of settings.now name.now) }
{
    let name = folded(alloc, name)?;
    Ok(settings.pins.get(settings.pinned.place(&name)))
}

// The nets of a circuit's pins, and its name.
fn by_circuit<'a>(
    alloc: Global,
    settings: &Settings,
    params: &[Param<'a>],
    name: &'a [u8],
) -> Result<Option<Vec<Token<'a>>>, AllocError>
    ensures { IfOk result (λ r. option_map tokens_in r
        ≡ by_circuit (params_seen params.now) name.now (pins_of settings.now name.now)) }
{
    match pins_of(alloc, settings, name)? {
        None => Ok(None),
        Some(pins) => nets_for(alloc, params, name, pins.as_slice()),
    }
}

// By the words before `$PINS`.
fn by_name<'a>(
    alloc: Global,
    settings: &Settings,
    params: &[Param<'a>],
    words: &[&'a [u8]],
) -> Result<Option<Vec<Token<'a>>>, AllocError>
    ensures { IfOk result (λ r. option_map tokens_in r
        ≡ by_name settings.now (params_seen params.now) (words_seen words.now)) }
{
    match words {
        [name] => by_circuit(alloc, settings, params, *name),
        _ => Ok(None),
    }
}

/// The tokens behind a call's first word of the same call by place; none where the pins aren't the
/// circuit's. Of the order of pins times nets.
pub fn by_place<'a>(
    alloc: Global,
    settings: &Settings,
    tokens: &[Token<'a>],
) -> Result<Option<Vec<Token<'a>>>, AllocError>
    ensures { IfOk result (λ r. option_map tokens_in r
        ≡ by_place settings.now (tokens_seen tokens.now)) }
{
    let mut words = Vec::new(alloc);
    let mut params = Vec::new(alloc);
    let rest = read_words(&mut words, tokens)?;
    if !read_params(&mut params, rest)? {
        return Ok(None);
    }
    let kept = kept_words(alloc, Row::Call, before_last(&words))?;
    by_name(alloc, settings, &params, &kept)
}
