//! What the tokens of a card say, or the card's first fault.

ghost use Rattle.std.specs.Prelude.{◌≡◌, map, Ok};
ghost use Rattle.fixed_num.specs.declared.femto.Femto.{Femto};
ghost use Rattle.spice_cards.specs.Seen.{tokens_seen, words_seen, params_seen};
ghost use Rattle.spice_rows.specs.Names.{names_of};
ghost use Rattle.spice_rows.specs.Rows.{are_device_names, device_of, has_class, is_class};
ghost use Rattle.spice_rows.specs.Rows.{is_formed};
ghost use Rattle.spice_rows.specs.Rows.{device_row, call_row, open_row, end_row, global_row};
ghost use Rattle.spice_rows.specs.Rows.{stop_row, row_of, card_row, is_passed, begin, is_known};
ghost use Rattle.spice_rows.specs.Seen.{Says};
ghost use Rattle.spice_rows.specs.Sizes.{read_limit};

use crate::card::{CallCard, CardRow};
use crate::device::DeviceCard;
use crate::fault::SpiceFault;
use crate::kinds::{first_key, letter, second_key};
use crate::names::{are_apart, folded_byte, is_text, names_of};
use crate::params::{copies_of, count, has_other, has_refused};
use crate::sizes::sizes_of;
use fixed_num::Femto;
use net_names::Name;
use plain_netlist::DeviceKind;
use spice_cards::{Param, Token, read_params, read_words};
use std::alloc::{AllocError, Global};

fn device_of(
    alloc: Global,
    line: u64,
    copies: u32,
    kind: DeviceKind,
    names: &[Name],
    sizes: [Femto; 2],
) -> Result<CardRow, SpiceFault>
    ensures { Says result (device_of line copies kind names.now
        (Ok (map (λ (f : Femto). f.0) sizes))) }
{
    match DeviceCard::of(alloc, kind, names, sizes)? {
        Some(card) => Ok(CardRow::Device(card, copies)),
        None => Err(SpiceFault::BadLine(line)),
    }
}

// A transistor's class begins with neither byte 1 nor byte 2.
fn is_class(kind: DeviceKind, class: &Name) -> bool
    ensures { result ≡ is_class kind class.now }
{
    match kind {
        DeviceKind::Mos4 => match class.bytes() {
            [first, ..] => !(*first == 1 || *first == 2),
            [] => true,
        },
        _ => true,
    }
}

fn has_class(kind: DeviceKind, names: &[Name]) -> bool
    ensures { result ≡ has_class kind names.now }
{
    match names.get(kind.terminals()) {
        Some(class) => is_class(kind, class),
        None => false,
    }
}

// A name for each terminal and the class.
fn are_device_names(kind: DeviceKind, names: &[Name]) -> bool
    ensures { result ≡ are_device_names kind names.now }
{
    names.len() == kind.terminals() + 1 && has_class(kind, names)
}

// These, and the two sizes once each.
fn is_formed(kind: DeviceKind, names: &[Name], params: &[Param]) -> bool
    ensures { result ≡ is_formed kind names.now (params_seen params.now) }
{
    if !are_device_names(kind, names) {
        return false;
    }
    if count(params, &[first_key(kind)]) != 1 {
        return false;
    }
    count(params, &[second_key(kind)]) == 1
}

fn device(
    alloc: Global,
    line: u64,
    kind: DeviceKind,
    words: &[&[u8]],
    params: &[Param],
) -> Result<CardRow, SpiceFault>
    ensures { Says result (device_row read_limit kind line
        (names_of (words_seen words.now)) (params_seen params.now)) }
{
    let Some(names) = names_of(alloc, words)? else {
        return Err(SpiceFault::BadLine(line));
    };
    if !is_formed(kind, &names, params) {
        return Err(SpiceFault::BadLine(line));
    }
    if has_refused(kind, params) {
        return Err(SpiceFault::ParameterRefused(line));
    }
    match sizes_of(kind, params) {
        Ok(sizes) => device_of(alloc, line, copies_of(params), kind, &names, sizes),
        Err(e) => Err(SpiceFault::Value(line, e)),
    }
}

fn call(alloc: Global, line: u64, words: &[&[u8]], params: &[Param]) -> Result<CardRow, SpiceFault>
    ensures { Says result
        (call_row line (names_of (words_seen words.now)) (params_seen params.now)) }
{
    let Some(mut nets) = names_of(alloc, words)? else {
        return Err(SpiceFault::BadLine(line));
    };
    let Some(circuit) = nets.pop() else {
        return Err(SpiceFault::BadLine(line));
    };
    if has_other(params) {
        return Err(SpiceFault::ParameterRefused(line));
    }
    Ok(CardRow::Call(CallCard {
        line,
        nets,
        circuit,
    }))
}

fn opens(
    alloc: Global,
    line: u64,
    is_open: bool,
    words: &[&[u8]],
    params: &[Param],
) -> Result<CardRow, SpiceFault>
    ensures { Says result
        (open_row line is_open (names_of (words_seen words.now)) (params_seen params.now)) }
{
    if is_open || words.is_empty() {
        return Err(SpiceFault::BadLine(line));
    }
    let Some(mut names) = names_of(alloc, &words[..1])? else {
        return Err(SpiceFault::BadLine(line));
    };
    let Some(pins) = names_of(alloc, &words[1..])? else {
        return Err(SpiceFault::BadLine(line));
    };
    if !are_apart(alloc, &pins)? {
        return Err(SpiceFault::BadLine(line));
    }
    if !params.is_empty() {
        return Err(SpiceFault::ParameterRefused(line));
    }
    match names.pop() {
        Some(name) => Ok(CardRow::Opens(name, pins)),
        None => Err(SpiceFault::BadLine(line)),
    }
}

fn ends(
    alloc: Global,
    line: u64,
    is_open: bool,
    words: &[&[u8]],
    params: &[Param],
) -> Result<CardRow, SpiceFault>
    ensures { Says result
        (end_row line is_open (names_of (words_seen words.now)) (params_seen params.now)) }
{
    if !is_open || !params.is_empty() {
        return Err(SpiceFault::BadLine(line));
    }
    let Some(names) = names_of(alloc, words)? else {
        return Err(SpiceFault::BadLine(line));
    };
    if names.len() > 1 {
        return Err(SpiceFault::BadLine(line));
    }
    Ok(CardRow::Ends)
}

fn globals(
    alloc: Global,
    line: u64,
    words: &[&[u8]],
    params: &[Param],
) -> Result<CardRow, SpiceFault>
    ensures { Says result
        (global_row line (names_of (words_seen words.now)) (params_seen params.now)) }
{
    if !params.is_empty() {
        return Err(SpiceFault::BadLine(line));
    }
    let Some(names) = names_of(alloc, words)? else {
        return Err(SpiceFault::BadLine(line));
    };
    if names.is_empty() {
        return Err(SpiceFault::BadLine(line));
    }
    Ok(CardRow::Globals(names))
}

fn stops(line: u64, words: &[&[u8]], params: &[Param]) -> Result<CardRow, SpiceFault>
    ensures { Says result (stop_row line (words_seen words.now) (params_seen params.now)) }
{
    if !words.is_empty() || !params.is_empty() {
        return Err(SpiceFault::BadLine(line));
    }
    Ok(CardRow::Stops)
}

fn is_passed(first: &[u8]) -> bool
    ensures { result ≡ is_passed first.now }
{
    is_text(first, b".MODEL") || is_text(first, b".OPTION") || is_text(first, b".OPTIONS")
}

// The first byte of a word, folded, or 0.
fn begin(word: &[u8]) -> u8
    ensures { result ≡ begin word.now }
{
    folded_byte(if word.is_empty() { 0 } else { word[0] })
}

fn is_known(first: &[u8]) -> bool
    ensures { result ≡ is_known first.now }
{
    begin(first) == letter(DeviceKind::Mos4)
        || begin(first) == letter(DeviceKind::ResistorWithBulk)
        || begin(first) == letter(DeviceKind::Diode)
        || begin(first) == b'X'
        || is_text(first, b".SUBCKT")
        || is_text(first, b".ENDS")
        || is_text(first, b".GLOBAL")
        || is_text(first, b".END")
}

fn row_of(
    alloc: Global,
    line: u64,
    is_open: bool,
    first: &[u8],
    words: &[&[u8]],
    params: &[Param],
) -> Result<CardRow, SpiceFault>
    ensures { Says result
        (row_of read_limit line is_open first.now (words_seen words.now) (params_seen params.now)) }
{
    if begin(first) == letter(DeviceKind::Mos4) {
        return device(alloc, line, DeviceKind::Mos4, words, params);
    }
    if begin(first) == letter(DeviceKind::ResistorWithBulk) {
        return device(alloc, line, DeviceKind::ResistorWithBulk, words, params);
    }
    if begin(first) == letter(DeviceKind::Diode) {
        return device(alloc, line, DeviceKind::Diode, words, params);
    }
    if begin(first) == b'X' {
        return call(alloc, line, words, params);
    }
    if is_text(first, b".SUBCKT") {
        return opens(alloc, line, is_open, words, params);
    }
    if is_text(first, b".ENDS") {
        return ends(alloc, line, is_open, words, params);
    }
    if is_text(first, b".GLOBAL") {
        return globals(alloc, line, words, params);
    }
    stops(line, words, params)
}

/// What a card says, or its first fault: another beginning than a card has before a form that
/// doesn't fit, before a parameter that can't be taken, before a value that is none. `is_open`
/// tells whether a circuit is open before it. Linear in the card.
pub fn read_card(
    alloc: Global,
    line: u64,
    is_open: bool,
    tokens: &[Token],
) -> Result<CardRow, SpiceFault>
    ensures { Says result (card_row read_limit line is_open (tokens_seen tokens.now)) }
{
    let [Token::Word(first), rest @ ..] = tokens else {
        return Err(SpiceFault::UnknownCard(line));
    };
    if is_passed(first) {
        return Ok(CardRow::Passed);
    }
    if !is_known(first) {
        return Err(SpiceFault::UnknownCard(line));
    }
    let mut words = Vec::new(alloc);
    let behind = read_words(&mut words, rest)?;
    let mut params = Vec::new(alloc);
    if !read_params(&mut params, behind)? {
        return Err(SpiceFault::BadLine(line));
    }
    row_of(alloc, line, is_open, first, &words, &params)
}
