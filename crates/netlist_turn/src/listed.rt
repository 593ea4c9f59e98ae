//! Cards that are made of cards of listed names.

ghost use Rattle.std.specs.Prelude.{◌≡◌, IfErr, IfOk, Ok, OnOk, Some, codes};
ghost use Rattle.std.specs.Option.{option_copied};
ghost use Rattle.spice_cards.specs.Parts.{words_of};
ghost use Rattle.spice_cards.specs.Seen.{param_seen, params_seen, tokens_seen, words_seen};
ghost use Rattle.std.specs.List.{count_by};
ghost use Rattle.netlist_turn.specs.CardLaw.{kept_words};
ghost use Rattle.netlist_turn.specs.Devices.{device_params, stands_for};
ghost use Rattle.netlist_turn.specs.DevicesSeen.{device_seen, keys_seen};
ghost use Rattle.netlist_turn.specs.Listed.{count_text, device_for, device_made, device_told};
ghost use Rattle.netlist_turn.specs.Listed.{has_odd, has_odd_count, is_manifold, is_odd};
ghost use Rattle.netlist_turn.specs.Listed.{has_nets, has_number, is_of_other, may_be_listed};
ghost use Rattle.netlist_turn.specs.Listed.{model_of, number_told, params_told, prefix, words_told};
ghost use Rattle.netlist_turn.specs.Made.{writing};
ghost use Rattle.netlist_turn.specs.Seen.{seen, SaysFault};
ghost use Rattle.netlist_turn.specs.Turning.{device_by, device_netted, device_said, device_taken};

use crate::device::{
    Device, Key, called_name, device_params, device_words, is_written, key_of, net_count,
    stands_for, word_at,
};
use crate::fault::TurnFault;
use crate::made::{Head, Kind, Turned};
use crate::rows::{Row, begin, left_out};
use crate::settings::{Settings, device_for, has_stuck, text_for};
use crate::words::is_number;
use plain_netlist::DeviceKind;
use spice_cards::{Param, Token, read_params, read_words};
use spice_rows::letter;
use std::alloc::{AllocError, Global};

/// Whether a card may be of a listed name.
pub fn may_be_listed(row: Row) -> bool
    ensures { result ≡ may_be_listed row }
{
    match row {
        Row::Call => true,
        Row::Device => true,
        Row::Resistor => true,
        Row::Capacitor => true,
        Row::Diode => true,
        Row::Foreign => true,
        _ => false,
    }
}

/// The words of a card that say something.
pub fn kept_words<'a>(
    alloc: Global,
    row: Row,
    words: &[&'a [u8]],
) -> Result<Vec<&'a [u8]>, AllocError>
    ensures { IfOk result (λ ws. words_seen ws.items ≡ kept_words row (words_seen words.now)) }
{
    let mut kept = Vec::new(alloc);
    let mut rest = words;
    'words: while let [word, more @ ..] = rest {
        match left_out(row, word, more) {
            None => kept.push(*word)?,
            Some(_) => {}
        }
        rest = more;
    }
    Ok(kept)
}

// The name: a call's last word, and of another card the last behind two nets.
#[tactic(auto, using(crate::proofs::DeviceLemmas::words_long))]
fn model_of<'a>(row: Row, words: &[&'a [u8]]) -> &'a [u8]
    ensures { result.now ≡ model_of row (words_seen words.now) }
{
    match row {
        Row::Call => called_name(words),
        _ => {
            if words.len() > 2 {
                called_name(words)
            } else {
                b""
            }
        }
    }
}

/// What the name of a card of this row and these tokens behind its first word is listed as.
pub fn called_device<'a>(
    alloc: Global,
    settings: &'a Settings,
    row: Row,
    behind: &[Token],
) -> Result<Option<&'a Device>, AllocError>
    ensures { IfOk result (λ d. option_copied d ≡ device_for settings.now
        (model_of row (kept_words row (words_of (tokens_seen behind.now))))) }
{
    let mut words = Vec::new(alloc);
    let _rest = read_words(&mut words, behind)?;
    let kept = kept_words(alloc, row, &words)?;
    device_for(alloc, settings, model_of(row, &kept))
}

// Whether a card that is no call has the letter of another kind.
fn is_of_other(row: Row, kind: DeviceKind, first: &[u8]) -> bool
    ensures { result ≡ is_of_other row kind first.now }
{
    match row {
        Row::Call => false,
        _ => begin(first) != letter(kind),
    }
}

// Whether a resistor's words have a number between its nets and its name.
#[tactic(auto, using(crate::proofs::DeviceLemmas::words_long, crate::proofs::DeviceLemmas::texts_long))]
fn has_number(row: Row, device: &Device, words: &[&[u8]]) -> bool
    ensures { result ≡ has_number row (device_seen device.now) (words_seen words.now) }
{
    match row {
        Row::Resistor => {
            let count = device.places.len().saturating_sub(device.fixed.len());
            words.len() == count + 2 && is_number(word_at(words, count))
        }
        _ => false,
    }
}

// Whether the words are as many nets as the list says, and the name.
#[tactic(auto, using(crate::proofs::DeviceLemmas::words_long, crate::proofs::DeviceLemmas::texts_long))]
fn has_nets(row: Row, device: &Device, words: &[&[u8]]) -> bool
    ensures { result ≡ has_nets row (device_seen device.now) (words_seen words.now) }
{
    let count = device.places.len().saturating_sub(device.fixed.len());
    words.len() == count + 1 || has_number(row, device, words)
}

// How many devices a call says.
fn count_text<'a>(
    alloc: Global,
    settings: &'a Settings,
    keys: &[Key],
    params: &[Param<'a>],
) -> Result<&'a [u8], AllocError>
    ensures { IfOk result (λ t. t.now
        ≡ count_text settings.now (keys_seen keys.now) (params_seen params.now)) }
{
    let mut rest = params;
    'params: while let [param, more @ ..] = rest {
        if stands_for(b"M", keys, param) {
            return text_for(alloc, settings, param);
        }
        rest = more;
    }
    Ok(b"1")
}

// Whether a count has to be 1 or as many, and is neither.
#[tactic(auto, using(crate::proofs::DeviceLemmas::odd_is))]
fn is_odd<'a>(
    alloc: Global,
    settings: &'a Settings,
    keys: &[Key],
    count: &[u8],
    param: &Param<'a>,
) -> Result<bool, AllocError>
    ensures { IfOk result (λ b. b
        ≡ is_odd settings.now (keys_seen keys.now) count.now (param_seen param.now)) }
{
    if !stands_for(b"CHECK", keys, param) {
        return Ok(false);
    }
    let text = text_for(alloc, settings, param)?;
    Ok(text != b"1".as_slice() && text != count)
}

fn has_odd<'a>(
    alloc: Global,
    settings: &'a Settings,
    keys: &[Key],
    count: &[u8],
    params: &[Param<'a>],
) -> Result<bool, AllocError>
    ensures { IfOk result (λ b. b
        ≡ has_odd settings.now (keys_seen keys.now) count.now (params_seen params.now)) }
{
    let mut rest = params;
    'params: while let [param, more @ ..] = rest {
        if is_odd(alloc, settings, keys, count, param)? {
            return Ok(true);
        }
        rest = more;
    }
    Ok(false)
}

// How many numbers of devices a call says.
fn counts(keys: &[Key], params: &[Param]) -> usize
    ensures { result ≡ count_by (stands_for (codes "M") (keys_seen keys.now))
        (params_seen params.now) }
{
    let mut n = 0;
    let mut rest = params;
    'params: while let [param, more @ ..] = rest {
        if stands_for(b"M", keys, param) {
            n += 1;
        }
        rest = more;
    }
    n
}

fn has_odd_count<'a>(
    alloc: Global,
    settings: &'a Settings,
    keys: &[Key],
    params: &[Param<'a>],
) -> Result<bool, AllocError>
    ensures { IfOk result (λ b. b
        ≡ has_odd_count settings.now (keys_seen keys.now) (params_seen params.now)) }
{
    if counts(keys, params) > 1 {
        return Ok(true);
    }
    let count = count_text(alloc, settings, keys, params)?;
    has_odd(alloc, settings, keys, count, params)
}

/// Tells the words of a card that say nothing.
pub fn tell_words<'a>(
    made: &mut Turned<'a>,
    row: Row,
    line: u64,
    words: &[&'a [u8]],
) -> Result<(), AllocError>
    ensures { OnOk result
        (seen made.new ≡ words_told row (seen made.old) line (words_seen words.now)) }
{
    let mut rest = words;
    'words: while let [word, more @ ..] = rest {
        match left_out(row, word, more) {
            None => {}
            Some(kind) => made.tell(line, kind, *word)?,
        }
        rest = more;
    }
    Ok(())
}

fn tell_number<'a>(
    made: &mut Turned<'a>,
    row: Row,
    line: u64,
    device: &Device,
    words: &[&'a [u8]],
) -> Result<(), AllocError>
    ensures { OnOk result (seen made.new ≡ number_told row (device_seen device.now)
        (seen made.old) line (words_seen words.now)) }
{
    if !has_number(row, device, words) {
        return Ok(());
    }
    made.tell(line, Kind::Number, word_at(words, net_count(device)))
}

fn tell_params<'a>(
    made: &mut Turned<'a>,
    line: u64,
    kind: DeviceKind,
    keys: &[Key],
    params: &[Param<'a>],
) -> Result<(), AllocError>
    ensures { OnOk result (seen made.new ≡ params_told kind (keys_seen keys.now) (seen made.old)
        line (params_seen params.now)) }
{
    let mut rest = params;
    'params: while let [param, more @ ..] = rest {
        if !is_written(kind, key_of(keys, param.key)) {
            made.tell(line, Kind::Parameter, param.key)?;
        }
        rest = more;
    }
    Ok(())
}

// The letter that comes before a call's first word.
fn push_prefix(made: &mut Turned, row: Row, kind: DeviceKind) -> Result<(), AllocError>
    ensures { OnOk result (seen made.new ≡ writing (seen made.old) (prefix row kind)) }
{
    match row {
        Row::Call => made.write(&[letter(kind)]),
        _ => made.write(b""),
    }
}

// Tells what of a card isn't in its device's card, and that it is one, and begins the card.
fn tell_device<'a>(
    made: &mut Turned<'a>,
    head: Head<'a>,
    kind: DeviceKind,
    device: &Device,
    words: &[&'a [u8]],
    kept: &[&'a [u8]],
    params: &[Param<'a>],
) -> Result<(), AllocError>
    requires { words_seen kept.now ≡ kept_words head.row (words_seen words.now) }
    ensures { OnOk result (seen made.new ≡ device_told head.entry.row kind (device_seen device.now)
        (seen made.old) head.entry.line (words_seen words.now) (params_seen params.now)) }
{
    let Head {
        line,
        row,
        first: _,
    } = head;
    tell_words(made, row, line, words)?;
    tell_number(made, row, line, device, kept)?;
    tell_params(made, line, kind, device.keys.as_slice(), params)?;
    made.tell(line, Kind::Device, called_name(kept))?;
    push_prefix(made, row, kind)
}

// Adds the card of a call's device.
fn push_device<'a>(
    alloc: Global,
    settings: &'a Settings,
    made: &mut Turned<'a>,
    head: Head<'a>,
    kind: DeviceKind,
    device: &'a Device,
    words: &[&'a [u8]],
    kept: &[&'a [u8]],
    params: &[Param<'a>],
    said: &[Param<'a>],
) -> Result<(), AllocError>
    requires kept { words_seen kept.now ≡ kept_words head.row (words_seen words.now) }
    requires said { params_seen said.now
        ≡ device_params kind (device_seen device.now).keys (params_seen params.now) }
    ensures { OnOk result (seen made.new ≡ device_made settings.now head.entry.row kind
        (device_seen device.now) (seen made.old) head.entry.line head.entry.first.now
        (words_seen words.now) (params_seen params.now)) }
{
    tell_device(made, head, kind, device, words, kept, params)?;
    let nets = device_words(alloc, device, kept)?;
    let listed = Head {
        line: head.line,
        row: Row::Listed,
        first: head.first,
    };
    made.push_card(alloc, settings, listed, &nets, said)
}

// Takes a card that is made with these parameters.
fn take_said<'a>(
    alloc: Global,
    settings: &'a Settings,
    made: &mut Turned<'a>,
    head: Head<'a>,
    kind: DeviceKind,
    device: &'a Device,
    words: &[&'a [u8]],
    kept: &[&'a [u8]],
    params: &[Param<'a>],
    said: &[Param<'a>],
) -> Result<(), TurnFault>
    requires kept { words_seen kept.now ≡ kept_words head.row (words_seen words.now) }
    requires said { params_seen said.now
        ≡ device_params kind (device_seen device.now).keys (params_seen params.now) }
    ensures made { OnOk result (device_said settings.now head.entry.row kind
        (device_seen device.now) (seen made.old) head.entry.line head.entry.first.now
        (words_seen words.now) (params_seen params.now) ≡ Ok (seen made.new)) }
    ensures fault { IfErr result (λ e. SaysFault e (device_said settings.now head.entry.row kind
        (device_seen device.now) (seen made.old) head.entry.line head.entry.first.now
        (words_seen words.now) (params_seen params.now))) }
{
    if has_stuck(alloc, settings, Row::Listed, said)? {
        return Err(TurnFault::Unscaled(head.line));
    }
    push_device(
        alloc, settings, made, head, kind, device, words, kept, params, said,
    )?;
    Ok(())
}

// Takes a card of a device of this kind, whose letter it has.
#[tactic(auto, using(crate::proofs::DeviceLemmas::words_long))]
fn take_netted<'a>(
    alloc: Global,
    settings: &'a Settings,
    made: &mut Turned<'a>,
    head: Head<'a>,
    kind: DeviceKind,
    device: &'a Device,
    words: &[&'a [u8]],
    params: &[Param<'a>],
) -> Result<(), TurnFault>
    ensures made { OnOk result (device_netted settings.now head.entry.row kind (device_seen device.now)
        (seen made.old) head.entry.line head.entry.first.now (words_seen words.now)
        (params_seen params.now) ≡ Ok (seen made.new)) }
    ensures fault { IfErr result (λ e. SaysFault e (device_netted settings.now head.entry.row
        kind (device_seen device.now) (seen made.old) head.entry.line head.entry.first.now
        (words_seen words.now) (params_seen params.now))) }
{
    let keys = device.keys.as_slice();
    let kept = kept_words(alloc, head.row, words)?;
    if !has_nets(head.row, device, &kept) {
        return Err(TurnFault::DeviceNets(head.line));
    }
    if has_odd_count(alloc, settings, keys, params)? {
        return Err(TurnFault::OddCount(head.line));
    }
    let said = device_params(alloc, kind, keys, params)?;
    take_said(
        alloc, settings, made, head, kind, device, words, &kept, params, &said,
    )
}

// Takes a card of a device of this kind.
fn take_kind<'a>(
    alloc: Global,
    settings: &'a Settings,
    made: &mut Turned<'a>,
    head: Head<'a>,
    kind: DeviceKind,
    device: &'a Device,
    words: &[&'a [u8]],
    params: &[Param<'a>],
) -> Result<(), TurnFault>
    ensures made { OnOk result (device_by settings.now head.entry.row (device_seen device.now)
        (seen made.old) head.entry.line head.entry.first.now (words_seen words.now)
        (params_seen params.now) (Some kind) ≡ Ok (seen made.new)) }
    ensures fault { IfErr result (λ e. SaysFault e (device_by settings.now head.entry.row
        (device_seen device.now) (seen made.old) head.entry.line head.entry.first.now
        (words_seen words.now) (params_seen params.now) (Some kind))) }
{
    if is_of_other(head.row, kind, head.first) {
        return Err(TurnFault::UnknownCard(head.line));
    }
    take_netted(alloc, settings, made, head, kind, device, words, params)
}

/// Takes a card of a listed name, which begins so, and of which these tokens stand behind its first
/// word. Linear in it.
pub fn take_device<'a>(
    alloc: Global,
    settings: &'a Settings,
    made: &mut Turned<'a>,
    head: Head<'a>,
    device: &'a Device,
    behind: &[Token<'a>],
) -> Result<(), TurnFault>
    ensures made { OnOk result (device_taken settings.now head.entry.row (device_seen device.now)
        (seen made.old) head.entry.line head.entry.first.now (tokens_seen behind.now)
        ≡ Ok (seen made.new)) }
    ensures fault { IfErr result (λ e. SaysFault e (device_taken settings.now head.entry.row
        (device_seen device.now) (seen made.old) head.entry.line head.entry.first.now
        (tokens_seen behind.now))) }
{
    let mut words = Vec::new(alloc);
    let mut params = Vec::new(alloc);
    let rest = read_words(&mut words, behind)?;
    if !read_params(&mut params, rest)? {
        return Err(TurnFault::BadForm(head.line));
    }
    match device.kind {
        None => {
            made.tell(head.line, Kind::Card, head.first)?;
            Ok(())
        }
        Some(kind) => take_kind(alloc, settings, made, head, kind, device, &words, &params),
    }
}
