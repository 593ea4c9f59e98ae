//! The names that `.PARAM` cards define, and their values, the scale that an option card sets, the
//! devices that `.DEVICE` cards list, and the pins of circuits.

ghost use Rattle.std.specs.Prelude.{◌≡◌, ◌++◌, ◌∷◌, [], false, map, IfErr, IfOk, OnOk, Ok};
ghost use Rattle.text_table.specs.Texts.{has_text};
ghost use Rattle.spice_cards.specs.Seen.{param_seen, params_seen as list_seen, seen, tokens_seen};
ghost use Rattle.spice_cards.specs.Seen.{words_seen};
ghost use Rattle.spice_cards.specs.Parts.{behind_words, params_of, words_of};
ghost use Rattle.netlist_turn.specs.DevicesSeen.{device_seen};
ghost use Rattle.netlist_run.specs.Defined.{params_or, params_seen, SaysFault, start};
ghost use Rattle.netlist_run.specs.Defined.{is_scale, value_in, with_card, with_param, with_params};
ghost use Rattle.netlist_run.specs.Defined.{listed_or, with_circuit, with_listed, with_scale};
ghost use Rattle.netlist_run.specs.Defined.{with_scales};
ghost use Rattle.net_names.specs.Folding.{folded_bytes};
ghost use Rattle.netlist_turn.specs.CardLaw.{kept_words};
ghost use Rattle.netlist_turn.specs.declared.rows.Row.TheVariants.{Opening};

use netlist_turn::{
    Device, Row, TurnFault, device_of, folded, is_list_word, is_option, is_param_word, is_text,
    kept_words, scale_of, unquoted,
};
use spice_cards::{Param, Token, read_params, read_words};
use std::alloc::{AllocError, Global};
use text_table::TextTable;

/// Names, folded, and the value of each; the scale in 10^-15; the names of devices, folded, and
/// what each is; and the names of circuits, folded, and the pins of each.
#[derive(Drop)]
pub struct Params {
    pub names: TextTable,
    pub values: Vec<Vec<u8>>,
    pub scale: Option<u128>,
    pub listed: TextTable,
    pub devices: Vec<Device>,
    pub pinned: TextTable,
    pub pins: Vec<Vec<Vec<u8>>>,
}

/// Nothing but a scale, where one is asked for.
pub fn start(alloc: Global, scale: Option<u128>) -> Params
    ensures { params_seen result ≡ start scale }
{
    Params {
        names: TextTable::new(alloc),
        values: Vec::new(alloc),
        scale,
        listed: TextTable::new(alloc),
        devices: Vec::new(alloc),
        pinned: TextTable::new(alloc),
        pins: Vec::new(alloc),
    }
}

fn push(alloc: Global, params: &mut Params, name: &[u8], value: &[u8]) -> Result<(), AllocError>
    requires { has_text params.old.names name.now ≡ false }
    ensures { OnOk result (params_seen params.new ≡ record (params_seen params.old) {
      names = (params_seen params.old).names ++ name.now ∷ [];
      values = (params_seen params.old).values ++ value.now ∷ [];
    }) }
{
    params.names.add(alloc, name)?;
    params.values.push(value.to_vec(alloc)?)?;
    Ok(())
}

fn add(alloc: Global, params: &mut Params, line: u64, param: &Param) -> Result<(), TurnFault>
    ensures made { OnOk result (with_param (params_seen params.old) line (param_seen param.now)
        ≡ Ok (params_seen params.new)) }
    ensures fault { IfErr result (λ e. SaysFault e
        (with_param (params_seen params.old) line (param_seen param.now))) }
{
    let name = folded(alloc, param.key)?;
    if params.names.contains(&name) {
        return Err(TurnFault::Twice(line));
    }
    push(alloc, params, &name, unquoted(param.value))?;
    Ok(())
}

fn add_all(alloc: Global, params: &mut Params, line: u64, all: &[Param]) -> Result<(), TurnFault>
    ensures made { OnOk result (with_params (params_seen params.old) line (list_seen all.now)
        ≡ Ok (params_seen params.new)) }
    ensures fault { IfErr result (λ e. SaysFault e
        (with_params (params_seen params.old) line (list_seen all.now))) }
{
    let mut rest = all;
    'params: while let [param, more @ ..] = rest {
        add(alloc, params, line, param)?;
        rest = more;
    }
    Ok(())
}

fn take_params(
    alloc: Global,
    params: &mut Params,
    line: u64,
    tokens: &[Token],
) -> Result<(), TurnFault>
    ensures made { OnOk result (params_or (params_seen params.old) line
        (params_of (tokens_seen tokens.now)) ≡ Ok (params_seen params.new)) }
    ensures fault { IfErr result (λ e. SaysFault e (params_or (params_seen params.old) line
        (params_of (tokens_seen tokens.now)))) }
{
    let mut found = Vec::new(alloc);
    if !read_params(&mut found, tokens)? {
        return Err(TurnFault::BadForm(line));
    }
    add_all(alloc, params, line, &found)
}

fn push_listed(
    alloc: Global,
    params: &mut Params,
    name: &[u8],
    device: Device,
) -> Result<(), AllocError>
    requires { has_text params.old.listed name.now ≡ false }
    ensures { OnOk result (params_seen params.new ≡ record (params_seen params.old) {
      listed = (params_seen params.old).listed ++ name.now ∷ [];
      devices = (params_seen params.old).devices ++ device_seen device ∷ [];
    }) }
{
    params.listed.add(alloc, name)?;
    params.devices.push(device)?;
    Ok(())
}

// Lists a name, which wasn't listed before.
fn list(
    alloc: Global,
    params: &mut Params,
    line: u64,
    words: &[&[u8]],
    all: &[Param],
) -> Result<(), TurnFault>
    ensures made { OnOk result (with_listed (params_seen params.old) line (words_seen words.now)
        (list_seen all.now) ≡ Ok (params_seen params.new)) }
    ensures fault { IfErr result (λ e. SaysFault e
        (with_listed (params_seen params.old) line (words_seen words.now) (list_seen all.now))) }
{
    let [name, behind @ ..] = words else {
        return Err(TurnFault::BadForm(line));
    };
    let name = folded(alloc, name)?;
    if params.listed.contains(&name) {
        return Err(TurnFault::ListedTwice(line));
    }
    match device_of(alloc, behind, all)? {
        None => Err(TurnFault::BadForm(line)),
        Some(device) => {
            push_listed(alloc, params, &name, device)?;
            Ok(())
        }
    }
}

fn take_listed(
    alloc: Global,
    params: &mut Params,
    line: u64,
    tokens: &[Token],
) -> Result<(), TurnFault>
    ensures made { OnOk result (listed_or (params_seen params.old) line
        (words_of (tokens_seen tokens.now)) (params_of (behind_words (tokens_seen tokens.now)))
        ≡ Ok (params_seen params.new)) }
    ensures fault { IfErr result (λ e. SaysFault e (listed_or (params_seen params.old) line
        (words_of (tokens_seen tokens.now))
        (params_of (behind_words (tokens_seen tokens.now))))) }
{
    let mut words = Vec::new(alloc);
    let mut found = Vec::new(alloc);
    let rest = read_words(&mut words, tokens)?;
    if !read_params(&mut found, rest)? {
        return Err(TurnFault::BadForm(line));
    }
    list(alloc, params, line, &words, &found)
}

fn folded_all(alloc: Global, words: &[&[u8]]) -> Result<Vec<Vec<u8>>, AllocError>
    ensures { IfOk result (λ ws. map (λ w. w.items) ws.items
        ≡ map folded_bytes (words_seen words.now)) }
{
    let mut all = Vec::new(alloc);
    let mut rest = words;
    'words: while let [word, more @ ..] = rest {
        all.push(folded(alloc, word)?)?;
        rest = more;
    }
    Ok(all)
}

fn push_pins(
    alloc: Global,
    params: &mut Params,
    name: &[u8],
    pins: Vec<Vec<u8>>,
) -> Result<(), AllocError>
    requires { has_text params.old.pinned name.now ≡ false }
    ensures { OnOk result (params_seen params.new ≡ record (params_seen params.old) {
      pinned = (params_seen params.old).pinned ++ name.now ∷ [];
      pins = (params_seen params.old).pins ++ map (λ p. p.items) pins.items ∷ [];
    }) }
{
    params.pinned.add(alloc, name)?;
    params.pins.push(pins)?;
    Ok(())
}

// Keeps the pins of the first circuit of a name.
fn add_circuit(alloc: Global, params: &mut Params, words: &[&[u8]]) -> Result<(), AllocError>
    ensures { OnOk result (params_seen params.new
        ≡ with_circuit (params_seen params.old) (words_seen words.now)) }
{
    let [name, pins @ ..] = words else {
        return Ok(());
    };
    let name = folded(alloc, name)?;
    if params.pinned.contains(&name) {
        return Ok(());
    }
    let pins = folded_all(alloc, pins)?;
    push_pins(alloc, params, &name, pins)
}

fn take_circuit(alloc: Global, params: &mut Params, tokens: &[Token]) -> Result<(), AllocError>
    ensures { OnOk result (params_seen params.new ≡ with_circuit (params_seen params.old)
        (kept_words Opening (words_of (tokens_seen tokens.now)))) }
{
    let mut words = Vec::new(alloc);
    let _rest = read_words(&mut words, tokens)?;
    let kept = kept_words(alloc, Row::Opening, &words)?;
    add_circuit(alloc, params, &kept)
}

// Sets the scale, which wasn't set before.
fn set_scale(params: &mut Params, line: u64, text: &[u8]) -> Result<(), TurnFault>
    ensures made { OnOk result (with_scale (params_seen params.old) line text.now
        ≡ Ok (params_seen params.new)) }
    ensures fault { IfErr result (λ e. SaysFault e
        (with_scale (params_seen params.old) line text.now)) }
{
    if params.scale.is_some() {
        return Err(TurnFault::SecondScale(line));
    }
    let Some(factor) = scale_of(text) else {
        return Err(TurnFault::BadScale(line));
    };
    params.scale = Some(factor);
    Ok(())
}

// What stands behind an `=`.
fn value_in<'a>(tokens: &[Token<'a>]) -> &'a [u8]
    ensures { result.now ≡ value_in (tokens_seen tokens.now) }
{
    match tokens {
        [Token::Equals, Token::Word(value), ..] => unquoted(value),
        _ => b"",
    }
}

fn is_scale(token: &Token) -> bool
    ensures { result ≡ is_scale (seen token.now) }
{
    match token {
        Token::Word(word) => is_text(word, b"SCALE"),
        Token::Equals => false,
    }
}

// Takes each scale of an option card.
fn take_scales(params: &mut Params, line: u64, tokens: &[Token]) -> Result<(), TurnFault>
    ensures made { OnOk result (with_scales (params_seen params.old) line (tokens_seen tokens.now)
        ≡ Ok (params_seen params.new)) }
    ensures fault { IfErr result (λ e. SaysFault e (with_scales (params_seen params.old) line
        (tokens_seen tokens.now))) }
{
    let mut rest = tokens;
    'tokens: while let [token, more @ ..] = rest {
        if is_scale(token) {
            set_scale(params, line, value_in(more))?;
        }
        rest = more;
    }
    Ok(())
}

/// Takes a card: a `.PARAM` defines each of its parameters, which wasn't defined before; a `.DEVICE`
/// lists a name, which wasn't listed before; an option card may set the scale, which wasn't set
/// before; and the pins of the first circuit of a name are kept.
pub fn take(
    alloc: Global,
    params: &mut Params,
    line: u64,
    tokens: &[Token],
) -> Result<(), TurnFault>
    ensures made { OnOk result (with_card (params_seen params.old) line (tokens_seen tokens.now)
        ≡ Ok (params_seen params.new)) }
    ensures fault { IfErr result (λ e. SaysFault e (with_card (params_seen params.old) line
        (tokens_seen tokens.now))) }
{
    match tokens {
        [Token::Word(first), behind @ ..] => {
            if is_param_word(first) {
                return take_params(alloc, params, line, behind);
            }
            if is_list_word(first) {
                return take_listed(alloc, params, line, behind);
            }
            if is_option(first) {
                return take_scales(params, line, behind);
            }
            if is_text(first, b".SUBCKT") {
                take_circuit(alloc, params, behind)?;
            }
            Ok(())
        }
        _ => Ok(()),
    }
}
