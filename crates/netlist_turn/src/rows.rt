//! Which kind of card a first word begins, and which of its words and parameters say something.

ghost use Rattle.std.specs.Prelude.{◌≡◌};
ghost use Rattle.spice_cards.specs.Seen.{tokens_seen, words_seen};
ghost use Rattle.plain_netlist.specs.declared.kinds.DeviceKind.TheVariants.{Mos4};
ghost use Rattle.spice_rows.specs.Params.{is_device_key};
ghost use Rattle.spice_rows.specs.Rows.{begin};
ghost use Rattle.std.specs.Prelude.{codes};
ghost use Rattle.spice_rows.specs.Names.{is_text};
ghost use Rattle.netlist_turn.specs.Words.{is_circuit_end, is_edge_key, is_kept_key, is_none};
ghost use Rattle.netlist_turn.specs.Words.{is_analysis_word, is_output_word, is_passed_word};
ghost use Rattle.netlist_turn.specs.Words.{is_area_key, is_size_key, last_number};
ghost use Rattle.netlist_turn.specs.Words.{left_out, row_of};
ghost use Rattle.netlist_turn.specs.Words.{changes_sizes, has_size_option, is_option};
ghost use Rattle.netlist_turn.specs.Words.{is_size_option};

use crate::made::Kind;
use crate::words::{folded_byte, is_number, is_params, is_text};
use spice_cards::Token;

/// A kind of card.
#[derive(Clone, Copy)]
pub enum Row {
    Device,
    Call,
    /// `.SUBCKT`
    Opening,
    /// `.ENDS`
    Ending,
    /// `.GLOBAL`
    Plain,
    /// A card that is made of a call of a listed name.
    Listed,
    /// A card that says nothing of the netlist, or that was done with before.
    Passed,
    Capacitor,
    Resistor,
    Diode,
    /// A bipolar transistor or an inductor, which are of no kind.
    Foreign,
    Unknown,
}

/// Whether a card begins with `.PARAM`.
pub fn is_param_word(word: &[u8]) -> bool
    ensures { result ≡ is_text (codes ".PARAM") word.now }
{
    is_text(word, b".PARAM")
}

/// Whether a card begins with `.DEVICE`.
pub fn is_list_word(word: &[u8]) -> bool
    ensures { result ≡ is_text (codes ".DEVICE") word.now }
{
    is_text(word, b".DEVICE")
}

/// Whether a card begins with `.OPTION` or `.OPTIONS`.
pub fn is_option(word: &[u8]) -> bool
    ensures { result ≡ is_option word.now }
{
    is_text(word, b".OPTION") || is_text(word, b".OPTIONS")
}

fn is_size_option(word: &[u8]) -> bool
    ensures { result ≡ is_size_option word.now }
{
    is_text(word, b"SCALM")
        || is_text(word, b"DEFL")
        || is_text(word, b"DEFW")
        || is_text(word, b"DEFAD")
        || is_text(word, b"DEFAS")
}

fn has_size_option(tokens: &[Token]) -> bool
    ensures { result ≡ has_size_option (tokens_seen tokens.now) }
{
    let mut rest = tokens;
    'tokens: while let [token, more @ ..] = rest {
        if let Token::Word(word) = token {
            if is_size_option(word) {
                return true;
            }
        }
        rest = more;
    }
    false
}

/// Whether a card sets an option by which sizes are others than those that stand on cards.
pub fn changes_sizes(first: &[u8], behind: &[Token]) -> bool
    ensures { result ≡ changes_sizes first.now (tokens_seen behind.now) }
{
    is_option(first) && has_size_option(behind)
}

// A first word of cards that say what a simulator computes.
fn is_analysis_word(word: &[u8]) -> bool
    ensures { result ≡ is_analysis_word word.now }
{
    is_text(word, b".TRAN")
        || is_text(word, b".AC")
        || is_text(word, b".DC")
        || is_text(word, b".OP")
        || is_text(word, b".NOISE")
        || is_text(word, b".FOUR")
        || is_text(word, b".IC")
        || is_text(word, b".NODESET")
}

// And of cards that say what it tells.
fn is_output_word(word: &[u8]) -> bool
    ensures { result ≡ is_output_word word.now }
{
    is_text(word, b".SAVE")
        || is_text(word, b".PRINT")
        || is_text(word, b".PLOT")
        || is_text(word, b".PROBE")
        || is_text(word, b".MEAS")
        || is_text(word, b".MEASURE")
        || is_text(word, b".WIDTH")
        || is_text(word, b".TITLE")
}

fn is_passed_word(word: &[u8]) -> bool
    ensures { result ≡ is_passed_word word.now }
{
    is_param_word(word)
        || is_list_word(word)
        || is_text(word, b".INCLUDE")
        || is_text(word, b".INC")
        || is_text(word, b".LIB")
        || is_text(word, b".ENDL")
        || is_text(word, b".MODEL")
        || is_option(word)
        || is_text(word, b".TEMP")
        || is_text(word, b".END")
        || is_analysis_word(word)
        || is_output_word(word)
}

/// The first letter, folded.
pub fn begin(word: &[u8]) -> u8
    ensures { result ≡ begin word.now }
{
    folded_byte(if word.is_empty() { 0 } else { word[0] })
}

/// The kind of card that a first word begins.
pub fn row_of(first: &[u8]) -> Row
    ensures { result ≡ row_of first.now }
{
    if begin(first) == b'M' {
        return Row::Device;
    }
    if begin(first) == b'X' {
        return Row::Call;
    }
    if begin(first) == b'C' {
        return Row::Capacitor;
    }
    if begin(first) == b'R' {
        return Row::Resistor;
    }
    if begin(first) == b'D' {
        return Row::Diode;
    }
    if begin(first) == b'Q' || begin(first) == b'L' {
        return Row::Foreign;
    }
    if is_text(first, b".SUBCKT") {
        return Row::Opening;
    }
    if is_text(first, b".ENDS") {
        return Row::Ending;
    }
    if is_text(first, b".GLOBAL") {
        return Row::Plain;
    }
    if is_passed_word(first) {
        return Row::Passed;
    }
    Row::Unknown
}

fn is_circuit_end(words: &[&[u8]]) -> bool
    ensures { result ≡ is_circuit_end (words_seen words.now) }
{
    match words {
        [n] => !is_params(n),
        [_, p] => is_params(p),
        _ => false,
    }
}

fn last_number(word: &[u8], behind: &[&[u8]]) -> Option<Kind>
    ensures { result ≡ last_number word.now (words_seen behind.now) }
{
    if behind.is_empty() && is_number(word) {
        Some(Kind::Number)
    } else {
        None
    }
}

/// What a word is that says nothing, by the words behind it.
pub fn left_out(row: Row, word: &[u8], behind: &[&[u8]]) -> Option<Kind>
    ensures { result ≡ left_out row word.now (words_seen behind.now) }
{
    match row {
        Row::Call => {
            if is_params(word) && behind.is_empty() {
                return Some(Kind::Params);
            }
            if word == b"/".as_slice() && is_circuit_end(behind) {
                return Some(Kind::Slash);
            }
            None
        }
        Row::Opening => {
            if is_params(word) && behind.is_empty() {
                return Some(Kind::Params);
            }
            None
        }
        Row::Resistor => last_number(word, behind),
        Row::Capacitor => last_number(word, behind),
        Row::Foreign => last_number(word, behind),
        _ => None,
    }
}

fn is_device_key(key: &[u8]) -> bool
    ensures { result ≡ is_device_key Mos4 key.now }
{
    is_text(key, b"L")
        || is_text(key, b"W")
        || is_text(key, b"AS")
        || is_text(key, b"AD")
        || is_text(key, b"PS")
        || is_text(key, b"PD")
        || is_text(key, b"NRD")
        || is_text(key, b"NRS")
        || is_text(key, b"NF")
}

fn is_edge_key(key: &[u8]) -> bool
    ensures { result ≡ is_edge_key key.now }
{
    is_text(key, b"AS") || is_text(key, b"AD") || is_text(key, b"PS") || is_text(key, b"PD")
}

/// Whether a parameter of this name says something, or is passed over by the profile's reader;
/// where there is a scale, not areas and perimeters, which it changes.
pub fn is_kept_key(has_scale: bool, row: Row, key: &[u8]) -> bool
    ensures { result ≡ is_kept_key has_scale row key.now }
{
    match row {
        Row::Device => is_text(key, b"M") || is_device_key(key) && !(has_scale && is_edge_key(key)),
        Row::Call => is_text(key, b"M"),
        Row::Resistor => is_text(key, b"M") || is_text(key, b"L") || is_text(key, b"W"),
        Row::Diode => is_text(key, b"M") || is_text(key, b"P") || is_text(key, b"A"),
        Row::Opening => false,
        _ => true,
    }
}

/// Whether a parameter of this name is a length that the scale turns.
pub fn is_size_key(row: Row, key: &[u8]) -> bool
    ensures { result ≡ is_size_key row key.now }
{
    match row {
        Row::Device => is_text(key, b"L") || is_text(key, b"W"),
        Row::Resistor => is_text(key, b"L") || is_text(key, b"W"),
        Row::Diode => is_text(key, b"P"),
        Row::Listed => is_text(key, b"L") || is_text(key, b"W") || is_text(key, b"P"),
        _ => false,
    }
}

/// Whether a parameter of this name is an area, which the scale turns twice.
pub fn is_area_key(row: Row, key: &[u8]) -> bool
    ensures { result ≡ is_area_key row key.now }
{
    match row {
        Row::Diode => is_text(key, b"A"),
        Row::Listed => is_text(key, b"A"),
        _ => false,
    }
}
