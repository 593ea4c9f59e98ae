//! The statements of a rule file, each read by a row of slots.

ghost use Rattle.std.specs.Prelude.{◌≡◌, IfSome};
ghost use Rattle.rule_lines.specs.Seen.{seen_all};
ghost use Rattle.rule_text.specs.Rows.{op_of, definition_of, wiring_of, flattening_of};
ghost use Rattle.rule_text.specs.Rows.{is_accepted, setting_of};
ghost use Rattle.rule_text.specs.Seen.{statement, statements};
ghost use Rattle.rule_text.specs.Filled.{IsFilled};

use crate::rules::Ask;
use crate::slots::Slot::{
    self, Exact, Fresh, Guesses, Key, Layer, Name, Operator, Quoted, Sign, Size,
};
use crate::slots::{fits, key_at, number_of, sign_at, size_at, word_at};
use geo_base::{LayerKey, Op};
use rule_lines::Token;

/// What a name is defined to be; a sized one is another grown, or shrunk below 0.
#[derive(Clone, Copy)]
pub enum Form<'a> {
    Input(LayerKey),
    Labels(LayerKey),
    Empty,
    Binary(Op, &'a [u8], &'a [u8]),
    Sized(&'a [u8], i32),
}

/// A transistor's class and its layers.
#[derive(Clone, Copy)]
pub struct Mos<'a> {
    pub class: &'a [u8],
    pub sd: &'a [u8],
    pub g: &'a [u8],
    pub w: &'a [u8],
    pub ts: &'a [u8],
    pub tg: &'a [u8],
    pub tb: &'a [u8],
}

/// A resistor's or a diode's class and its layers.
#[derive(Clone, Copy)]
pub enum More<'a> {
    Resistor {
        class: &'a [u8],
        r: &'a [u8],
        c: &'a [u8],
        w: &'a [u8],
        ta: &'a [u8],
        tw: &'a [u8],
    },
    Diode {
        class: &'a [u8],
        p: &'a [u8],
        n: &'a [u8],
        ta: &'a [u8],
        tc: &'a [u8],
    },
}

/// Regions of a name that are chosen by what is asked of them and another, or all others.
#[derive(Clone, Copy)]
pub struct Choice<'a> {
    pub ask: Ask,
    pub others: bool,
    pub region: &'a [u8],
    pub other: &'a [u8],
}

/// What a line states.
#[derive(Clone, Copy)]
pub enum Statement<'a> {
    Define(&'a [u8], Form<'a>),
    Choose(&'a [u8], Choice<'a>),
    Draw(&'a [u8], LayerKey),
    Connect(&'a [u8], &'a [u8]),
    Global(&'a [u8], &'a [u8]),
    Extract(Mos<'a>),
    Further(More<'a>),
    Same(&'a [u8], &'a [u8]),
    FlattenLayout(&'a [u8]),
    FlattenSchematic(&'a [u8]),
    FlattenUnmatched,
    SamePins,
    KeepCovered,
    Combine,
    MaxGuesses(u32),
    Accepted,
}

const OPEN: Slot = Sign(b'(');

const CLOSE: Slot = Sign(b')');

const COMMA: Slot = Sign(b',');

const EQUALS: Slot = Sign(b'=');

// N = input(L, D)
const INPUT: [Slot; 8] = [
    Fresh,
    EQUALS,
    Key(b"input"),
    OPEN,
    Layer,
    COMMA,
    Layer,
    CLOSE,
];

// N = labels(L, T)
const LABELS: [Slot; 8] = [
    Fresh,
    EQUALS,
    Key(b"labels"),
    OPEN,
    Layer,
    COMMA,
    Layer,
    CLOSE,
];

// N = polygon_layer
const POLYGON_LAYER: [Slot; 3] = [Fresh, EQUALS, Key(b"polygon_layer")];

// N = A & B, and so for |, - and ^
const BINARY: [Slot; 5] = [Fresh, EQUALS, Name, Operator, Name];

// N = A.sized(D)
const GROWN: [Slot; 8] = [
    Fresh,
    EQUALS,
    Name,
    Sign(b'.'),
    Key(b"sized"),
    OPEN,
    Size,
    CLOSE,
];

// N = A.sized(-D)
const SHRUNK: [Slot; 9] = [
    Fresh,
    EQUALS,
    Name,
    Sign(b'.'),
    Key(b"sized"),
    OPEN,
    Sign(b'-'),
    Size,
    CLOSE,
];

// N.output(L, D)
const OUTPUT: [Slot; 8] = [
    Name,
    Sign(b'.'),
    Key(b"output"),
    OPEN,
    Layer,
    COMMA,
    Layer,
    CLOSE,
];

// connect(A, B)
const CONNECT: [Slot; 6] = [Key(b"connect"), OPEN, Name, COMMA, Name, CLOSE];

// connect_global(A, "G")
const GLOBAL: [Slot; 6] = [Key(b"connect_global"), OPEN, Name, COMMA, Quoted, CLOSE];

// same_circuits("A", "B")
const SAME: [Slot; 6] = [Key(b"same_circuits"), OPEN, Quoted, COMMA, Quoted, CLOSE];

// netlist.flatten_circuit("A")
const FLATTEN_LAYOUT: [Slot; 6] = [
    Key(b"netlist"),
    Sign(b'.'),
    Key(b"flatten_circuit"),
    OPEN,
    Exact,
    CLOSE,
];

// schematic.flatten_circuit("B")
const FLATTEN_SCHEMATIC: [Slot; 6] = [
    Key(b"schematic"),
    Sign(b'.'),
    Key(b"flatten_circuit"),
    OPEN,
    Exact,
    CLOSE,
];

// flatten_unmatched
const FLATTEN_UNMATCHED: [Slot; 1] = [Key(b"flatten_unmatched")];

// same_pins
const SAME_PINS: [Slot; 1] = [Key(b"same_pins")];

// keep_covered
const KEEP_COVERED: [Slot; 1] = [Key(b"keep_covered")];

// combine_devices
const COMBINE: [Slot; 1] = [Key(b"combine_devices")];

// max_guesses(N)
const GUESSES: [Slot; 4] = [Key(b"max_guesses"), OPEN, Guesses, CLOSE];

// schematic("P")
const SCHEMATIC: [Slot; 4] = [Key(b"schematic"), OPEN, Quoted, CLOSE];

fn op_of(sign: u8) -> Op
    ensures { result ≡ op_of sign }
{
    match sign {
        b'&' => Op::And,
        b'|' => Op::Or,
        b'-' => Op::Not,
        _ => Op::Xor,
    }
}

#[tactic(auto, unfolding(crate::specs::Rows::definition_of))]
pub fn definition_of<'a>(tokens: &[Token<'a>]) -> Option<Statement<'a>>
    ensures is { statements result ≡ definition_of (seen_all tokens.now) }
    ensures filled { IfSome result (λ s. IsFilled (statement s)) }
{
    if fits(&INPUT, tokens) {
        return Some(Statement::Define(word_at(tokens, 0), Form::Input(key_at(tokens, 4, 6))));
    }
    if fits(&LABELS, tokens) {
        return Some(Statement::Define(word_at(tokens, 0), Form::Labels(key_at(tokens, 4, 6))));
    }
    if fits(&POLYGON_LAYER, tokens) {
        return Some(Statement::Define(word_at(tokens, 0), Form::Empty));
    }
    if fits(&BINARY, tokens) {
        return Some(Statement::Define(
            word_at(tokens, 0),
            Form::Binary(
                op_of(sign_at(tokens, 3)),
                word_at(tokens, 2),
                word_at(tokens, 4),
            ),
        ));
    }
    if fits(&GROWN, tokens) {
        let by = size_at(tokens, 6) as i32;
        return Some(Statement::Define(word_at(tokens, 0), Form::Sized(word_at(tokens, 2), by)));
    }
    if fits(&SHRUNK, tokens) {
        let by = -(size_at(tokens, 7) as i32);
        return Some(Statement::Define(word_at(tokens, 0), Form::Sized(word_at(tokens, 2), by)));
    }
    None
}

#[tactic(auto, unfolding(crate::specs::Rows::wiring_of))]
pub fn wiring_of<'a>(tokens: &[Token<'a>]) -> Option<Statement<'a>>
    ensures is { statements result ≡ wiring_of (seen_all tokens.now) }
    ensures filled { IfSome result (λ s. IsFilled (statement s)) }
{
    if fits(&OUTPUT, tokens) {
        return Some(Statement::Draw(word_at(tokens, 0), key_at(tokens, 4, 6)));
    }
    if fits(&CONNECT, tokens) {
        return Some(Statement::Connect(word_at(tokens, 2), word_at(tokens, 4)));
    }
    if fits(&GLOBAL, tokens) {
        return Some(Statement::Global(word_at(tokens, 2), word_at(tokens, 4)));
    }
    None
}

#[tactic(auto, unfolding(crate::specs::Rows::is_accepted))]
fn is_accepted(tokens: &[Token]) -> bool
    ensures { result ≡ is_accepted (seen_all tokens.now) }
{
    fits(&[], tokens)
        || fits(&[Key(b"deep")], tokens)
        || fits(&[Key(b"netlist")], tokens)
        || fits(&[Key(b"align")], tokens)
        || fits(&[Key(b"compare")], tokens)
        || fits(&SCHEMATIC, tokens)
}

#[tactic(auto, unfolding(crate::specs::Rows::flattening_of))]
pub fn flattening_of<'a>(tokens: &[Token<'a>]) -> Option<Statement<'a>>
    ensures is { statements result ≡ flattening_of (seen_all tokens.now) }
    ensures filled { IfSome result (λ s. IsFilled (statement s)) }
{
    if fits(&FLATTEN_LAYOUT, tokens) {
        return Some(Statement::FlattenLayout(word_at(tokens, 4)));
    }
    if fits(&FLATTEN_SCHEMATIC, tokens) {
        return Some(Statement::FlattenSchematic(word_at(tokens, 4)));
    }
    if fits(&FLATTEN_UNMATCHED, tokens) {
        return Some(Statement::FlattenUnmatched);
    }
    None
}

#[tactic(auto, unfolding(crate::specs::Rows::setting_of))]
pub fn setting_of<'a>(tokens: &[Token<'a>]) -> Option<Statement<'a>>
    ensures is { statements result ≡ setting_of (seen_all tokens.now) }
    ensures filled { IfSome result (λ s. IsFilled (statement s)) }
{
    if fits(&SAME, tokens) {
        return Some(Statement::Same(word_at(tokens, 2), word_at(tokens, 4)));
    }
    if fits(&GUESSES, tokens) {
        return Some(Statement::MaxGuesses(number_of(1_000_000, word_at(tokens, 2)).unwrap_or(0)));
    }
    if fits(&SAME_PINS, tokens) {
        return Some(Statement::SamePins);
    }
    if fits(&KEEP_COVERED, tokens) {
        return Some(Statement::KeepCovered);
    }
    if fits(&COMBINE, tokens) {
        return Some(Statement::Combine);
    }
    if is_accepted(tokens) {
        return Some(Statement::Accepted);
    }
    None
}
