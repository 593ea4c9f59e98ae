//! A text's cards, turned one after another.

ghost use Rattle.std.specs.Prelude.{◌≡◌, IfErr, IfOk, OnOk, Ok};
ghost use Rattle.spice_cards.specs.Seen.{tokens_seen, words_seen, params_seen};
ghost use Rattle.spice_cards.specs.Parts.{words_of};
ghost use Rattle.netlist_turn.specs.Made.{is_left as is_left_out};
ghost use Rattle.netlist_turn.specs.Seen.{seen, SaysFault};
ghost use Rattle.netlist_turn.specs.Turning.{after, by_fate, card_taken, drops_if, end_fate};
ghost use Rattle.netlist_turn.specs.Turning.{fate_of, is_opening, is_out, left_at, moved, open_fate};
ghost use Rattle.netlist_turn.specs.Turning.{device_at, opened, plain_taken, turned, turning};
ghost use Rattle.netlist_turn.specs.Turning.{first_taken, is_dropped, is_marked, is_sought};
ghost use Rattle.netlist_turn.specs.Pins.{by_place};
ghost use Rattle.netlist_turn.specs.Turning.{is_by_pins, is_unclear, ordered_taken, pins_taken};
ghost use Rattle.netlist_turn.specs.Turning.{row_taken};
ghost use Rattle.netlist_turn.specs.Words.{row_of};
ghost use Rattle.std.specs.Option.{option_copied};

use crate::device::{Device, word_at};
use crate::fault::TurnFault;
use crate::listed::{called_device, may_be_listed, take_device};
use crate::made::{Head, Kind, Turned, Where};
use crate::marked::{has_marks, order};
use crate::pins::{by_place, has_pins};
use crate::rows::{Row, changes_sizes, row_of};
use crate::settings::{Settings, has_shadow, has_stuck, is_left};
use crate::words::is_number;
use spice_cards::{CardReader, Token, read_params, read_words};
use std::alloc::{AllocError, Global};

/// What becomes of a card.
#[derive(Clone, Copy)]
pub enum Fate {
    Keeps,
    Drops,
    Refuses,
}

fn is_out(settings: &Settings, at: Where) -> bool
    ensures { result ≡ is_out settings.now at }
{
    match at {
        Where::Left => true,
        Where::Outside => !settings.all,
        Where::Kept => false,
    }
}

fn drops_if(drops: bool, fate: Fate) -> Fate
    ensures { result ≡ drops_if drops fate }
{
    if drops { Fate::Drops } else { fate }
}

fn open_fate(at: Where, left: bool) -> Fate
    ensures { result ≡ open_fate at left }
{
    match at {
        Where::Outside => drops_if(left, Fate::Keeps),
        Where::Kept => Fate::Refuses,
        Where::Left => Fate::Refuses,
    }
}

fn end_fate(at: Where) -> Fate
    ensures { result ≡ end_fate at }
{
    match at {
        Where::Left => Fate::Drops,
        Where::Outside => Fate::Keeps,
        Where::Kept => Fate::Keeps,
    }
}

fn fate_of(settings: &Settings, at: Where, row: Row, left: bool) -> Fate
    ensures { result ≡ fate_of settings.now at row left }
{
    let out = is_out(settings, at);
    match row {
        Row::Device => drops_if(out, Fate::Keeps),
        Row::Call => drops_if(out, Fate::Keeps),
        Row::Opening => open_fate(at, left),
        Row::Ending => end_fate(at),
        Row::Plain => Fate::Keeps,
        Row::Passed => Fate::Drops,
        Row::Capacitor => drops_if(out || settings.capacitors, Fate::Refuses),
        Row::Resistor => drops_if(out || settings.resistors, Fate::Keeps),
        Row::Diode => drops_if(out, Fate::Keeps),
        Row::Foreign => drops_if(out, Fate::Refuses),
        Row::Unknown => drops_if(out, Fate::Refuses),
        Row::Listed => Fate::Refuses,
    }
}

fn after(at: Where, row: Row, left: bool) -> Where
    ensures { result ≡ after at row left }
{
    match row {
        Row::Opening => { if left { Where::Left } else { Where::Kept } }
        Row::Ending => Where::Outside,
        _ => at,
    }
}

// Whether a resistor's third word is a number, so that it may be its bulk or its value.
fn is_unclear(row: Row, words: &[&[u8]]) -> bool
    ensures { result ≡ is_unclear row (words_seen words.now) }
{
    match row {
        Row::Resistor => is_number(word_at(words, 2)),
        _ => false,
    }
}

fn is_opening(row: Row) -> bool
    ensures { result ≡ is_opening row }
{
    matches!(row, Row::Opening)
}

// Does with a card what its fate says.
fn take_by_fate<'a>(
    alloc: Global,
    settings: &'a Settings,
    made: &mut Turned<'a>,
    head: Head<'a>,
    behind: &[Token<'a>],
    fate: Fate,
) -> Result<(), TurnFault>
    ensures made { OnOk result (by_fate settings.now head.entry.row (seen made.old) head.entry.line
        head.entry.first.now (tokens_seen behind.now) fate ≡ Ok (seen made.new)) }
    ensures fault { IfErr result (λ e. SaysFault e (by_fate settings.now head.entry.row
        (seen made.old)
        head.entry.line head.entry.first.now (tokens_seen behind.now) fate)) }
{
    let Head { line, row, first } = head;
    match fate {
        Fate::Refuses => Err(TurnFault::UnknownCard(line)),
        Fate::Drops => {
            if changes_sizes(first, behind) {
                return Err(TurnFault::Resized(line));
            }
            made.tell(line, Kind::Card, first)?;
            Ok(())
        }
        Fate::Keeps => {
            let mut words = Vec::new(alloc);
            let mut params = Vec::new(alloc);
            let rest = read_words(&mut words, behind)?;
            if !read_params(&mut params, rest)? {
                return Err(TurnFault::BadForm(line));
            }
            if is_opening(row) && has_shadow(alloc, settings, &params)? {
                return Err(TurnFault::Shadowed(line));
            }
            if is_unclear(row, &words) {
                return Err(TurnFault::UnknownCard(line));
            }
            if has_stuck(alloc, settings, row, &params)? {
                return Err(TurnFault::Unscaled(line));
            }
            made.push_card(alloc, settings, head, &words, &params)?;
            Ok(())
        }
    }
}

// Whether a circuit that these tokens name is left out, where they begin one.
fn left_at(
    alloc: Global,
    settings: &Settings,
    row: Row,
    tokens: &[Token],
) -> Result<bool, AllocError>
    ensures { IfOk result (λ b. b ≡ left_at row (is_left_out settings.now
        (words_of (tokens_seen tokens.now)))) }
{
    match row {
        Row::Opening => left_of(alloc, settings, tokens),
        _ => Ok(false),
    }
}

// Whether a circuit that these tokens name is left out.
fn left_of(alloc: Global, settings: &Settings, tokens: &[Token]) -> Result<bool, AllocError>
    ensures { IfOk result (λ b. b ≡ is_left_out settings.now (words_of (tokens_seen tokens.now))) }
{
    let mut words = Vec::new(alloc);
    let _rest = read_words(&mut words, tokens)?;
    is_left(alloc, settings, &words)
}

fn is_dropped(fate: Fate) -> bool
    ensures { result ≡ is_dropped fate }
{
    matches!(fate, Fate::Drops)
}

// Whether a card isn't left out, and may be of a listed name.
fn is_sought(settings: &Settings, at: Where, row: Row) -> bool
    ensures { result ≡ is_sought settings.now at row }
{
    may_be_listed(row) && !is_dropped(fate_of(settings, at, row, false))
}

// What a card of this row is listed as, where it isn't left out.
#[tactic(auto, using(crate::proofs::TakenLemmas::no_devices))]
fn device_at<'a>(
    alloc: Global,
    settings: &'a Settings,
    at: Where,
    row: Row,
    tokens: &[Token],
) -> Result<Option<&'a Device>, AllocError>
    ensures { IfOk result (λ d. option_copied d
        ≡ device_at settings.now at row (tokens_seen tokens.now)) }
{
    if settings.devices.len() == 0 || !is_sought(settings, at, row) {
        return Ok(None);
    }
    called_device(alloc, settings, row, tokens)
}

// Takes a card that begins so, and the tokens behind its first word.
fn take_row<'a>(
    alloc: Global,
    settings: &'a Settings,
    made: &mut Turned<'a>,
    head: Head<'a>,
    behind: &[Token<'a>],
) -> Result<(), TurnFault>
    ensures made { OnOk result (row_taken settings.now head.entry.row (seen made.old)
        head.entry.line head.entry.first.now (tokens_seen behind.now) ≡ Ok (seen made.new)) }
    ensures fault { IfErr result (λ e. SaysFault e (row_taken settings.now head.entry.row
        (seen made.old) head.entry.line head.entry.first.now (tokens_seen behind.now))) }
{
    match device_at(alloc, settings, made.at, head.row, behind)? {
        Some(device) => take_device(alloc, settings, made, head, device, behind),
        None => take_plain(alloc, settings, made, head.line, head.first, behind),
    }
}

// Takes a card of this first word and the tokens behind it, which is of no listed name.
fn take_plain<'a>(
    alloc: Global,
    settings: &'a Settings,
    made: &mut Turned<'a>,
    line: u64,
    first: &'a [u8],
    behind: &[Token<'a>],
) -> Result<(), TurnFault>
    ensures made { OnOk result (plain_taken settings.now (seen made.old) line first.now
        (tokens_seen behind.now) ≡ Ok (seen made.new)) }
    ensures fault { IfErr result (λ e. SaysFault e (plain_taken settings.now (seen made.old) line
        first.now (tokens_seen behind.now))) }
{
    let row = row_of(first);
    let left = left_at(alloc, settings, row, behind)?;
    let fate = fate_of(settings, made.at, row, left);
    made.at = after(made.at, row, left);
    let head = Head { line, row, first };
    take_by_fate(alloc, settings, made, head, behind, fate)
}

// Whether `$` marks something on a card that isn't left out, and is no call.
fn is_marked(settings: &Settings, at: Where, row: Row, tokens: &[Token]) -> bool
    ensures { result ≡ is_marked settings.now at row (tokens_seen tokens.now) }
{
    match row {
        Row::Call => false,
        _ => is_sought(settings, at, row) && has_marks(tokens),
    }
}

// Whether a call that isn't left out names pins.
fn is_by_pins(
    alloc: Global,
    settings: &Settings,
    at: Where,
    row: Row,
    tokens: &[Token],
) -> Result<bool, AllocError>
    ensures { IfOk result (λ b. b ≡ is_by_pins settings.now at row (tokens_seen tokens.now)) }
{
    match row {
        Row::Call => {
            if !is_sought(settings, at, row) {
                return Ok(false);
            }
            let mut words = Vec::new(alloc);
            let _rest = read_words(&mut words, tokens)?;
            Ok(has_pins(&words))
        }
        _ => Ok(false),
    }
}

// Takes a call that names pins.
fn take_pins<'a>(
    alloc: Global,
    settings: &'a Settings,
    made: &mut Turned<'a>,
    head: Head<'a>,
    behind: &[Token<'a>],
) -> Result<(), TurnFault>
    ensures made { OnOk result (pins_taken settings.now head.entry.row (seen made.old)
        head.entry.line head.entry.first.now (by_place settings.now (tokens_seen behind.now))
        ≡ Ok (seen made.new)) }
    ensures fault { IfErr result (λ e. SaysFault e (pins_taken settings.now head.entry.row
        (seen made.old) head.entry.line head.entry.first.now
        (by_place settings.now (tokens_seen behind.now)))) }
{
    match by_place(alloc, settings, behind)? {
        None => Err(TurnFault::OtherPins(head.line)),
        Some(tokens) => {
            made.tell(head.line, Kind::Pins, head.first)?;
            take_row(alloc, settings, made, head, &tokens)
        }
    }
}

// Takes a card on which `$` marks something.
#[tactic(auto, using(crate::proofs::TakenLemmas::ordered_is))]
fn take_ordered<'a>(
    alloc: Global,
    settings: &'a Settings,
    made: &mut Turned<'a>,
    head: Head<'a>,
    behind: &[Token<'a>],
) -> Result<(), TurnFault>
    ensures made { OnOk result (ordered_taken settings.now head.entry.row (seen made.old)
        head.entry.line head.entry.first.now (tokens_seen behind.now) ≡ Ok (seen made.new)) }
    ensures fault { IfErr result (λ e. SaysFault e (ordered_taken settings.now head.entry.row
        (seen made.old) head.entry.line head.entry.first.now (tokens_seen behind.now))) }
{
    let tokens = order(alloc, made, head, behind)?;
    take_row(alloc, settings, made, head, &tokens)
}

// Takes a card that begins so, in the order of other cards.
fn take_first<'a>(
    alloc: Global,
    settings: &'a Settings,
    made: &mut Turned<'a>,
    head: Head<'a>,
    behind: &[Token<'a>],
) -> Result<(), TurnFault>
    ensures made { OnOk result (first_taken settings.now head.entry.row (seen made.old)
        head.entry.line head.entry.first.now (tokens_seen behind.now) ≡ Ok (seen made.new)) }
    ensures fault { IfErr result (λ e. SaysFault e (first_taken settings.now head.entry.row
        (seen made.old) head.entry.line head.entry.first.now (tokens_seen behind.now))) }
{
    if is_marked(settings, made.at, head.row, behind) {
        return take_ordered(alloc, settings, made, head, behind);
    }
    if is_by_pins(alloc, settings, made.at, head.row, behind)? {
        return take_pins(alloc, settings, made, head, behind);
    }
    take_row(alloc, settings, made, head, behind)
}

// Takes a card of this first word and the tokens behind it.
fn take_word<'a>(
    alloc: Global,
    settings: &'a Settings,
    made: &mut Turned<'a>,
    line: u64,
    first: &'a [u8],
    behind: &[Token<'a>],
) -> Result<(), TurnFault>
    ensures made { OnOk result (first_taken settings.now (row_of first.now) (seen made.old) line
        first.now (tokens_seen behind.now) ≡ Ok (seen made.new)) }
    ensures fault { IfErr result (λ e. SaysFault e (first_taken settings.now (row_of first.now)
        (seen made.old) line first.now (tokens_seen behind.now))) }
{
    let row = row_of(first);
    take_first(alloc, settings, made, Head { line, row, first }, behind)
}

// Takes a card.
fn take_card<'a>(
    alloc: Global,
    settings: &'a Settings,
    made: &mut Turned<'a>,
    line: u64,
    tokens: &[Token<'a>],
) -> Result<(), TurnFault>
    ensures made { OnOk result (card_taken settings.now (seen made.old) line
        (tokens_seen tokens.now) ≡ Ok (seen made.new)) }
    ensures fault { IfErr result (λ e. SaysFault e (card_taken settings.now (seen made.old) line
        (tokens_seen tokens.now))) }
{
    match tokens {
        [Token::Word(first), behind @ ..] => {
            take_word(alloc, settings, made, line, *first, behind)
        }
        _ => Err(TurnFault::UnknownCard(line)),
    }
}

/// What becomes of a text's cards, or the first that can't be turned. Linear in the text; one card
/// at a time is held beside what is made.
pub fn turn_cards<'a>(
    alloc: Global,
    settings: &'a Settings,
    bytes: &'a [u8],
) -> Result<Turned<'a>, TurnFault>
    ensures made { IfOk result (λ t. turned settings.now bytes.now ≡ Ok (seen t)) }
    ensures fault { IfErr result (λ e. SaysFault e (turned settings.now bytes.now)) }
{
    let mut cards = match CardReader::new(bytes) {
        Ok(cards) => cards,
        Err(line) => return Err(TurnFault::EarlyMore(line)),
    };
    let mut made = Turned::new(alloc);
    let mut tokens = Vec::new(alloc);
    'cards: while let Some(line) = cards.next(&mut tokens)? {
        take_card(alloc, settings, &mut made, line, &tokens)?;
    }
    Ok(made)
}
