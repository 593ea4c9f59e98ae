//! The statements that choose regions of a layer, by what they have with another or by their area.

ghost use Rattle.std.specs.Prelude.{◌≡◌, ◌<◌, length, IfSome};
ghost use Rattle.rule_lines.specs.Seen.{seen_all};
ghost use Rattle.rule_text.specs.Choices.{relation_of, measure_of, range_of, relation_line};
ghost use Rattle.rule_text.specs.Choices.{measure_line};
ghost use Rattle.rule_text.specs.Rows.{word_at};
ghost use Rattle.rule_text.specs.Rules.{choice_of};
ghost use Rattle.rule_text.specs.Seen.{statement, statements};
ghost use Rattle.rule_text.specs.Filled.{IsFilled};

use crate::rows::{Choice, Statement};
use crate::rules::Ask;
use crate::slots::Slot::{self, Area, Bound, Fresh, Name, Sign};
use crate::slots::{area_at, fits, word_at};
use rule_lines::Token;

const EQUALS: Slot = Sign(b'=');

const DOT: Slot = Sign(b'.');

const OPEN: Slot = Sign(b'(');

const COMMA: Slot = Sign(b',');

const CLOSE: Slot = Sign(b')');

// N = A.interacting(B), and so for the other words
const ASKED: [Slot; 8] = [Fresh, EQUALS, Name, DOT, Name, OPEN, Name, CLOSE];

// N = A.with_area(V) and N = A.without_area(V)
const AREA: [Slot; 8] = [Fresh, EQUALS, Name, DOT, Name, OPEN, Area, CLOSE];

// N = A.with_area(L, H) and N = A.without_area(L, H)
const BETWEEN: [Slot; 10] = [
    Fresh, EQUALS, Name, DOT, Name, OPEN, Bound, COMMA, Bound, CLOSE,
];

// What a word asks of regions and another layer, and whether it chooses the others.
#[tactic(auto, unfolding(crate::specs::Choices::relation_of))]
fn relation_of(word: &[u8]) -> Option<(Ask, bool)>
    ensures { result ≡ relation_of word.now }
{
    if word == b"interacting".as_slice() {
        return Some((Ask::Interacting, false));
    }
    if word == b"not_interacting".as_slice() {
        return Some((Ask::Interacting, true));
    }
    if word == b"overlapping".as_slice() {
        return Some((Ask::Overlapping, false));
    }
    if word == b"not_overlapping".as_slice() {
        return Some((Ask::Overlapping, true));
    }
    if word == b"inside".as_slice() {
        return Some((Ask::Inside, false));
    }
    if word == b"not_inside".as_slice() {
        return Some((Ask::Inside, true));
    }
    if word == b"outside".as_slice() {
        return Some((Ask::Outside, false));
    }
    if word == b"not_outside".as_slice() {
        return Some((Ask::Outside, true));
    }
    None
}

// Whether a word that asks for an area chooses the others.
#[tactic(auto, unfolding(crate::specs::Choices::measure_of))]
fn measure_of(word: &[u8]) -> Option<bool>
    ensures { result ≡ measure_of word.now }
{
    if word == b"with_area".as_slice() {
        return Some(false);
    }
    if word == b"without_area".as_slice() {
        return Some(true);
    }
    None
}

// The least area, and the least that is too great.
#[tactic(auto, unfolding(crate::specs::Choices::range_of))]
fn range_of(tokens: &[Token]) -> Option<(u64, Option<u64>)>
    ensures is { result ≡ range_of (seen_all tokens.now) }
    ensures named { IfSome result (λ _. 0 < length (word_at 0 (seen_all tokens.now))) }
{
    if fits(&AREA, tokens) {
        let area = area_at(tokens, 6).unwrap_or(0);
        return Some((area, Some(area + 1)));
    }
    if !fits(&BETWEEN, tokens) {
        return None;
    }
    let (low, high) = (area_at(tokens, 6), area_at(tokens, 8));
    if low.is_none() && high.is_none() {
        return None;
    }
    Some((low.unwrap_or(0), high))
}

#[tactic(auto, unfolding(crate::specs::Choices::relation_line))]
fn relation_line<'a>(tokens: &[Token<'a>]) -> Option<Statement<'a>>
    ensures is { statements result ≡ relation_line (seen_all tokens.now) }
    ensures filled { IfSome result (λ s. IsFilled (statement s)) }
{
    if !fits(&ASKED, tokens) {
        return None;
    }
    match relation_of(word_at(tokens, 4)) {
        Some((ask, others)) => Some(Statement::Choose(
            word_at(tokens, 0),
            Choice {
                ask,
                others,
                region: word_at(tokens, 2),
                other: word_at(tokens, 6),
            },
        )),
        None => None,
    }
}

#[tactic(auto, unfolding(crate::specs::Choices::measure_line))]
fn measure_line<'a>(tokens: &[Token<'a>]) -> Option<Statement<'a>>
    ensures is { statements result ≡ measure_line (seen_all tokens.now) }
    ensures filled { IfSome result (λ s. IsFilled (statement s)) }
{
    let Some((low, high)) = range_of(tokens) else {
        return None;
    };
    let Some(others) = measure_of(word_at(tokens, 4)) else {
        return None;
    };
    Some(Statement::Choose(
        word_at(tokens, 0),
        Choice {
            ask: Ask::WithArea { low, high },
            others,
            region: word_at(tokens, 2),
            other: word_at(tokens, 2),
        },
    ))
}

/// The statement of a line that chooses regions.
pub fn choice_of<'a>(tokens: &[Token<'a>]) -> Option<Statement<'a>>
    ensures is { statements result ≡ choice_of (seen_all tokens.now) }
    ensures filled { IfSome result (λ s. IsFilled (statement s)) }
{
    if let Some(found) = relation_line(tokens) {
        return Some(found);
    }
    measure_line(tokens)
}
