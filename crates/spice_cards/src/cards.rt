//! The cards of a netlist text: each a line, with the lines that go on with it.

ghost use Rattle.std.specs.Prelude.{◌≡◌, ◌++◌, ◌∷◌, [], ◌+◌, ◌<◌, ◌^◌, true, IfOk, OnOk};
ghost use Rattle.std.specs.Prelude.{MatchOption, MatchResult, Some, None, length};
ghost use Rattle.std.specs.List.{list_all};
ghost use Rattle.rule_lines.specs.Lines.{lines_of};
ghost use Rattle.spice_cards.specs.Tokens.{is_blank};
ghost use Rattle.spice_cards.specs.Cards.{is_passed, is_more, cut, cards_of, early_more_in};
ghost use Rattle.spice_cards.specs.Cards.{early_more, is_at_card, IsShown};
ghost use Rattle.spice_cards.specs.Seen.{tokens_seen};

use crate::tokens::{Token, is_blank, take_tokens};
use rule_lines::next_line;
use std::alloc::AllocError;
use std::marker::Model;

/// The cards of a netlist text, one after another: a line and the lines that go on with it, which
/// begin with `+`. Blank lines and those that begin with `*` are passed over.
#[derive(Drop)]
pub struct CardReader<'a> {
    rest: &'a [u8],
    line: u64,
}

impl<'a> Model for CardReader<'a> {
    ghost use Rattle.std.specs.Prelude.{◌≡◌, ◌+◌, ◌<◌, ◌^◌, true, List, length};
    ghost use Rattle.rule_lines.specs.Lines.{lines_of};
    ghost use Rattle.spice_cards.specs.Cards.{Card, cut, is_at_card};

    ghost Value = { List Card };

    ghost view = { λ r. (cut r.line (lines_of r.rest.now)).cards };

    ghost invariant = { λ r. (is_at_card (lines_of r.rest.now) ≡ true)
        × (r.line + length r.rest.now < 2 ^ 64) };
}

fn are_blank(line: &[u8]) -> bool
    ensures { result ≡ list_all is_blank line.now }
{
    line.iter().all(|b| is_blank(*b))
}

fn is_passed(line: &[u8]) -> bool
    ensures { result ≡ is_passed line.now }
{
    line.len() > 0 && line[0] == b'*' || are_blank(line)
}

fn is_more(line: &[u8]) -> bool
    ensures { result ≡ is_more line.now }
{
    match line {
        [] => false,
        [first, ..] => *first == b'+',
    }
}

// Passes over the lines before the first that is no comment and isn't blank.
fn skip_passed(text: &[u8], line: u64) -> (&[u8], u64)
    requires { line + length text.now < 2 ^ 64 }
    ensures cards { cut result.1 (lines_of result.0.now) ≡ cut line (lines_of text.now) }
    ensures early { early_more_in result.1 (lines_of result.0.now)
        ≡ early_more_in line (lines_of text.now) }
    ensures first { IsShown (lines_of result.0.now) }
    ensures room { result.1 + length result.0.now < 2 ^ 64 }
{
    let mut rest = text;
    let mut number = line;
    'passed: while !rest.is_empty() {
        let (line, behind) = next_line(rest);
        if !is_passed(line) {
            return (rest, number);
        }
        number += 1;
        rest = behind;
    }
    (rest, number)
}

// Takes the tokens of the lines that go on with a card, and says where the next card begins.
fn take_more<'a>(
    tokens: &mut Vec<Token<'a>>,
    text: &'a [u8],
    line: u64,
) -> Result<(&'a [u8], u64), AllocError>
    requires { line + length text.now < 2 ^ 64 }
    ensures tokens { OnOk result
        (tokens_seen tokens.new.items
        ≡ tokens_seen tokens.old.items ++ (cut line (lines_of text.now)).more) }
    ensures cards { IfOk result
        (λ r. (cut r.1 (lines_of r.0.now)).cards ≡ (cut line (lines_of text.now)).cards) }
    ensures first { IfOk result (λ r. is_at_card (lines_of r.0.now) ≡ true) }
    ensures room { IfOk result (λ r. r.1 + length r.0.now < 2 ^ 64) }
{
    let mut rest = text;
    let mut number = line;
    'more: while !rest.is_empty() {
        let (line, behind) = next_line(rest);
        if !is_passed(line) {
            if !is_more(line) {
                return Ok((rest, number));
            }
            take_tokens(tokens, &line[1..])?;
        }
        number += 1;
        rest = behind;
    }
    Ok((rest, number))
}

impl<'a> CardReader<'a> {
    /// The cards of a text, or the line of a `+` with no card before it.
    pub fn new(text: &'a [u8]) -> Result<CardReader<'a>, u64>
        ensures cards { IfOk result (λ r. r ≡ cards_of text.now) }
        ensures early { MatchResult result
            (λ _. early_more text.now ≡ None)
            (λ line. early_more text.now ≡ Some line) }
    {
        let (rest, line) = skip_passed(text, 1);
        if !rest.is_empty() {
            let (first, _) = next_line(rest);
            if is_more(first) {
                return Err(line);
            }
        }
        Ok(CardReader { rest, line })
    }

    /// The line of the next card, or none behind the last, and the card's tokens in place of those
    /// that `tokens` had. Linear in the card.
    pub fn next(&mut self, tokens: &mut Vec<Token<'a>>) -> Result<Option<u64>, AllocError>
        ensures { IfOk result (λ found. MatchOption found
            (self.old ≡ [])
            (λ line. self.old
            ≡ record { line = line; tokens = tokens_seen tokens.new.items } ∷ self.new)) }
    {
        tokens.clear();
        if self.rest.is_empty() {
            return Ok(None);
        }
        let line = self.line;
        let (first, behind) = next_line(self.rest);
        take_tokens(tokens, first)?;
        let (rest, number) = take_more(tokens, behind, line + 1)?;
        self.rest = rest;
        self.line = number;
        Ok(Some(line))
    }
}
