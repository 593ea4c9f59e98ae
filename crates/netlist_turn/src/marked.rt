//! Cards on which `$` marks the model, the bulk and the sizes, in the order of other cards.

ghost use Rattle.std.specs.Prelude.{◌≡◌, ◌∷◌, [], ◌++◌, IfOk, OnOk, map};
ghost use Rattle.spice_cards.specs.Parts.{words_of};
ghost use Rattle.spice_cards.specs.Seen.{tokens_seen, words_seen};
ghost use Rattle.spice_cards.specs.Tokens.{Word as Said};
ghost use Rattle.netlist_turn.specs.Marked.{bare, bulks_in, has_marks, is_bulk_key, is_mark};
ghost use Rattle.netlist_turn.specs.Marked.{is_size_mark, marks_told, model_in, models_in};
ghost use Rattle.netlist_turn.specs.Marked.{ordered, others, unmarked, value_in};
ghost use Rattle.netlist_turn.specs.Seen.{seen};

use crate::listed::{kept_words, tell_words};
use crate::made::{Head, Kind, Turned};
use crate::rows::Row;
use crate::words::is_text;
use spice_cards::{Token, read_words};
use std::alloc::{AllocError, Global};

// `$[model]`
fn is_mark(word: &[u8]) -> bool
    ensures { result ≡ is_mark word.now }
{
    word.len() > 3 && word[0] == b'$' && word[1] == b'[' && word[word.len() - 1] == b']'
}

fn model_in(word: &[u8]) -> &[u8]
    ensures { result.now ≡ model_in word.now }
{
    if is_mark(word) && word.len() > 3 {
        &word[2..word.len() - 1]
    } else {
        word
    }
}

fn is_bulk_key(key: &[u8]) -> bool
    ensures { result ≡ is_bulk_key key.now }
{
    is_text(key, b"$SUB")
}

fn is_size_mark(key: &[u8]) -> bool
    ensures { result ≡ is_size_mark key.now }
{
    is_text(key, b"$W") || is_text(key, b"$L")
}

fn bare(key: &[u8]) -> &[u8]
    ensures { result.now ≡ bare key.now }
{
    if is_size_mark(key) && !key.is_empty() {
        &key[1..key.len()]
    } else {
        key
    }
}

/// Whether `$` marks something on a card of these tokens.
pub fn has_marks(tokens: &[Token]) -> bool
    ensures { result ≡ has_marks (tokens_seen tokens.now) }
{
    let mut rest = tokens;
    'tokens: while let [token, more @ ..] = rest {
        if let Token::Word(word) = token {
            if is_mark(word) || is_bulk_key(word) || is_size_mark(word) {
                return true;
            }
        }
        rest = more;
    }
    false
}

// The words that are no marks.
fn unmarked<'a>(alloc: Global, words: &[&'a [u8]]) -> Result<Vec<&'a [u8]>, AllocError>
    ensures { IfOk result (λ ws. words_seen ws.items ≡ unmarked (words_seen words.now)) }
{
    let mut kept = Vec::new(alloc);
    let mut rest = words;
    'words: while let [word, more @ ..] = rest {
        if !is_mark(word) {
            kept.push(*word)?;
        }
        rest = more;
    }
    Ok(kept)
}

fn push_words<'a>(out: &mut Vec<Token<'a>>, words: &[&'a [u8]]) -> Result<(), AllocError>
    ensures { OnOk result (tokens_seen out.new.items
        ≡ tokens_seen out.old.items ++ map Said (words_seen words.now)) }
{
    let mut rest = words;
    'words: while let [word, more @ ..] = rest {
        out.push(Token::Word(*word))?;
        rest = more;
    }
    Ok(())
}

// What stands behind an `=`.
fn push_value<'a>(out: &mut Vec<Token<'a>>, tokens: &[Token<'a>]) -> Result<(), AllocError>
    ensures { OnOk result (tokens_seen out.new.items
        ≡ tokens_seen out.old.items ++ value_in (tokens_seen tokens.now)) }
{
    match tokens {
        [Token::Equals, Token::Word(value), ..] => {
            out.push(Token::Word(*value))?;
            Ok(())
        }
        _ => Ok(()),
    }
}

// The nets of bulks.
fn push_bulks<'a>(out: &mut Vec<Token<'a>>, tokens: &[Token<'a>]) -> Result<(), AllocError>
    ensures { OnOk result (tokens_seen out.new.items
        ≡ tokens_seen out.old.items ++ bulks_in (tokens_seen tokens.now)) }
{
    let mut rest = tokens;
    'tokens: while let [token, more @ ..] = rest {
        if let Token::Word(word) = token {
            if is_bulk_key(word) {
                push_value(out, more)?;
            }
        }
        rest = more;
    }
    Ok(())
}

fn push_models<'a>(out: &mut Vec<Token<'a>>, tokens: &[Token<'a>]) -> Result<(), AllocError>
    ensures { OnOk result (tokens_seen out.new.items
        ≡ tokens_seen out.old.items ++ models_in (tokens_seen tokens.now)) }
{
    let mut rest = tokens;
    'tokens: while let [token, more @ ..] = rest {
        if let Token::Word(word) = token {
            if is_mark(word) {
                out.push(Token::Word(model_in(word)))?;
            }
        }
        rest = more;
    }
    Ok(())
}

// A word that is neither a bulk's key nor a mark.
fn push_other<'a>(out: &mut Vec<Token<'a>>, word: &'a [u8]) -> Result<(), AllocError>
    ensures { OnOk result (tokens_seen out.new.items
        ≡ tokens_seen out.old.items ++ Said (bare word.now) ∷ []) }
{
    out.push(Token::Word(bare(word)))?;
    Ok(())
}

// The other tokens.
fn push_others<'a>(out: &mut Vec<Token<'a>>, tokens: &[Token<'a>]) -> Result<(), AllocError>
    ensures { OnOk result (tokens_seen out.new.items
        ≡ tokens_seen out.old.items ++ others 0 (tokens_seen tokens.now)) }
{
    let mut passed = 0usize;
    let mut rest = tokens;
    'tokens: while let [token, more @ ..] = rest {
        if passed > 0 {
            passed -= 1;
        } else {
            match token {
                Token::Equals => out.push(Token::Equals)?,
                Token::Word(word) => {
                    if is_bulk_key(word) && !is_mark(word) {
                        passed = 2;
                    } else if !is_mark(word) {
                        push_other(out, word)?;
                    }
                }
            }
        }
        rest = more;
    }
    Ok(())
}

// The tokens behind the first word, of which these are nets.
fn in_order<'a>(
    alloc: Global,
    nets: &[&'a [u8]],
    tokens: &[Token<'a>],
    behind: &[Token<'a>],
) -> Result<Vec<Token<'a>>, AllocError>
    ensures { IfOk result (λ ts. tokens_seen ts.items ≡ map Said (words_seen nets.now)
        ++ (bulks_in (tokens_seen tokens.now) ++ (models_in (tokens_seen tokens.now)
        ++ others 0 (tokens_seen behind.now)))) }
{
    let mut out = Vec::new(alloc);
    push_words(&mut out, nets)?;
    push_bulks(&mut out, tokens)?;
    push_models(&mut out, tokens)?;
    push_others(&mut out, behind)?;
    Ok(out)
}

/// The tokens behind a card's first word in the order of other cards, and tells that they are.
/// Linear in them.
pub fn order<'a>(
    alloc: Global,
    made: &mut Turned<'a>,
    head: Head<'a>,
    tokens: &[Token<'a>],
) -> Result<Vec<Token<'a>>, AllocError>
    ensures tokens { IfOk result (λ ts. tokens_seen ts.items
        ≡ ordered head.entry.row (tokens_seen tokens.now)) }
    ensures told { OnOk result (seen made.new ≡ marks_told head.entry.row (seen made.old)
        head.entry.line head.entry.first.now (tokens_seen tokens.now)) }
{
    let Head { line, row, first } = head;
    let mut words = Vec::new(alloc);
    let behind = read_words(&mut words, tokens)?;
    let nets = unmarked(alloc, &words)?;
    tell_words(made, row, line, &nets)?;
    made.tell(line, Kind::Marked, first)?;
    let kept = kept_words(alloc, row, &nets)?;
    in_order(alloc, &kept, tokens, behind)
}
