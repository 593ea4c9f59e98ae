//! The words and the parameters of a card.

ghost use Rattle.std.specs.Prelude.{◌≡◌, IfOk, OnOk, MatchBool, Some, None};
ghost use Rattle.spice_cards.specs.Parts.{begins_equals, words_of, behind_words, params_of};
ghost use Rattle.spice_cards.specs.Seen.{tokens_seen, words_seen, params_seen};

use crate::tokens::Token;
use std::alloc::AllocError;

/// A parameter: what stands before and behind its `=`.
#[derive(Clone, Copy)]
pub struct Param<'a> {
    pub key: &'a [u8],
    pub value: &'a [u8],
}

fn begins_equals(tokens: &[Token]) -> bool
    ensures { result ≡ begins_equals (tokens_seen tokens.now) }
{
    match tokens {
        [Token::Equals, ..] => true,
        _ => false,
    }
}

/// The words before the first parameter, in place of those that `words` had, and the tokens behind
/// them. Linear in the words.
pub fn read_words<'a, 'b>(
    words: &mut Vec<&'a [u8]>,
    tokens: &'b [Token<'a>],
) -> Result<&'b [Token<'a>], AllocError>
    ensures words { OnOk result (words_seen words.new.items ≡ words_of (tokens_seen tokens.now)) }
    ensures behind { IfOk result (λ r. tokens_seen r.now ≡ behind_words (tokens_seen tokens.now)) }
{
    words.clear();
    let mut rest = tokens;
    'words: while let [Token::Word(word), more @ ..] = rest {
        if begins_equals(more) {
            return Ok(rest);
        }
        words.push(*word)?;
        rest = more;
    }
    Ok(rest)
}

/// Whether the tokens are parameters alone, which then stand in `params` in place of those that it
/// had. Linear in the tokens.
pub fn read_params<'a>(
    params: &mut Vec<Param<'a>>,
    tokens: &[Token<'a>],
) -> Result<bool, AllocError>
    ensures { IfOk result (λ are. MatchBool are
        (params_of (tokens_seen tokens.now) ≡ Some (params_seen params.new.items))
        (params_of (tokens_seen tokens.now) ≡ None)) }
{
    params.clear();
    let mut rest = tokens;
    'params: while let [
        Token::Word(key),
        Token::Equals,
        Token::Word(value),
        more @ ..,
    ] = rest
    {
        params.push(Param {
            key: *key,
            value: *value,
        })?;
        rest = more;
    }
    Ok(rest.is_empty())
}
