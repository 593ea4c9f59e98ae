//! A line without comment, whose words the profile reads as they stand.

ghost use Rattle.std.specs.Prelude.{◌≡◌, ◌++◌, false, IfOk, OnOk};
ghost use Rattle.spice_cards.specs.Tokens.{is_blank};
ghost use Rattle.netlist_lines.specs.Cleaning.{Comes, begins_blank, begins_comment, cleaned};
ghost use Rattle.netlist_lines.specs.Cleaning.{has_comment, is_cut, with_line};
ghost use Rattle.netlist_lines.specs.Cleaning.{ends_split, ends_word, in_word, is_quote};
ghost use Rattle.netlist_lines.specs.Cleaning.{is_word_byte, spelled, step, word_next};

use std::alloc::AllocError;

/// Where the reading of a line stands: before a word, before a value, in a word, in an escaped
/// name, or in a text that this quote or brace ends.
#[derive(Clone, Copy, Debug)]
pub enum At {
    Before,
    Value,
    Within,
    Escaped,
    Quoted(u8),
}

/// Why a line is refused: quotes or braces in it don't end, or two words stand in them.
#[derive(Clone, Copy, Debug)]
pub enum LineFault {
    Open,
    Split,
}

/// What came of a line: it is whole, a comment at its end was left out, or it is refused.
#[derive(Clone, Copy, Debug)]
pub enum Cleaned {
    Whole,
    Cut,
    Refused(LineFault),
}

fn is_blank(b: u8) -> bool
    ensures { result ≡ is_blank b }
{
    b == b' ' || b == b'\t'
}

fn is_quote(b: u8) -> bool
    ensures { result ≡ is_quote b }
{
    b == b'\'' || b == b'"'
}

// A byte of an escaped name.
fn spell(out: &mut Vec<u8>, b: u8) -> Result<(), AllocError>
    ensures { OnOk result (out.new.items ≡ out.old.items ++ spelled b) }
{
    if b == b'\\' || b == b'=' {
        out.extend_from_slice(&[b'\\', b])?;
    } else {
        out.push(b)?;
    }
    Ok(())
}

fn take_in_word(out: &mut Vec<u8>, b: u8) -> Result<At, AllocError>
    ensures text { OnOk result (out.new.items ≡ out.old.items ++ (in_word b).text) }
    ensures at { IfOk result (λ next. next ≡ (in_word b).at) }
{
    if is_blank(b) {
        out.push(b)?;
        return Ok(At::Before);
    }
    if b == b'=' {
        out.push(b)?;
        return Ok(At::Value);
    }
    if b == b'\\' {
        spell(out, b)?;
        return Ok(At::Escaped);
    }
    out.push(b)?;
    Ok(At::Within)
}

fn take_before(out: &mut Vec<u8>, b: u8) -> Result<At, AllocError>
    ensures text { OnOk result (out.new.items ≡ out.old.items ++ (step At.Before b).text) }
    ensures at { IfOk result (λ next. next ≡ (step At.Before b).at) }
{
    if b == b'{' {
        out.push(b)?;
        return Ok(At::Quoted(b'}'));
    }
    take_in_word(out, b)
}

fn take_value(out: &mut Vec<u8>, b: u8) -> Result<At, AllocError>
    ensures text { OnOk result (out.new.items ≡ out.old.items ++ (step At.Value b).text) }
    ensures at { IfOk result (λ next. next ≡ (step At.Value b).at) }
{
    if is_blank(b) {
        out.push(b)?;
        return Ok(At::Value);
    }
    if is_quote(b) {
        out.push(b)?;
        return Ok(At::Quoted(b));
    }
    take_before(out, b)
}

fn take_escaped(out: &mut Vec<u8>, b: u8) -> Result<At, AllocError>
    ensures text { OnOk result (out.new.items ≡ out.old.items ++ (step At.Escaped b).text) }
    ensures at { IfOk result (λ next. next ≡ (step At.Escaped b).at) }
{
    if is_blank(b) {
        out.push(b)?;
        return Ok(At::Before);
    }
    spell(out, b)?;
    Ok(At::Escaped)
}

fn take_quoted(out: &mut Vec<u8>, quote: u8, b: u8) -> Result<At, AllocError>
    ensures text { OnOk result (out.new.items ≡ out.old.items ++ (step (At.Quoted quote) b).text) }
    ensures at { IfOk result (λ next. next ≡ (step (At.Quoted quote) b).at) }
{
    if is_blank(b) {
        return Ok(At::Quoted(quote));
    }
    if b == quote {
        out.push(b)?;
        return Ok(At::Within);
    }
    spell(out, b)?;
    Ok(At::Quoted(quote))
}

// Adds what a byte becomes, and answers where the reading stands behind it.
fn take(out: &mut Vec<u8>, at: At, b: u8) -> Result<At, AllocError>
    ensures text { OnOk result (out.new.items ≡ out.old.items ++ (step at b).text) }
    ensures at { IfOk result (λ next. next ≡ (step at b).at) }
{
    match at {
        At::Before => take_before(out, b),
        At::Within => take_in_word(out, b),
        At::Value => take_value(out, b),
        At::Escaped => take_escaped(out, b),
        At::Quoted(quote) => take_quoted(out, quote, b),
    }
}

fn ends_word(bytes: &[u8]) -> bool
    ensures { result ≡ ends_word bytes.now }
{
    match bytes {
        [] => true,
        [b, ..] => is_blank(*b),
    }
}

fn begins_comment(at: At, b: u8, behind: &[u8]) -> bool
    ensures { result ≡ begins_comment at b behind.now }
{
    match at {
        At::Before => b == b';' || b == b'$' && ends_word(behind),
        At::Value => b == b';' || b == b'$' && ends_word(behind),
        At::Within => false,
        At::Escaped => false,
        At::Quoted(_) => false,
    }
}

// A byte of names and numbers.
fn is_word_byte(b: u8) -> bool
    ensures { result ≡ is_word_byte b }
{
    b.is_ascii_alphanumeric() || b == b'_' || b == b'.'
}

// Whether a word stands next, behind blanks.
fn word_next(bytes: &[u8]) -> bool
    ensures { result ≡ word_next bytes.now }
{
    let mut rest = bytes;
    'blanks: while let [b, more @ ..] = rest {
        if !is_blank(*b) {
            return is_word_byte(*b);
        }
        rest = more;
    }
    false
}

fn begins_blank(bytes: &[u8]) -> bool
    ensures { result ≡ begins_blank bytes.now }
{
    match bytes {
        [] => false,
        [b, ..] => is_blank(*b),
    }
}

// Whether, in quotes or braces, a blank stands between a byte and the next word.
fn ends_split(at: At, b: u8, behind: &[u8]) -> bool
    ensures { result ≡ ends_split at b behind.now }
{
    match at {
        At::Quoted(_) => is_word_byte(b) && begins_blank(behind) && word_next(behind),
        At::Before => false,
        At::Value => false,
        At::Within => false,
        At::Escaped => false,
    }
}

// Adds what the rest of a line becomes.
fn clean(out: &mut Vec<u8>, bytes: &[u8]) -> Result<Cleaned, AllocError>
    ensures { IfOk result (Comes (cleaned out.old.items At.Before bytes.now)
        (is_cut At.Before bytes.now) out.new.items) }
{
    let mut at = At::Before;
    let mut rest = bytes;
    'bytes: while let [b, more @ ..] = rest {
        if begins_comment(at, *b, more) {
            return Ok(Cleaned::Cut);
        }
        if ends_split(at, *b, more) {
            return Ok(Cleaned::Refused(LineFault::Split));
        }
        at = take(out, at, *b)?;
        rest = more;
    }
    match at {
        At::Quoted(_) => Ok(Cleaned::Refused(LineFault::Open)),
        At::Before => Ok(Cleaned::Whole),
        At::Value => Ok(Cleaned::Whole),
        At::Within => Ok(Cleaned::Whole),
        At::Escaped => Ok(Cleaned::Whole),
    }
}

/// Adds what a line becomes: its comment is left out, a backslash stands for itself up to the end
/// of its word, and what stands in quotes behind `=`, or in braces, is one word. Linear in the line.
pub fn clean_line(out: &mut Vec<u8>, line: &[u8]) -> Result<Cleaned, AllocError>
    ensures { IfOk result (Comes (with_line out.old.items line.now) (has_comment line.now)
        out.new.items) }
{
    let mut rest = line;
    'blanks: while let [b, more @ ..] = rest {
        if !is_blank(*b) {
            return clean_shown(out, rest);
        }
        rest = more;
    }
    Ok(Cleaned::Whole)
}

// A line that no blank begins.
fn clean_shown(out: &mut Vec<u8>, line: &[u8]) -> Result<Cleaned, AllocError>
    requires { begins_blank line.now ≡ false }
    ensures { IfOk result (Comes (with_line out.old.items line.now) (has_comment line.now)
        out.new.items) }
{
    match line {
        [] => Ok(Cleaned::Whole),
        [b'*', ..] => Ok(Cleaned::Whole),
        [b'+', more @ ..] => {
            out.push(b'+')?;
            clean(out, more)
        }
        _ => clean(out, line),
    }
}
