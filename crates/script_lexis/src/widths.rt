//! How many bytes a token has.

ghost use Rattle.std.specs.Prelude.{◌≡◌, ◌==◌, ◌≤◌, length, IfSome};
ghost use Rattle.std.specs.List.{prefix_len, position_or_len};
ghost use Rattle.script_lexis.specs.Bytes.{is_digit, is_figure, is_letter, is_word};
ghost use Rattle.script_lexis.specs.Texts.{inner_step, inner_text_step, is_broken, is_ended};
ghost use Rattle.script_lexis.specs.Texts.{plain_step, step, text_len};
ghost use Rattle.script_lexis.specs.declared.widths.Inside.TheVariants.{Plain};

/// Where the reading of a text stands: among plain bytes, behind a backslash, behind a `#`, between
/// `#{` and `}`, there in a text of its own, behind the text's end, or where it can't go on.
#[derive(Clone, Copy, Debug)]
pub enum Inside {
    Plain,
    Escaped,
    Hash,
    Inner,
    InnerText(u8),
    Ended,
    Broken,
}

pub fn is_digit(b: u8) -> bool
    ensures { result ≡ is_digit b }
{
    b >= b'0' && b <= b'9'
}

pub fn is_letter(b: u8) -> bool
    ensures { result ≡ is_letter b }
{
    b.is_ascii_lowercase() || b.is_ascii_uppercase() || b == b'_'
}

pub fn is_word(b: u8) -> bool
    ensures { result ≡ is_word b }
{
    is_digit(b) || is_letter(b)
}

fn is_figure(b: u8) -> bool
    ensures { result ≡ is_figure b }
{
    is_digit(b) || b == b'_'
}

/// How many letters, digits and `_` stand in front.
pub fn word_len(bytes: &[u8]) -> usize
    ensures len { result ≡ prefix_len is_word bytes.now }
    ensures within { result ≤ length bytes.now }
{
    let mut n = 0;
    while n < bytes.len() && is_word(bytes[n]) {
        n += 1;
    }
    n
}

/// How many digits and `_` stand in front.
pub fn figures_len(bytes: &[u8]) -> usize
    ensures len { result ≡ prefix_len is_figure bytes.now }
    ensures within { result ≤ length bytes.now }
{
    let mut n = 0;
    while n < bytes.len() && is_figure(bytes[n]) {
        n += 1;
    }
    n
}

/// Where the line ends, without its LF.
pub fn line_len(bytes: &[u8]) -> usize
    ensures len { result ≡ position_or_len (λ b. b == 0x0A) bytes.now }
    ensures within { result ≤ length bytes.now }
{
    let mut n = 0;
    while n < bytes.len() && bytes[n] != b'\n' {
        n += 1;
    }
    n
}

fn plain_step(quote: u8, b: u8) -> Inside
    ensures { result ≡ plain_step quote b }
{
    if b == b'\n' {
        Inside::Broken
    } else if b == quote {
        Inside::Ended
    } else if b == b'\\' {
        Inside::Escaped
    } else if b == b'#' && quote == b'"' {
        Inside::Hash
    } else {
        Inside::Plain
    }
}

fn inner_step(b: u8) -> Inside
    ensures { result ≡ inner_step b }
{
    if b == b'}' {
        Inside::Plain
    } else if b == b'"' || b == b'\'' {
        Inside::InnerText(b)
    } else if b == b'\n' || b == b'{' || b == b'\\' {
        Inside::Broken
    } else {
        Inside::Inner
    }
}

fn inner_text_step(inner: u8, b: u8) -> Inside
    ensures { result ≡ inner_text_step inner b }
{
    if b == inner {
        Inside::Inner
    } else if b == b'\n' || b == b'{' || b == b'\\' {
        Inside::Broken
    } else {
        Inside::InnerText(inner)
    }
}

fn step(quote: u8, at: Inside, b: u8) -> Inside
    ensures { result ≡ step quote at b }
{
    match at {
        Inside::Plain => plain_step(quote, b),
        Inside::Escaped => {
            if b == b'\n' {
                Inside::Broken
            } else {
                Inside::Plain
            }
        }
        Inside::Hash => {
            if b == b'{' {
                Inside::Inner
            } else {
                plain_step(quote, b)
            }
        }
        Inside::Inner => inner_step(b),
        Inside::InnerText(inner) => inner_text_step(inner, b),
        Inside::Ended => Inside::Ended,
        Inside::Broken => Inside::Broken,
    }
}

fn is_ended(at: Inside) -> bool
    ensures { result ≡ is_ended at }
{
    matches!(at, Inside::Ended)
}

fn is_broken(at: Inside) -> bool
    ensures { result ≡ is_broken at }
{
    matches!(at, Inside::Broken)
}

/// How many bytes a text has behind its first quote, its last quote among them; none where it
/// doesn't end on its line. Linear.
pub fn text_len(quote: u8, bytes: &[u8]) -> Option<usize>
    ensures len { result ≡ text_len quote Plain 0 bytes.now }
    ensures some { IfSome result (λ n. 1 ≤ n) }
    ensures within { IfSome result (λ n. n ≤ length bytes.now) }
{
    let mut at = Inside::Plain;
    let mut n = 0;
    let mut rest = bytes;
    'bytes: while let [b, more @ ..] = rest {
        at = step(quote, at, *b);
        n += 1;
        if is_ended(at) {
            return Some(n);
        }
        if is_broken(at) {
            return None;
        }
        rest = more;
    }
    None
}
