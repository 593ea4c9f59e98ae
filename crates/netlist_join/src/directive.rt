//! The lines by which a netlist file takes others in.

ghost use Rattle.std.specs.Prelude.{◌≡◌, ◌==◌, ◌≤◌, drop, length, take};
ghost use Rattle.std.specs.List.{position_or_len};
ghost use Rattle.spice_cards.specs.Tokens.{is_blank};
ghost use Rattle.netlist_join.specs.Directives.{directive, include_split, is_end, library_split};
ghost use Rattle.netlist_join.specs.Directives.{next_word, quoted, split, without_blanks};
ghost use Rattle.netlist_join.specs.Seen.{says, split_seen};

use netlist_turn::is_text;

/// What a line says of files and their sections.
#[derive(Clone, Copy)]
pub enum Directive<'a> {
    None,
    /// `.INCLUDE path`
    Include(&'a [u8]),
    /// `.LIB path section`
    Section(&'a [u8], &'a [u8]),
    /// `.LIB section`, which begins a section of a file.
    Begins(&'a [u8]),
    /// `.ENDL`
    Ends,
    /// `.END`
    EndsFile,
    Bad,
}

fn is_blank(b: u8) -> bool
    ensures { result ≡ is_blank b }
{
    b == b' ' || b == b'\t'
}

/// What stands behind the blanks at the front.
pub fn skip_blanks(bytes: &[u8]) -> &[u8]
    ensures { result.now ≡ without_blanks bytes.now }
{
    let mut rest = bytes;
    'blanks: while let [b, more @ ..] = rest {
        if !is_blank(*b) {
            return rest;
        }
        rest = more;
    }
    rest
}

// Where a byte stands first, or the length.
fn place_of(bytes: &[u8], byte: u8) -> usize
    ensures place { result ≡ position_or_len (λ b. b == byte) bytes.now }
    ensures within { result ≤ length bytes.now }
{
    let mut n = 0;
    while n < bytes.len() && bytes[n] != byte {
        n += 1;
    }
    n
}

// Where a blank stands first, or the length.
fn blank_place(bytes: &[u8]) -> usize
    ensures place { result ≡ position_or_len is_blank bytes.now }
    ensures within { result ≤ length bytes.now }
{
    let mut n = 0;
    while n < bytes.len() && !is_blank(bytes[n]) {
        n += 1;
    }
    n
}

// A text up to its closing quote, and what stands behind; nothing where no such quote is there.
fn quoted(bytes: &[u8], quote: u8) -> Option<(&[u8], &[u8])>
    ensures { split_seen result ≡ quoted quote bytes.now }
{
    let n = place_of(bytes, quote);
    if n < bytes.len() {
        Some((&bytes[..n], &bytes[n + 1..]))
    } else {
        None
    }
}

fn word_at(bytes: &[u8]) -> (&[u8], &[u8])
    ensures word { result.0.now ≡ take (position_or_len is_blank bytes.now) bytes.now }
    ensures behind { result.1.now ≡ drop (position_or_len is_blank bytes.now) bytes.now }
{
    let n = blank_place(bytes);
    (&bytes[..n], &bytes[n..])
}

// The first word of bytes that no blank begins.
fn split(rest: &[u8]) -> Option<(&[u8], &[u8])>
    ensures { split_seen result ≡ split rest.now }
{
    match rest {
        [] => Some((rest, rest)),
        [b'\'', more @ ..] => quoted(more, b'\''),
        [b'"', more @ ..] => quoted(more, b'"'),
        _ => Some(word_at(rest)),
    }
}

// The first word, without quotes round it, and what stands behind; an empty word at the end.
fn next_word(bytes: &[u8]) -> Option<(&[u8], &[u8])>
    ensures { split_seen result ≡ next_word bytes.now }
{
    split(skip_blanks(bytes))
}

// Nothing, or a comment, stands there.
fn is_end(word: &[u8]) -> bool
    ensures { result ≡ is_end word.now }
{
    match word {
        [] => true,
        [b] => *b == b';' || *b == b'$',
        [b, _, ..] => *b == b';',
    }
}

fn include(bytes: &[u8]) -> Directive
    ensures { says result ≡ include_split (next_word bytes.now) }
{
    let Some((path, more)) = next_word(bytes) else {
        return Directive::Bad;
    };
    let Some((behind, _)) = next_word(more) else {
        return Directive::Bad;
    };
    if is_end(path) || !is_end(behind) {
        return Directive::Bad;
    }
    Directive::Include(path)
}

fn library(bytes: &[u8]) -> Directive
    ensures { says result ≡ library_split (next_word bytes.now) }
{
    let Some((first, more)) = next_word(bytes) else {
        return Directive::Bad;
    };
    let Some((second, behind)) = next_word(more) else {
        return Directive::Bad;
    };
    if is_end(first) {
        return Directive::Bad;
    }
    if is_end(second) {
        return Directive::Begins(first);
    }
    match next_word(behind) {
        None => Directive::Bad,
        Some((third, _)) => {
            if is_end(third) {
                Directive::Section(first, second)
            } else {
                Directive::Bad
            }
        }
    }
}

/// What a line says of files and their sections. Linear in the line.
pub fn directive_of(line: &[u8]) -> Directive
    ensures { says result ≡ directive line.now }
{
    let Some((word, more)) = next_word(line) else {
        return Directive::None;
    };
    if is_text(word, b".INCLUDE") || is_text(word, b".INC") {
        return include(more);
    }
    if is_text(word, b".LIB") {
        return library(more);
    }
    if is_text(word, b".ENDL") {
        return Directive::Ends;
    }
    if is_text(word, b".END") {
        return Directive::EndsFile;
    }
    Directive::None
}
