//! The lines of a text, and the first byte that no text has.

ghost use Rattle.std.specs.Prelude.{◌≡◌, ◌==◌, ◌<◌, ◌≤◌, ◌∷◌, length, position};
ghost use Rattle.std.specs.List.{position_or_len};
ghost use Rattle.rule_lines.specs.Lines.{is_no_text, lines_of, chopped};

/// Where the first byte stands that no text has: a control byte that is no tab, LF or CR.
pub fn first_no_text(bytes: &[u8]) -> Option<usize>
    ensures { result ≡ position is_no_text bytes.now }
{
    bytes.iter().position(|b| is_no_text(*b))
}

fn is_no_text(b: u8) -> bool
    ensures { result ≡ is_no_text b }
{
    b <= 8 || b == 11 || b == 12 || (b >= 14 && b <= 31) || b == 127
}

/// The first line of a text, without its LF or CR LF, and what follows it.
pub fn next_line(bytes: &[u8]) -> (&[u8], &[u8])
    requires { 0 < length bytes.now }
    ensures lines { lines_of bytes.now ≡ result.0.now ∷ lines_of result.1.now }
    ensures less { length result.1.now < length bytes.now }
{
    let n = place_of(bytes, b'\n');
    if n < bytes.len() {
        (chopped(&bytes[..n]), &bytes[n + 1..])
    } else {
        (bytes, &bytes[bytes.len()..])
    }
}

// A CR right before an LF belongs to the line's end.
fn chopped(line: &[u8]) -> &[u8]
    ensures { result.now ≡ chopped line.now }
{
    if line.len() > 0 && line[line.len() - 1] == b'\r' {
        &line[..line.len() - 1]
    } else {
        line
    }
}

/// Where a byte stands first, or the length.
pub fn place_of(bytes: &[u8], byte: u8) -> usize
    ensures place { result ≡ position_or_len (λ b. b == byte) bytes.now }
    ensures within { result ≤ length bytes.now }
{
    let mut n = 0;
    while n < bytes.len() && bytes[n] != byte {
        n += 1;
    }
    n
}
