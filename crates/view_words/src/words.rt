//! Words: names as they stand, in quotes, or in octal digits.

ghost use Rattle.std.specs.Prelude.{◌≡◌, ◌++◌, OnOk};
ghost use Rattle.std.specs.List.{list_all};
ghost use Rattle.view_words.specs.Words.{is_plain, is_plain_word, is_printable, octal, quoted};
ghost use Rattle.view_words.specs.Words.{spelled, word};

use std::alloc::AllocError;

fn is_plain(b: u8) -> bool
    ensures { result ≡ is_plain b }
{
    b.is_ascii_alphanumeric() || b"_.$".contains(&b)
}

fn are_plain(name: &[u8]) -> bool
    ensures { result ≡ list_all is_plain name.now }
{
    name.iter().all(|b| is_plain(*b))
}

fn is_plain_word(name: &[u8]) -> bool
    ensures { result ≡ is_plain_word name.now }
{
    match name {
        [] => false,
        [_, ..] => are_plain(name),
    }
}

fn is_printable(name: &[u8]) -> bool
    ensures { result ≡ list_all is_printable name.now }
{
    name.iter().all(|b| (b' '..=b'~').contains(b))
}

fn push_quoted_byte(out: &mut Vec<u8>, b: u8) -> Result<(), AllocError>
    ensures { OnOk result (out.new.items ≡ out.old.items ++ quoted b) }
{
    if b == b'\'' || b == b'\\' {
        return out.extend_from_slice(&[b'\\', b]);
    }
    out.push(b)?;
    Ok(())
}

fn push_quoted(out: &mut Vec<u8>, name: &[u8]) -> Result<(), AllocError>
    ensures { OnOk result (out.new.items ≡ out.old.items ++ spelled quoted name.now) }
{
    let mut rest = name;
    'bytes: while let [b, more @ ..] = rest {
        push_quoted_byte(out, *b)?;
        rest = more;
    }
    Ok(())
}

fn push_octal(out: &mut Vec<u8>, name: &[u8]) -> Result<(), AllocError>
    ensures { OnOk result (out.new.items ≡ out.old.items ++ spelled octal name.now) }
{
    let mut rest = name;
    'bytes: while let [b, more @ ..] = rest {
        let digits = [b'\\', b'0' + *b / 64, b'0' + *b / 8 % 8, b'0' + *b % 8];
        out.extend_from_slice(&digits)?;
        rest = more;
    }
    Ok(())
}

/// Appends the word of a name: as it stands if it isn't empty and has letters, digits and `_.$`
/// alone; in quotes if all its bytes are printable; else in quotes with each byte in octal digits.
/// Linear in the name.
pub fn push_word(out: &mut Vec<u8>, name: &[u8]) -> Result<(), AllocError>
    ensures { OnOk result (out.new.items ≡ out.old.items ++ word name.now) }
{
    if is_plain_word(name) {
        return out.extend_from_slice(name);
    }
    out.push(b'\'')?;
    if is_printable(name) {
        push_quoted(out, name)?;
    } else {
        push_octal(out, name)?;
    }
    out.push(b'\'')?;
    Ok(())
}
