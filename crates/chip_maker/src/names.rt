//! The names of a chip's cells and nets.

ghost use Rattle.std.specs.Prelude.{◌≡◌, ◌+◌, ◌≤◌, ◌++◌, IfOk, OnOk, decimal, length};
ghost use Rattle.chip_maker.specs.Inverters.{kind_name};

use crate::inverters::Kind;
use std::alloc::{AllocError, Global};

/// The name of the cell of an inverter.
pub fn kind_name(kind: Kind) -> &'static [u8]
    ensures { result.now ≡ kind_name kind }
{
    match kind {
        Kind::Plain => b"INV",
        Kind::Wide => b"INV2",
    }
}

/// Appends a word and a number behind it.
pub fn push_numbered(
    alloc: Global,
    out: &mut Vec<u8>,
    word: &[u8],
    n: u32,
) -> Result<(), AllocError>
    ensures { OnOk result (out.new.items ≡ out.old.items ++ (word.now ++ decimal n)) }
{
    let digits = n.to_string(alloc)?.into_bytes();
    out.extend_from_slice(word)?;
    out.extend_from_slice(&digits)
}

/// A word and a number behind it.
pub fn numbered(alloc: Global, word: &[u8], n: u32) -> Result<Vec<u8>, AllocError>
    ensures text { IfOk result (λ text. text.items ≡ word.now ++ decimal n) }
    ensures short { IfOk result (λ text. length text.items ≤ length word.now + 10) }
{
    let digits = n.to_string(alloc)?.into_bytes();
    let mut text = word.to_vec(alloc)?;
    text.extend_from_slice(&digits)?;
    Ok(text)
}
