//! Where a line came from, in words.

ghost use Rattle.std.specs.Prelude.{◌≡◌, ◌++◌, OnOk, slice_get};
ghost use Rattle.std.specs.Fmt.{decimal};
ghost use Rattle.netlist_run.specs.Places.{origin_of, path_of, place_text};

use netlist_join::{File, Origin};
use std::alloc::{AllocError, Global};

fn path_of(files: &[File], k: usize) -> &[u8]
    ensures { result.now ≡ path_of (slice_get files.now k) }
{
    match files.get(k) {
        None => b"",
        Some(file) => file.path.as_bytes(),
    }
}

/// Adds a number in decimal digits.
pub fn push_number(alloc: Global, out: &mut Vec<u8>, number: u64) -> Result<(), AllocError>
    ensures { OnOk result (out.new.items ≡ out.old.items ++ decimal number) }
{
    let digits = format!(in alloc; "{number}")?;
    out.extend_from_slice(digits.as_bytes())
}

/// Adds the path of a file, and a line of it.
pub fn push_place(
    alloc: Global,
    out: &mut Vec<u8>,
    files: &[File],
    at: Origin,
) -> Result<(), AllocError>
    ensures { OnOk result (out.new.items ≡ out.old.items ++ place_text files.now at) }
{
    out.extend_from_slice(path_of(files, at.file))?;
    out.extend_from_slice(b" line ")?;
    push_number(alloc, out, at.line)?;
    out.extend_from_slice(b" ")
}

/// Where line n of a text came from, counted from 1.
pub fn origin_of(origins: &[Origin], n: u64) -> Origin
    ensures { result ≡ origin_of origins.now n }
{
    let place = n.saturating_sub(1) as usize;
    if place < origins.len() {
        return origins[place];
    }
    Origin { file: 0, line: n }
}
