//! Files that are lent, by path.

ghost use Rattle.std.specs.Prelude.{◌≡◌, ◌≢◌, List, ℕ, OnOk, OnErr, IsTrue, MatchOption};
ghost use Rattle.lvs_outside.specs.Store.{Told, Untold, Holds};
ghost use Rattle.lvs_outside.specs.LentFiles.{told_or, is_first, IsUnheld};

use std::alloc::AllocError;

/// A file that was lent: its bytes, or None once it is written.
#[derive(Clone, Copy)]
pub struct Lent<'a> {
    pub path: &'a str,
    pub bytes: Option<&'a [u8]>,
}

/// What is open: a lent file's bytes, and how far they were read, or a file that is written.
#[derive(Clone, Copy)]
pub enum Access<'a> {
    Closed,
    Reading(&'a [u8], usize),
    Writing,
}

// The number of the path's entry.
fn find_lent(files: &[Lent<'_>], path: &str) -> Option<usize>
    ensures { MatchOption result ((other : Told) → told_or files.now other path.now ≡ other)
        (λ i. IsTrue (is_first files.now path.now i)) }
{
    for (number, lent) in files.iter().enumerate() {
        if lent.path == path {
            return Some(number);
        }
    }
    None
}

// The path's bytes, where it was lent and wasn't written since.
pub fn lent_bytes<'a>(files: &[Lent<'a>], path: &str) -> Option<&'a [u8]>
    ensures { (other : Told) → MatchOption result (IsUnheld files.now other path.now)
        (λ b. told_or files.now other path.now ≡ Holds b.now) }
{
    let number = find_lent(files, path)?;
    files[number].bytes
}

// Makes the path's file these bytes.
pub fn put_lent<'a>(
    files: &mut Vec<Lent<'a>>,
    path: &'a str,
    bytes: &'a [u8],
) -> Result<(), AllocError>
    ensures here { OnOk result ((other : Told)
        → told_or files.new.items other path.now ≡ Holds bytes.now) }
    ensures others { (other : Told) (p : List ℕ) → p ≢ path.now
        → told_or files.new.items other p ≡ told_or files.old.items other p }
    ensures err { OnErr result (files.new.items ≡ files.old.items) }
{
    let bytes = Some(bytes);
    match find_lent(files.as_slice(), path) {
        Some(number) => {
            files[number].bytes = bytes;
            Ok(())
        }
        None => {
            files.push(Lent { path, bytes })?;
            Ok(())
        }
    }
}

// Tells the path's bytes no more, where it was lent.
pub fn drop_lent(files: &mut Vec<Lent<'_>>, path: &str)
    ensures here { told_or files.new.items Untold path.now ≡ Untold }
    ensures others { (other : Told) (p : List ℕ) → p ≢ path.now
        → told_or files.new.items other p ≡ told_or files.old.items other p }
{
    if let Some(number) = find_lent(files.as_slice(), path) {
        files[number].bytes = None;
    }
}
