//! Files in memory, by path.

ghost use Rattle.std.specs.Prelude.{◌≡◌, ◌+◌, ◌^◌, ◌<◌, ◌≤◌, List, ℕ, length, IfOk, OnOk, OnErr};
ghost use Rattle.std.specs.Prelude.{IsTrue, MatchOption, drop, vec_len};
ghost use Rattle.lvs_outside.specs.Store.{NoFile, Holds, NextBytes, appended};
ghost use Rattle.lvs_outside.specs.Entries.{told, is_file_of, one_if_open, Goes, IsSet};
ghost use Rattle.lvs_outside.specs.Token.{count_of};

use crate::token::{Count, raise};
use std::alloc::{AllocError, Global};
use std::snapshot::Snapshot;

#[derive(Drop)]
pub struct Entry {
    pub path: String,
    pub bytes: Vec<u8>,
}

/// What is open: an entry by its number, and how far it was read.
#[derive(Clone, Copy)]
pub enum Place {
    Closed,
    Reading(usize, usize),
    Writing(usize),
}

// Closes what is open: a file that was being written is left unfinished.
pub fn close(place: &mut Place, unfinished: &mut Snapshot<Count>)
    ensures place { place.new ≡ Place.Closed }
    ensures unfinished { count_of unfinished.new.value ≡ count_of unfinished.old.value
        + one_if_open place.old }
{
    if let Place::Writing(_) = place {
        raise(unfinished, 1);
    }
    *place = Place::Closed;
}

// The number of the path's entry.
pub fn find(files: &[Entry], path: &str) -> Option<usize>
    ensures { MatchOption result (told files.now path.now ≡ NoFile)
        (λ i. IsTrue (is_file_of files.now path.now i)) }
{
    for (number, entry) in files.iter().enumerate() {
        if entry.path.as_str() == path {
            return Some(number);
        }
    }
    None
}

// Makes the path's file these bytes.
pub fn set_file(
    alloc: Global,
    files: &mut Vec<Entry>,
    path: &str,
    bytes: Vec<u8>,
) -> Result<usize, AllocError>
    ensures ok { IfOk result (IsSet files.old.items files.new.items path.now bytes.items) }
    ensures err { OnErr result (files.new.items ≡ files.old.items) }
{
    match find(files.as_slice(), path) {
        Some(number) => {
            files[number].bytes = bytes;
            Ok(number)
        }
        None => {
            let path = String::from_str(alloc, path)?;
            let number = files.len();
            files.push(Entry { path, bytes })?;
            Ok(number)
        }
    }
}

// Puts the piece behind an entry's bytes.
pub fn append(files: &mut Vec<Entry>, number: usize, piece: &[u8]) -> Result<(), AllocError>
    requires { number < vec_len files.old }
    ensures first { (p : List ℕ) → is_file_of files.new.items p number
        ≡ is_file_of files.old.items p number }
    ensures ok { (p : List ℕ) → IsTrue (is_file_of files.old.items p number)
        → OnOk result (Goes files.old.items files.new.items p (λ t u. u ≡ appended t piece.now)) }
    ensures err { OnErr result ((p : List ℕ) → told files.new.items p ≡ told files.old.items p) }
{
    files[number].bytes.extend_from_slice(piece)
}

// Copies the bytes from a place on into the buffer's front, as many as fit, and answers their
// number. The buffer behind them stays.
pub fn copy_next(from: &[u8], at: usize, buf: &mut [u8]) -> usize
    requires start { at ≤ length from.now }
    requires buffer { 0 < length buf.old }
    ensures fits { result ≤ length buf.new }
    ensures next { NextBytes (Holds from.now) at result buf.new }
    ensures behind { drop result buf.new ≡ drop result buf.old }
    ensures place { at + result < 2 ^ 64 }
{
    let rest = &from[at..];
    let count = rest.len().min(buf.len());
    buf[..count].copy_from_slice(&rest[..count]);
    count
}
