//! The bytes that a reader was fed, kept for contracts alone: a token of no bytes.

ghost use Rattle.std.specs.Prelude.{◌≡◌, ◌++◌, [], ℕ, List};
ghost use Rattle.gds_elements.specs.Token.{bytes_of};

use std::mem;
use std::snapshot::Snapshot;

/// A list of bytes, its last one first.
#[derive(Drop)]
pub enum Bytes {
    None,
    Byte(u8, Snapshot<Bytes>),
}

/// No bytes.
pub fn no_bytes() -> Snapshot<Bytes>
    ensures { bytes_of result.value ≡ [] }
{
    Snapshot::of(&Bytes::None)
}

/// Adds a piece at the end.
pub fn add_bytes(fed: &mut Snapshot<Bytes>, piece: &[u8])
    ensures { bytes_of fed.new.value ≡ bytes_of fed.old.value ++ piece.now }
{
    for byte in piece {
        let before = mem::replace(fed, no_bytes());
        *fed = Snapshot::of(&Bytes::Byte(*byte, before));
    }
}
