//! The reader of a library whose bytes come in pieces.

ghost use Rattle.std.specs.Prelude.{◌≡◌, ◌<◌, ◌+◌, ◌^◌, ◌++◌, [], ℕ, None, Some, length, map, Err};
ghost use Rattle.std.specs.Prelude.{IfOk, IfErr, IfSome, OnOk};
ghost use Rattle.std.specs.List.{All};
ghost use Rattle.gds_elements.specs.Faults.{Accepts, FirstFault};
ghost use Rattle.gds_elements.specs.Fillable.{AreFillable};
ghost use Rattle.gds_elements.specs.Meaning.{Library as ValueOf};
ghost use Rattle.gds_elements.specs.Reading.{IsFaultOf, OnlyFault, OnlyRest, cell_seen};
ghost use Rattle.gds_elements.specs.Reading.{library_after};
ghost use Rattle.gds_elements.specs.Pieces.{IsOfMemory, Tells};
ghost use Rattle.gds_elements.specs.declared.library.GdsFault.TheVariants.{NoMemory};

use crate::fed::{Bytes, add_bytes, no_bytes};
use crate::library::{GdsFault, Library, RawCell};
use crate::pieces::Pieces;
use std::alloc::Global;
use std::marker::Model;
use std::snapshot::Snapshot;

/// Reads a library in pieces: the answers don't depend on how the bytes are cut. It holds the
/// library so far, without the structures that it handed over, and of the bytes those of a record
/// that isn't whole.
///
/// In contracts it is the bytes fed to it, the fault that it answered, and the structures that it
/// handed over.
#[derive(Drop)]
pub struct LibraryReader {
    pieces: Pieces,
    fed: Snapshot<Bytes>,
}

impl Model for LibraryReader {
    ghost use Rattle.gds_elements.specs.FedSoFar.{FedSoFar};

    ghost Value = { FedSoFar };

    ghost use Rattle.gds_elements.specs.Fed.{fed_so_far, IsReading};

    ghost view = { fed_so_far };

    ghost invariant = { IsReading };
}

impl LibraryReader {
    /// A reader that was fed nothing.
    pub fn new(alloc: Global) -> LibraryReader
        ensures fed { result.fed ≡ [] }
        ensures fault { result.fault ≡ None }
        ensures taken { result.taken ≡ [] }
    {
        LibraryReader {
            pieces: Pieces::new(alloc),
            fed: no_bytes(),
        }
    }

    /// Takes the next piece: a fault exactly where the bytes so far have one that more bytes don't
    /// mend, so not one for
    /// too few bytes. A fault is kept, and each later call answers it. Cost: the piece; bytes of a
    /// record that isn't
    /// whole are copied, and no others.
    pub fn feed(&mut self, alloc: Global, piece: &[u8]) -> Result<(), GdsFault>
        requires { length self.old.fed + length piece.now < 2 ^ 63 }
        ensures fed { self.new.fed ≡ self.old.fed ++ piece.now }
        ensures tells { Tells self.new.fed result }
        ensures keeps { IfErr result (λ fault. self.new.fault ≡ Some fault) }
        ensures sound { OnOk result (self.new.fault ≡ None) }
        ensures again { IfSome self.old.fault (λ fault. result ≡ Err fault) }
        ensures taken { OnOk result (self.new.taken ≡ self.old.taken) }
    {
        let told = self.pieces.feed(alloc, piece);
        add_bytes(&mut self.fed, piece);
        told
    }

    /// Hands over the structures that are whole and that it didn't hand over before, in order.
    /// O(1).
    pub fn take_cells(&mut self, alloc: Global) -> Vec<RawCell>
        requires { self.old.fault ≡ None }
        ensures taken { self.new.taken ≡ self.old.taken ++ map cell_seen result.items }
        ensures fillable { All AreFillable (map cell_seen result.items) }
        ensures fed { self.new.fed ≡ self.old.fed }
        ensures fault { self.new.fault ≡ None }
    {
        self.pieces.take_cells(alloc)
    }

    /// Ends for want of memory, which each later call answers: what was read is let go.
    pub fn give_up(&mut self, alloc: Global)
        ensures fed { self.new.fed ≡ self.old.fed }
        ensures fault { self.new.fault ≡ Some NoMemory }
    {
        self.pieces.give_up(alloc);
    }

    /// The library of the bytes fed, without the structures that were handed over before, or their
    /// first fault. Want of memory is answered only where a piece met it.
    pub fn finish(self) -> Result<Library, GdsFault>
        ensures found { IfOk result (λ v. Accepts self.fed (library_after self.taken v)) }
        ensures fault { IfErr result (λ e. IsFaultOf self.fed e) }
        ensures again { IfSome self.fault (λ fault. result ≡ Err fault) }
        ensures only { (v : ValueOf) → Accepts self.fed v → OnlyRest self.taken v result }
        ensures only_fault { (number index offset : ℕ) → FirstFault self.fed number index offset
            → OnlyFault number index offset result }
        ensures memory { IfErr result (λ e. IsOfMemory e self.fault) }
    {
        let LibraryReader { pieces, .. } = self;
        pieces.finish()
    }
}
