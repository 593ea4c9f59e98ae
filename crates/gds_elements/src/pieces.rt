//! A stream that comes in pieces: the records taken, and the bytes of the one that isn't whole.

ghost use Rattle.std.specs.Prelude.{◌≡◌, ◌<◌, ◌+◌, ◌≤◌, ◌^◌, false, ℕ, List, [], ◌++◌, length};
ghost use Rattle.std.specs.Prelude.{vec_len, map, IfOk, IfErr, IfSome, None, Some, Err, OnOk};
ghost use Rattle.std.specs.Prelude.{OnErr};
ghost use Rattle.std.specs.List.{All};
ghost use Rattle.gds_elements.specs.Faults.{Accepts};
ghost use Rattle.gds_elements.specs.Fillable.{AreFillable};
ghost use Rattle.gds_elements.specs.Reading.{cell_seen, library_after, taken_cells, IsFaultOf};
ghost use Rattle.gds_elements.specs.Pieces.{Advances, Fed, Goes, IsOfMemory, Tells};
ghost use Rattle.gds_elements.specs.declared.library.GdsFault.TheVariants.{NoMemory};

use crate::library::{GdsFault, Library, RawCell};
use crate::reading::TRUNCATED;
use crate::stream::Stream;
use std::alloc::Global;

/// What is held of the bytes fed: those of a record that isn't whole, the library so far, and the
/// fault.
#[derive(Drop)]
pub struct Pieces {
    pub held: Vec<u8>,
    pub stream: Stream,
    pub fault: Option<GdsFault>,
}

// How many bytes of a piece to take next: all of them where none are held, else no more than the
// record held lacks, of
// its first four bytes or of all that its length counts.
fn next_count(held: &[u8], left: usize) -> usize
    requires { 0 < left }
    ensures some { 0 < result }
    ensures within { result ≤ left }
{
    let lacking = match held {
        [] => left,
        [high, low, _, _, ..] => {
            usize::from(u16::from_be_bytes([*high, *low])).saturating_sub(held.len())
        }
        _ => 4 - held.len(),
    };
    lacking.min(left).max(1)
}

impl Pieces {
    /// Nothing was fed.
    pub(crate) fn new(alloc: Global) -> Pieces
        ensures start { Fed [] result }
        ensures sound { result.fault ≡ None }
        ensures empty { (result.stream.count ≡ 0) × (result.stream.offset ≡ 0)
            × (vec_len result.held ≡ 0) }
        ensures taken { taken_cells result.stream.kept.taken.value ≡ [] }
    {
        Pieces {
            held: Vec::new(alloc),
            stream: Stream::new(alloc),
            fault: None,
        }
    }

    // Takes the whole records of the bytes held and a piece behind them. The piece is copied only
    // from the record on
    // that isn't whole, where no bytes are held.
    fn advance(&mut self, alloc: Global, piece: &[u8]) -> Result<(), GdsFault>
        requires going { self.old.stream.ended ≡ false }
        requires count { self.old.stream.count ≤ self.old.stream.offset }
        requires offset { self.old.stream.offset + vec_len self.old.held + length piece.now
            < 2 ^ 63 }
        ensures reading { (fed : List ℕ) → Goes fed self.old.held.items self.old.stream → Advances
            (fed ++ piece.now) result self.new }
        ensures fault { self.new.fault ≡ self.old.fault }
        ensures count { self.new.stream.count ≤ self.new.stream.offset }
        ensures room { OnOk result (self.new.stream.offset + vec_len self.new.held
            ≤ self.old.stream.offset + vec_len self.old.held + length piece.now) }
        ensures failed { OnErr result (self.new.stream.offset ≤ self.old.stream.offset
            + vec_len self.old.held + length piece.now) }
        ensures taken { OnOk result (self.new.stream.kept.taken ≡ self.old.stream.kept.taken) }
    {
        if self.held.is_empty() {
            let at = self.stream.run(alloc, piece)?;
            self.held = Vec::from_slice(alloc, &piece[at..])?;
            return Ok(());
        }
        self.held.extend_from_slice(piece)?;
        let at = self.stream.run(alloc, &self.held)?;
        if at > 0 {
            self.held = Vec::from_slice(alloc, &self.held[at..])?;
        }
        Ok(())
    }

    // Takes the next piece. A fault is kept, and the bytes held are let go.
    fn take(&mut self, alloc: Global, piece: &[u8]) -> Result<(), GdsFault>
        requires count { self.old.stream.count ≤ self.old.stream.offset }
        requires offset { self.old.stream.offset + vec_len self.old.held + length piece.now
            < 2 ^ 63 }
        ensures reading { (fed : List ℕ) → Fed fed self.old → Fed (fed ++ piece.now) self.new
            × Tells (fed ++ piece.now) result }
        ensures keeps { IfErr result (λ fault. self.new.fault ≡ Some fault) }
        ensures sound { OnOk result (self.new.fault ≡ None) }
        ensures again { IfSome self.old.fault (λ fault. result ≡ Err fault) }
        ensures count { self.new.stream.count ≤ self.new.stream.offset }
        ensures room { self.new.stream.offset + vec_len self.new.held ≤ self.old.stream.offset
            + vec_len self.old.held + length piece.now }
        ensures taken { OnOk result (self.new.stream.kept.taken ≡ self.old.stream.kept.taken) }
    {
        if let Some(fault) = self.fault {
            return Err(fault);
        }
        if self.stream.ended {
            return Ok(());
        }
        match self.advance(alloc, piece) {
            Ok(()) => Ok(()),
            Err(fault) => {
                self.held = Vec::new(alloc);
                self.fault = Some(fault);
                Err(fault)
            }
        }
    }

    /// Takes the next piece: a fault exactly where the bytes so far have one that more bytes don't
    /// mend, so not one for
    /// too few bytes. A fault is kept, and each later call answers it. Cost: the piece; bytes of a
    /// record that isn't
    /// whole are copied, and no others.
    pub(crate) fn feed(&mut self, alloc: Global, piece: &[u8]) -> Result<(), GdsFault>
        requires count { self.old.stream.count ≤ self.old.stream.offset }
        requires offset { self.old.stream.offset + vec_len self.old.held + length piece.now
            < 2 ^ 63 }
        ensures reading { (fed : List ℕ) → Fed fed self.old → Fed (fed ++ piece.now) self.new
            × Tells (fed ++ piece.now) result }
        ensures keeps { IfErr result (λ fault. self.new.fault ≡ Some fault) }
        ensures sound { OnOk result (self.new.fault ≡ None) }
        ensures again { IfSome self.old.fault (λ fault. result ≡ Err fault) }
        ensures count { self.new.stream.count ≤ self.new.stream.offset }
        ensures room { self.new.stream.offset + vec_len self.new.held ≤ self.old.stream.offset
            + vec_len self.old.held + length piece.now }
        ensures taken { OnOk result (self.new.stream.kept.taken ≡ self.old.stream.kept.taken) }
    {
        if let Some(fault) = self.fault {
            return Err(fault);
        }
        let mut rest = piece;
        while !rest.is_empty() {
            let count = next_count(&self.held, rest.len());
            self.take(alloc, &rest[..count])?;
            rest = &rest[count..];
        }
        Ok(())
    }

    /// Hands over the structures that are whole.
    pub(crate) fn take_cells(&mut self, alloc: Global) -> Vec<RawCell>
        requires { self.old.fault ≡ None }
        ensures reading { (fed : List ℕ) → Fed fed self.old → Fed fed self.new }
        ensures taken { taken_cells self.new.stream.kept.taken.value
            ≡ taken_cells self.old.stream.kept.taken.value ++ map cell_seen result.items }
        ensures fillable { (fed : List ℕ) → Fed fed self.old → All AreFillable
            (map cell_seen result.items) }
        ensures fault { self.new.fault ≡ None }
        ensures count { self.new.stream.count ≡ self.old.stream.count }
        ensures offset { self.new.stream.offset ≡ self.old.stream.offset }
        ensures held { vec_len self.new.held ≡ vec_len self.old.held }
    {
        self.stream.kept.take_cells(alloc)
    }

    /// Ends for want of memory: what was read is let go.
    pub(crate) fn give_up(&mut self, alloc: Global)
        ensures fault { self.new.fault ≡ Some NoMemory }
        ensures empty { (self.new.stream.count ≡ 0) × (self.new.stream.offset ≡ 0)
            × (vec_len self.new.held ≡ 0) }
    {
        *self = Pieces::new(alloc);
        self.fault = Some(GdsFault::NoMemory);
    }

    /// The library of the bytes fed, without the structures handed over, or their first fault.
    pub(crate) fn finish(self) -> Result<Library, GdsFault>
        ensures found { (fed : List ℕ) → Fed fed self → IfOk result (λ v. Accepts fed
            (library_after (taken_cells self.stream.kept.taken.value) v)) }
        ensures fault { (fed : List ℕ) → Fed fed self → IfErr result (λ e. IsFaultOf fed e) }
        ensures memory { IfErr result (λ e. IsOfMemory e self.fault) }
        ensures again { IfSome self.fault (λ fault. result ≡ Err fault) }
    {
        let Pieces { stream, fault, .. } = self;
        if let Some(fault) = fault {
            return Err(fault);
        }
        if !stream.ended {
            return Err(GdsFault::Bad {
                number: TRUNCATED,
                index: stream.count,
                offset: stream.offset,
            });
        }
        let Stream { kept, .. } = stream;
        Ok(kept.library())
    }
}
