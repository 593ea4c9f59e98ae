//! The reader of a layout whose bytes come in pieces.

ghost use Rattle.std.specs.Prelude.{◌≡◌, ◌<◌, ◌+◌, ◌^◌, ◌++◌, [], ℕ, List, None, Some, length, Err};
ghost use Rattle.std.specs.Prelude.{IfOk};
ghost use Rattle.std.specs.Prelude.{IfErr, IfSome, OnOk};
ghost use Rattle.gds_elements.specs.Faults.{Accepts, FirstFault};
ghost use Rattle.gds_elements.specs.Meaning.{Library as ValueOf};
ghost use Rattle.cell_graph.specs.Tops.{now_of};
ghost use Rattle.gds_layout.specs.Layouts.{IsFaultOf, IsPastStream, IsRead, OnlyStreamFault, Tells};

use crate::drafts::Drawn;
use crate::layout::{Layout, LayoutFault};
use crate::linking::layout_of;
use gds_elements::LibraryReader;
use net_names::Name;
use std::alloc::Global;
use std::marker::Model;

/// Reads a layout in pieces: the answers don't depend on how the bytes are cut. Each structure is
/// filled as soon as a piece ends it, and its outlines are let go.
///
/// In contracts it is the bytes fed to it and the fault that it answered.
#[derive(Drop)]
pub struct LayoutReader {
    reader: LibraryReader,
    drawn: Drawn,
}

impl Model for LayoutReader {
    ghost use Rattle.gds_layout.specs.FedSoFar.{FedSoFar};

    ghost Value = { FedSoFar };

    ghost use Rattle.gds_layout.specs.Fed.{IsReading, fed_so_far};

    ghost view = { fed_so_far };

    ghost invariant = { IsReading };
}

impl LayoutReader {
    /// A reader that was fed nothing.
    pub fn new(alloc: Global) -> LayoutReader
        ensures fed { result.fed ≡ [] }
        ensures fault { result.fault ≡ None }
    {
        LayoutReader {
            reader: LibraryReader::new(alloc),
            drawn: Drawn::new(alloc),
        }
    }

    /// Takes the next piece: a fault exactly where the bytes so far have one that more bytes don't
    /// mend, so not one for too few bytes, nor one of the cells' names and references. A fault is
    /// kept, and each later call answers it. Cost: the piece, and the fills of the structures that
    /// it ends.
    pub fn feed(&mut self, alloc: Global, piece: &[u8]) -> Result<(), LayoutFault>
        requires { length self.old.fed + length piece.now < 2 ^ 63 }
        ensures fed { self.new.fed ≡ self.old.fed ++ piece.now }
        ensures tells { Tells self.new.fed result }
        ensures keeps { IfErr result (λ fault. self.new.fault ≡ Some fault) }
        ensures sound { OnOk result (self.new.fault ≡ None) }
        ensures again { IfSome self.old.fault (λ fault. result ≡ Err fault) }
    {
        self.reader.feed(alloc, piece)?;
        let cells = self.reader.take_cells(alloc);
        if self.drawn.add_all(alloc, cells).is_err() {
            self.reader.give_up(alloc);
            return Err(LayoutFault::NoMemory);
        }
        Ok(())
    }

    // The layout of the bytes fed, or their first fault.
    fn answer(self, alloc: Global, top: Option<&Name>) -> Result<Layout, LayoutFault>
        ensures layout { IfOk result (IsRead self.fed (now_of top.entry)) }
        ensures fault { IfErr result (IsFaultOf self.fed (now_of top.entry)) }
        ensures again { IfSome self.fault (λ fault. result ≡ Err fault) }
    {
        let LayoutReader { reader, drawn } = self;
        let rest = reader.finish()?;
        layout_of(alloc, rest, drawn, top)
    }

    /// The layout of the bytes fed, from the top of this name, or from the only cell that none
    /// refers to; or their first fault. Cost: that of `Design::link`.
    pub fn finish(self, alloc: Global, top: Option<&Name>) -> Result<Layout, LayoutFault>
        ensures layout { IfOk result (IsRead self.fed (now_of top.entry)) }
        ensures fault { IfErr result (IsFaultOf self.fed (now_of top.entry)) }
        ensures again { IfSome self.fault (λ fault. result ≡ Err fault) }
        ensures stream { (number index offset : ℕ) → FirstFault self.fed number index offset
            → OnlyStreamFault number index offset result }
        ensures past { (v : ValueOf) → Accepts self.fed v → IsPastStream result }
    {
        self.answer(alloc, top)
    }
}
