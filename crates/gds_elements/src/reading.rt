//! The library of a whole stream.

ghost use Rattle.std.specs.Prelude.{ℕ, IfOk, IfErr};
ghost use Rattle.gds_elements.specs.Faults.{Accepts, FirstFault};
ghost use Rattle.gds_elements.specs.Reading.{IsFaultOf, OnlyFault, OnlyLibrary, library_seen};
ghost use Rattle.gds_elements.specs.Meaning.{Library as ValueOf};

use crate::library::{GdsFault, Library};
use crate::stream::Stream;
use std::alloc::Global;

pub(crate) const TRUNCATED: u8 = 1;

fn read(alloc: Global, bytes: &[u8]) -> Result<Library, GdsFault>
    ensures found { IfOk result (λ v. Accepts bytes.now (library_seen v)) }
    ensures fault { IfErr result (λ e. IsFaultOf bytes.now e) }
{
    let mut stream = Stream::new(alloc);
    stream.run(alloc, bytes)?;
    if !stream.ended {
        return Err(GdsFault::Bad {
            number: TRUNCATED,
            index: stream.count,
            offset: stream.offset,
        });
    }
    let Stream { kept, .. } = stream;
    Ok(kept.library())
}

/// The library of a GDSII stream, or its first fault. Nothing behind ENDLIB is read. Cost: one
/// pass; memory as large as
/// the library.
pub fn read_library(alloc: Global, bytes: &[u8]) -> Result<Library, GdsFault>
    // What is answered is the library of the bytes, or their first fault.
    ensures found { IfOk result (λ v. Accepts bytes.now (library_seen v)) }
    ensures fault { IfErr result (λ e. IsFaultOf bytes.now e) }
    // A library or a fault that the bytes have is answered, unless memory runs out.
    ensures only { (v : ValueOf) → Accepts bytes.now v → OnlyLibrary v result }
    ensures only_fault { (number index offset : ℕ) → FirstFault bytes.now number index offset
        → OnlyFault number index offset result }
{
    read(alloc, bytes)
}
