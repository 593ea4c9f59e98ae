//! The layout of a whole stream.

ghost use Rattle.std.specs.Prelude.{ℕ, IfOk, IfErr};
ghost use Rattle.gds_elements.specs.Faults.{Accepts, FirstFault};
ghost use Rattle.gds_elements.specs.Meaning.{Library as ValueOf};
ghost use Rattle.cell_graph.specs.Tops.{now_of};
ghost use Rattle.gds_layout.specs.Layouts.{IsFaultOf, IsPastStream, IsRead, OnlyStreamFault};

use crate::layout::{Layout, LayoutFault};
use crate::reader::LayoutReader;
use net_names::Name;
use std::alloc::Global;

fn read(alloc: Global, bytes: &[u8], top: Option<&Name>) -> Result<Layout, LayoutFault>
    ensures layout { IfOk result (IsRead bytes.now (now_of top.entry)) }
    ensures fault { IfErr result (IsFaultOf bytes.now (now_of top.entry)) }
{
    let mut reader = LayoutReader::new(alloc);
    reader.feed(alloc, bytes)?;
    reader.finish(alloc, top)
}

/// The layout of a GDSII stream, from the top of this name, or from the only cell that none refers
/// to; or its first fault. Nothing behind ENDLIB is read. Cost: as `LayoutReader`, fed once.
pub fn read_layout(alloc: Global, bytes: &[u8], top: Option<&Name>) -> Result<Layout, LayoutFault>
    ensures layout { IfOk result (IsRead bytes.now (now_of top.entry)) }
    ensures fault { IfErr result (IsFaultOf bytes.now (now_of top.entry)) }
    ensures stream { (number index offset : ℕ) → FirstFault bytes.now number index offset
        → OnlyStreamFault number index offset result }
    ensures past { (v : ValueOf) → Accepts bytes.now v → IsPastStream result }
{
    read(alloc, bytes, top)
}
