//! What a stream holds as a layout, and why one isn't read.

ghost use Rattle.std.specs.Prelude.{◌≡◌};
ghost use Rattle.gds_layout.specs.Causes.{of_links, of_stream};
ghost use Rattle.gds_layout.specs.declared.layout.LayoutFault.TheVariants.{NoMemory};

use cell_graph::{Design, LinkFault};
use flat_layout::Way;
use gds_elements::GdsFault;
use std::alloc::AllocError;
use thiserror::Error;

/// What stands before the cells: the data of HEADER, BGNLIB and UNITS, the name of LIBNAME without
/// trailing NULs, and the database unit of UNITS in picometres, 1 to 1,000,000.
#[derive(Drop)]
pub struct Header {
    pub version: [u8; 2],
    pub dates: [u8; 24],
    pub name: Vec<u8>,
    pub units: [u8; 16],
    pub unit_pm: u32,
}

/// A layout: its header, the data of each cell's BGNSTR, and the linked cells. The lists have the
/// cells in the order of the stream.
#[derive(Drop)]
pub struct Layout {
    pub header: Header,
    pub cell_dates: Vec<[u8; 24]>,
    pub design: Design,
}

impl Layout {
    ghost use Rattle.std.specs.Prelude.{ℕ, List, Option};
    ghost use Rattle.gds_layout.specs.Layouts.{IsRead, kept_as};

    /// The same layout, whose cells keep squares in this way: it is as much what a stream holds.
    /// O(1).
    pub fn keeping(self, way: Way) -> Layout
        ensures same { result ≡ kept_as way self }
        ensures read { (bytes : List ℕ) (top : Option (List ℕ)) → IsRead bytes top self
            → IsRead bytes top result }
    {
        let Layout {
            header,
            cell_dates,
            design,
        } = self;
        Layout {
            header,
            cell_dates,
            design: design.keeping(way),
        }
    }
}

/// Why a stream isn't read as a layout. Want of memory is always `NoMemory` and never stands within
/// another variant.
#[derive(Debug, Drop, Error)]
pub enum LayoutFault {
    /// The first record that doesn't pass.
    #[error("{0}")]
    Gds(GdsFault),
    /// The first fault of the cells' names and references.
    #[error("{0}")]
    Link(LinkFault),
    #[error("out of memory")]
    NoMemory,
}

impl From<GdsFault> for LayoutFault {
    ghost from_gives = { λ fault e. e ≡ of_stream fault };

    fn from(fault: GdsFault) -> LayoutFault {
        match fault {
            GdsFault::NoMemory => LayoutFault::NoMemory,
            GdsFault::Bad { .. } => LayoutFault::Gds(fault),
        }
    }
}

impl From<LinkFault> for LayoutFault {
    ghost from_gives = { λ fault e. e ≡ of_links fault };

    fn from(fault: LinkFault) -> LayoutFault {
        match fault {
            LinkFault::NoMemory => LayoutFault::NoMemory,
            fault => LayoutFault::Link(fault),
        }
    }
}

impl From<AllocError> for LayoutFault {
    ghost from_gives = { λ _ e. e ≡ NoMemory };

    fn from(_: AllocError) -> LayoutFault {
        LayoutFault::NoMemory
    }
}
