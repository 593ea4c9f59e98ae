//! Pieces of nets.

ghost use Rattle.std.specs.Prelude.{◌≡◌, OnOk, false, true};
ghost use Rattle.geo_base.specs.Rects.{IsRect};
ghost use Rattle.view_shapes.specs.Pieces.{AddsPieces, AreSmall, HasFar, IsOfRect};
ghost use Rattle.view_shapes.specs.declared.pieces.ShowFault.TheVariants.{NoMemory};

use geo_base::Rect;
use std::alloc::AllocError;
use view_words::is_small_rect;

/// A rectangle of a conductor in a net.
#[derive(Clone, Copy, Debug, PartialEq, Eq)]
pub struct Piece {
    pub conductor: u32,
    pub net: u32,
    pub rect: Rect,
}

/// Why nothing is shown: a rectangle reaches 2^30 or more from the origin, or memory is wanting.
#[derive(Clone, Copy, Debug, PartialEq, Eq)]
pub enum ShowFault {
    TooFar,
    NoMemory,
}

impl From<AllocError> for ShowFault {
    ghost from_gives = { λ _ e. e ≡ NoMemory };

    fn from(_: AllocError) -> Self {
        ShowFault::NoMemory
    }
}

/// Adds a piece.
pub fn push_piece(
    out: &mut Vec<Piece>,
    conductor: u32,
    net: u32,
    rect: Rect,
) -> Result<(), AllocError>
    requires { IsRect rect }
    ensures { OnOk result (AddsPieces (IsOfRect conductor net rect) out.old.items out.new.items) }
{
    out.push(Piece {
        conductor,
        net,
        rect,
    })?;
    Ok(())
}

/// Whether all pieces reach less than 2^30 from the origin. Linear in them.
pub fn are_small(pieces: &[Piece]) -> bool
    ensures small { result ≡ true → AreSmall pieces.now }
    ensures far { result ≡ false → HasFar pieces.now }
{
    let mut rest = pieces;
    'pieces: while let [piece, more @ ..] = rest {
        if !is_small_rect(&piece.rect) {
            return false;
        }
        rest = more;
    }
    true
}
