//! A taker of summary bytes.

ghost use Rattle.lvs_outside.specs.Summary.{SinkState, SinkHasRoom, Takes};

use crate::Failed;

/// A taker of summary bytes. A call answers `Failed` exactly where the count of faults rose in it.
pub trait Sink {
    /// The bytes taken, where they are told, and the counts.
    ghost state: { Self → SinkState };

    /// Takes a prefix of the piece and answers its length.
    fn write(&mut self, piece: &[u8]) -> Result<usize, Failed>
        requires { SinkHasRoom (state self.old) }
        ensures { Takes (state self.old) (state self.new) piece.now result };
}
