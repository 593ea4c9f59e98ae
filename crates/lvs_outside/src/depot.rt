//! A store of files by path.

ghost use Rattle.std.specs.Prelude.{◌<◌, length};
ghost use Rattle.lvs_outside.specs.Store.{Store, HasRoom, IsReading, IsWriting, OpensRead, Reads};
ghost use Rattle.lvs_outside.specs.Store.{StartsWrite, Writes, Finishes};

use thiserror::Error;

/// A call on the outside failed.
#[derive(Clone, Copy, Debug, PartialEq, Eq, Error)]
#[error("a call on the outside failed")]
pub struct Failed;

/// A store of files by path, of which one at a time is open.
///
/// A call answers `Failed` exactly where the count of faults rose in it, and it leaves the files
/// that are told as they were.
pub trait Depot {
    /// The files that are told, what is open, and the counts.
    ghost state: { Self → Store };

    /// Opens the path's file at its first byte, or answers false where it has none. It closes what
    /// was open.
    fn open_read(&mut self, path: &str) -> Result<bool, Failed>
        requires { HasRoom (state self.old) }
        ensures { OpensRead (state self.old) (state self.new) path.now result };

    /// Fills the front of the buffer with the next bytes of the open file and answers their number:
    /// 0 is the end. The buffer behind them, and all of it where the read failed, is as it was.
    fn read(&mut self, buf: &mut [u8]) -> Result<usize, Failed>
        requires room { HasRoom (state self.old) }
        requires open { IsReading (state self.old).opened }
        requires buffer { 0 < length buf.old }
        ensures { Reads (state self.old) (state self.new) buf.old buf.new result };

    /// Makes the path's file empty and opens it for writing. It closes what was open.
    fn start_write(&mut self, path: &str) -> Result<(), Failed>
        requires { HasRoom (state self.old) }
        ensures { StartsWrite (state self.old) (state self.new) path.now result };

    /// Appends a prefix of the piece to the file that is open for writing, and answers its length.
    fn write(&mut self, piece: &[u8]) -> Result<usize, Failed>
        requires room { HasRoom (state self.old) }
        requires open { IsWriting (state self.old).opened }
        ensures { Writes (state self.old) (state self.new) piece.now result };

    /// Ends the file that is open for writing, and closes it.
    fn finish_write(&mut self) -> Result<(), Failed>
        requires room { HasRoom (state self.old) }
        requires open { IsWriting (state self.old).opened }
        ensures { Finishes (state self.old) (state self.new) result };
}
