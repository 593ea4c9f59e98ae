//! An adapter that counts empty takes as faults.

ghost use Rattle.std.specs.Prelude.{◌≡◌, ◌<◌, length, if◌then◌else◌};
ghost use Rattle.lvs_outside.specs.Store.{Store, HasRoom, IsReading, IsWriting, OpensRead, Reads};
ghost use Rattle.lvs_outside.specs.Store.{StartsWrite, Writes, Finishes, empty_take, counted};
ghost use Rattle.lvs_outside.specs.Summary.{SinkState, SinkHasRoom, Takes, counted_sink};

use crate::{Depot, Failed, Sink};

/// Whether a write took nothing of a piece that isn't empty.
pub fn is_empty_take(piece: &[u8], count: usize) -> bool
    ensures { empty_take piece.now count ≡ (if result then 1 else 0) }
{
    count == 0 && !piece.is_empty()
}

/// A depot or a sink that answers `Failed` in an empty take too: in a write that took nothing of a
/// piece that isn't empty. Its count of faults is that of the inner one plus the inner one's empty
/// takes.
#[derive(Drop)]
pub struct Counted<'a, D> {
    inner: &'a mut D,
}

impl<'a, D> Counted<'a, D> {
    /// Hands each call on to `inner`.
    pub fn new(inner: &'a mut D) -> Counted<'a, D>
        ensures same_reference { result.inner.ghost_name ≡ inner.entry.ghost_name }
        ensures value { result.inner.now ≡ inner.old }
    {
        Counted { inner }
    }
}

impl<D: Depot> Depot for Counted<'_, D> {
    ghost state = { λ c. counted (D.state c.inner.now) };

    fn open_read(&mut self, path: &str) -> Result<bool, Failed>
        requires { HasRoom (counted (D.state self.old.inner.now)) }
        ensures same_reference { self.new.inner.ghost_name ≡ self.old.inner.ghost_name }
        ensures opens { OpensRead (counted (D.state self.old.inner.now))
            (counted (D.state self.new.inner.now)) path.now result }
    {
        self.inner.open_read(path)
    }

    fn read(&mut self, buf: &mut [u8]) -> Result<usize, Failed>
        requires room { HasRoom (counted (D.state self.old.inner.now)) }
        requires open { IsReading (counted (D.state self.old.inner.now)).opened }
        requires buffer { 0 < length buf.old }
        ensures same_reference { self.new.inner.ghost_name ≡ self.old.inner.ghost_name }
        ensures reads { Reads (counted (D.state self.old.inner.now))
            (counted (D.state self.new.inner.now)) buf.old buf.new result }
    {
        self.inner.read(buf)
    }

    fn start_write(&mut self, path: &str) -> Result<(), Failed>
        requires { HasRoom (counted (D.state self.old.inner.now)) }
        ensures same_reference { self.new.inner.ghost_name ≡ self.old.inner.ghost_name }
        ensures starts { StartsWrite (counted (D.state self.old.inner.now))
            (counted (D.state self.new.inner.now)) path.now result }
    {
        self.inner.start_write(path)
    }

    fn write(&mut self, piece: &[u8]) -> Result<usize, Failed>
        requires room { HasRoom (counted (D.state self.old.inner.now)) }
        requires open { IsWriting (counted (D.state self.old.inner.now)).opened }
        ensures same_reference { self.new.inner.ghost_name ≡ self.old.inner.ghost_name }
        ensures writes { Writes (counted (D.state self.old.inner.now))
            (counted (D.state self.new.inner.now)) piece.now result }
    {
        let count = self.inner.write(piece)?;
        if is_empty_take(piece, count) {
            return Err(Failed);
        }
        Ok(count)
    }

    fn finish_write(&mut self) -> Result<(), Failed>
        requires room { HasRoom (counted (D.state self.old.inner.now)) }
        requires open { IsWriting (counted (D.state self.old.inner.now)).opened }
        ensures same_reference { self.new.inner.ghost_name ≡ self.old.inner.ghost_name }
        ensures finishes { Finishes (counted (D.state self.old.inner.now))
            (counted (D.state self.new.inner.now)) result }
    {
        self.inner.finish_write()
    }
}

impl<S: Sink> Sink for Counted<'_, S> {
    ghost state = { λ c. counted_sink (S.state c.inner.now) };

    fn write(&mut self, piece: &[u8]) -> Result<usize, Failed>
        requires { SinkHasRoom (counted_sink (S.state self.old.inner.now)) }
        ensures same_reference { self.new.inner.ghost_name ≡ self.old.inner.ghost_name }
        ensures takes { Takes (counted_sink (S.state self.old.inner.now))
            (counted_sink (S.state self.new.inner.now)) piece.now result }
    {
        match self.inner.write(piece)? {
            count if is_empty_take(piece, count) => Err(Failed),
            count => Ok(count),
        }
    }
}
