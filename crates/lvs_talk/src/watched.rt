//! A depot as it is, with a memory of what was asked of it last.

use lvs_outside::{Depot, Failed};
use std::alloc::Global;

/// What was asked of a file.
#[derive(Clone, Copy)]
pub enum Call {
    Open,
    Read,
    Create,
    Write,
    Finish,
}

/// A depot that knows the file that was opened last, and what was asked of it.
#[derive(Drop)]
pub struct Watched<D> {
    inner: D,
    path: String,
    call: Call,
}

impl<D: Depot> Watched<D> {
    ghost use Rattle.std.specs.Prelude.{◌≡◌};
    ghost use Rattle.lvs_outside.specs.Store.{IsFresh};
    ghost use Rattle.lvs_talk.specs.Kept.{watched_state};

    /// A new depot, of which nothing was asked yet.
    pub fn new(alloc: Global, inner: D) -> Watched<D>
        requires { IsFresh (D.state inner) }
        ensures { IsFresh (watched_state D.state result) }
    {
        Watched {
            inner,
            path: String::new(alloc),
            call: Call::Open,
        }
    }

    // Keeps the path, as far as there is memory for it.
    fn keep(&mut self, path: &str, call: Call)
        ensures { watched_state D.state self.new ≡ watched_state D.state self.old }
    {
        self.path.clear();
        let _kept = self.path.push_str(path);
        self.call = call;
    }

    /// The path of the file that was opened or made last.
    pub fn path(&self) -> &str {
        self.path.as_str()
    }

    /// What was asked last.
    pub fn call(&self) -> Call {
        self.call
    }
}

impl<D: Depot> Depot for Watched<D> {
    ghost use Rattle.lvs_talk.specs.Kept.{watched_state};

    ghost state = { watched_state D.state };

    fn open_read(&mut self, path: &str) -> Result<bool, Failed> {
        self.keep(path, Call::Open);
        self.inner.open_read(path)
    }

    fn read(&mut self, buf: &mut [u8]) -> Result<usize, Failed> {
        self.call = Call::Read;
        self.inner.read(buf)
    }

    fn start_write(&mut self, path: &str) -> Result<(), Failed> {
        self.keep(path, Call::Create);
        self.inner.start_write(path)
    }

    fn write(&mut self, piece: &[u8]) -> Result<usize, Failed> {
        self.call = Call::Write;
        self.inner.write(piece)
    }

    fn finish_write(&mut self) -> Result<(), Failed> {
        self.call = Call::Finish;
        self.inner.finish_write()
    }
}
