//! A depot as it is, which tells people what is read and written.

use lvs_outside::{Depot, Failed};

/// A depot that tells on standard error which file is read or written, where that is wanted.
#[derive(Drop)]
pub struct Shown<'a, D, P> {
    inner: D,
    out: Option<&'a P>,
    count: u64,
}

impl<'a, D: Depot, P: Eprint> Shown<'a, D, P> {
    ghost use Rattle.lvs_outside.specs.Store.{IsFresh};
    ghost use Rattle.lvs_talk.specs.Kept.{shown_state};

    /// A new depot; it tells nothing where nothing is handed in to tell it by.
    pub fn new(inner: D, out: Option<&'a P>) -> Shown<'a, D, P>
        requires { IsFresh (D.state inner) }
        ensures { IsFresh (shown_state D.state result) }
    {
        Shown {
            inner,
            out,
            count: 0,
        }
    }

    // Tells what is begun with a file.
    fn tell_begin(&self, what: &str, path: &str) {
        if let Some(out) = self.out {
            let _told = out.eprint(what);
            let _told = out.eprintln(path);
        }
    }

    // Tells how much was read of a file.
    fn tell_count(&self) {
        if let Some(out) = self.out {
            let _told = out.eprint("lvs:   ");
            let _told = out.eprint(self.count);
            let _told = out.eprintln(" bytes");
        }
    }
}

impl<'a, D: Depot, P: Eprint> Depot for Shown<'a, D, P> {
    ghost use Rattle.lvs_talk.specs.Kept.{shown_state};

    ghost state = { shown_state D.state };

    fn open_read(&mut self, path: &str) -> Result<bool, Failed> {
        self.count = 0;
        self.tell_begin("lvs: reads ", path);
        self.inner.open_read(path)
    }

    fn read(&mut self, buf: &mut [u8]) -> Result<usize, Failed> {
        let count = self.inner.read(buf)?;
        self.count = self.count.saturating_add(count as u64);
        if count == 0 {
            self.tell_count();
        }
        Ok(count)
    }

    fn start_write(&mut self, path: &str) -> Result<(), Failed> {
        self.tell_begin("lvs: writes ", path);
        self.inner.start_write(path)
    }

    fn write(&mut self, piece: &[u8]) -> Result<usize, Failed> {
        self.inner.write(piece)
    }

    fn finish_write(&mut self) -> Result<(), Failed> {
        self.inner.finish_write()
    }
}
