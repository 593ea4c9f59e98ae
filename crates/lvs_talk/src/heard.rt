//! A sink as it is, with a memory of what was sent.

use lvs_outside::{Failed, Sink};
use std::alloc::Global;

// From so many bytes on nothing more is kept.
const ENOUGH: usize = 4_096;

/// A sink that keeps the first of the bytes that it hands on.
#[derive(Drop)]
pub struct Heard<S> {
    inner: S,
    kept: Vec<u8>,
    has_failed: bool,
}

impl<S: Sink> Heard<S> {
    ghost use Rattle.lvs_outside.specs.Summary.{SinkIsFresh};
    ghost use Rattle.lvs_talk.specs.Kept.{heard_state};

    /// A new sink, of which nothing was heard yet.
    pub fn new(alloc: Global, inner: S) -> Heard<S>
        requires { SinkIsFresh (S.state inner) }
        ensures { SinkIsFresh (heard_state S.state result) }
    {
        Heard {
            inner,
            kept: Vec::new(alloc),
            has_failed: false,
        }
    }

    /// Whether the last call failed, or took nothing.
    pub fn has_failed(&self) -> bool {
        self.has_failed
    }

    /// The first of the bytes that were handed on, as a text; empty where they are none.
    pub fn text(&self) -> &str {
        str::from_utf8(self.kept.as_slice()).unwrap_or("")
    }
}

impl<S: Sink> Sink for Heard<S> {
    ghost use Rattle.lvs_talk.specs.Kept.{heard_state};

    ghost state = { heard_state S.state };

    fn write(&mut self, piece: &[u8]) -> Result<usize, Failed> {
        self.has_failed = true;
        let count = self.inner.write(piece)?;
        self.has_failed = count == 0;
        if self.kept.len() < ENOUGH {
            let _kept = self.kept.extend_from_slice(&piece[..count]);
        }
        Ok(count)
    }
}
