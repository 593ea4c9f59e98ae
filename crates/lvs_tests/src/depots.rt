//! Runs over a depot without an end, one that takes nothing, and one that counts its calls.

ghost use Rattle.lvs_outside.specs.Store.{HasRoom};

use crate::commands::{SHAPES, words_of};
use crate::layouts::{COMMON, OVERLAP, stream};
use job_board::OpenGate;
use lvs_outside::{Depot, EndlessDepot, Failed, IdleDepot, MemorySink, QuietDepot};
use lvs_run::run_lvs;
use std::alloc::{AllocError, Global};
use std::sync::Wait;
use std::test::Fail;
use std::thread::Threads;

// Runs the words over a depot: the code and the line, where the sink's first call fails or not.
fn over<R: Threads + Wait + Sync, D: Depot>(
    rt: &R,
    alloc: Global,
    words: &[&str],
    depot: &mut D,
    sink_fails: bool,
) -> Result<(u8, Vec<u8>), AllocError>
    requires { HasRoom (D.state depot.old) }
{
    let words = words_of(alloc, words)?;
    let mut failing = Vec::new(alloc);
    if sink_fails {
        failing.push(1)?;
    }
    let mut sink = MemorySink::new(alloc, failing);
    let status = run_lvs(rt, alloc, words.as_slice(), depot, &mut sink, &OpenGate);
    Ok((status.code(), sink.bytes().to_vec(alloc)?))
}

// The rules are read first, and never end.
#[test]
fn endless_rules(rt: HostRuntime) -> Result<(), Fail> {
    let alloc = rt.alloc();
    let mut depot = EndlessDepot::new();
    let (code, line) = over(&rt, alloc, &SHAPES, &mut depot, false)?;
    assert!(rt; line.as_slice() == b"refused long r\n".as_slice());
    assert!(rt; code == 2);
    Ok(())
}

#[test]
fn nothing_taken(rt: HostRuntime) -> Result<(), Fail> {
    let alloc = rt.alloc();
    let mut depot = IdleDepot::new(alloc);
    depot.put(alloc, "l", &stream(alloc, OVERLAP)?)?;
    depot.put(alloc, "r", COMMON.as_bytes())?;
    let (code, line) = over(&rt, alloc, &SHAPES, &mut depot, false)?;
    assert!(rt; line.is_empty());
    assert!(rt; code == 4);
    Ok(())
}

/// A depot that counts the calls on it.
#[derive(Drop)]
struct Asked<'a> {
    inner: QuietDepot<'a>,
    calls: u64,
}

impl Depot for Asked<'_> {
    ghost use Rattle.lvs_outside.specs.QuietStore.{quiet_store};

    ghost state = { λ d. quiet_store d.inner };

    fn open_read(&mut self, path: &str) -> Result<bool, Failed> {
        self.calls = self.calls.saturating_add(1);
        self.inner.open_read(path)
    }

    fn read(&mut self, buf: &mut [u8]) -> Result<usize, Failed> {
        self.calls = self.calls.saturating_add(1);
        self.inner.read(buf)
    }

    fn start_write(&mut self, path: &str) -> Result<(), Failed> {
        self.calls = self.calls.saturating_add(1);
        self.inner.start_write(path)
    }

    fn write(&mut self, piece: &[u8]) -> Result<usize, Failed> {
        self.calls = self.calls.saturating_add(1);
        Depot::write(&mut self.inner, piece)
    }

    fn finish_write(&mut self) -> Result<(), Failed> {
        self.calls = self.calls.saturating_add(1);
        self.inner.finish_write()
    }
}

/// Words, and how many calls of the depot they come to.
static ROWS: [(&[&str], u64); 5] = [
    (&["run"], 0),
    (&["shapes", "l", "-r", "s"], 0),
    (&["shapes", "l", "r", "r"], 0),
    (&["shapes", "l", "x", "s"], 1),
    (&SHAPES, 9),
];

// How many calls of the depot the words come to, and the code.
fn calls_of<R: Threads + Wait + Sync>(
    rt: &R,
    alloc: Global,
    layout: &[u8],
    words: &[&str],
    sink_fails: bool,
) -> Result<(u64, u8), AllocError> {
    let mut inner = QuietDepot::new(alloc);
    inner.lend("l", layout)?;
    inner.lend("r", COMMON.as_bytes())?;
    let mut depot = Asked { inner, calls: 0 };
    let (code, _) = over(rt, alloc, words, &mut depot, sink_fails)?;
    Ok((depot.calls, code))
}

// No call before wrong words are refused, and none once the sink failed: an input has its open and
// two reads, a file its start, write and finish.
#[test]
fn calls_made(rt: HostRuntime) -> Result<(), Fail> {
    let alloc = rt.alloc();
    let layout = stream(alloc, OVERLAP)?;
    for (words, calls) in &ROWS {
        for sink_fails in [false, true] {
            let (made, code) = calls_of(&rt, alloc, &layout, words, sink_fails)?;
            assert!(rt; made == *calls);
            assert!(rt; (code == 4) == sink_fails);
        }
    }
    Ok(())
}
