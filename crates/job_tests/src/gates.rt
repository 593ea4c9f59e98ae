//! Gates that watch workers.
use job_board::Gate;
use std::sync::atomic::AtomicU64;
use std::sync::atomic::Ordering::SeqCst;
use std::thread;

// How often a visit looks for the other one.
const TURNS: u64 = 1_000_000_000;

/// A gate at which the jobs 1 and 2 wait for each other, phase after phase: only where two workers
/// are at work does neither wait in vain. Other jobs pass at once.
#[derive(Drop)]
pub struct Abreast {
    first: AtomicU64,
    second: AtomicU64,
    late: AtomicU64,
}

/// The visits of job 1, those of job 2, and those that ran out of turns.
#[derive(Clone, Copy, Debug, PartialEq, Eq)]
pub struct Visits {
    pub first: u64,
    pub second: u64,
    pub late: u64,
}

impl Abreast {
    /// Before any visit.
    pub fn new() -> Abreast {
        Abreast {
            first: AtomicU64::new(0),
            second: AtomicU64::new(0),
            late: AtomicU64::new(0),
        }
    }

    /// The visits so far.
    pub fn visits(&self) -> Visits {
        Visits {
            first: self.first.load(SeqCst),
            second: self.second.load(SeqCst),
            late: self.late.load(SeqCst),
        }
    }
}

impl Gate for Abreast {
    fn enter(&self, job: u32) {
        let (mine, other) = match job {
            1 => (&self.first, &self.second),
            2 => (&self.second, &self.first),
            _ => return,
        };
        let before = mine.fetch_add(1, SeqCst);
        for _ in 0..TURNS {
            if other.load(SeqCst) > before {
                return;
            }
            thread::yield_now();
        }
        self.late.fetch_add(1, SeqCst);
    }
}
