//! A phase that sums along a graph, run by one worker and by many.

use crate::graphs::graph_of;
use job_board::{Crew, Gate, OpenGate, run_phase};
use job_graph::{Defined, Graph, Phase, Reads};
use std::alloc::{AllocError, Global};
use std::sync::atomic::AtomicU64;
use std::sync::atomic::Ordering::SeqCst;
use std::test::Fail;
use std::thread;

const TURNS: u64 = 1_000_000_000;

/// The number of a job and one, with the values of its inputs.
#[derive(Drop)]
pub struct Worth(pub u64);

impl Defined for Worth {
    type Key = ();

    ghost is_defined = { λ _ _ _. Unit {0} };
}

/// Sums along a graph. One job finds no memory.
#[derive(Drop)]
struct Sums {
    graph: Graph,
    short: u32,
}

impl Phase for Sums {
    type Out = Worth;

    ghost graph = { λ s. s.graph };

    ghost key = { λ _. tt };

    fn graph(&self) -> &Graph {
        &self.graph
    }

    fn key(&self) {}

    fn work<R: Reads<Worth>>(
        &self,
        _alloc: Global,
        job: u32,
        reads: &R,
    ) -> Result<Worth, AllocError> {
        if job == self.short {
            return Err(AllocError);
        }
        let mut sum = u64::from(job) + 1;
        for input in self.graph.inputs(job) {
            sum = sum.wrapping_add(reads.get(*input).0);
        }
        Ok(Worth(sum))
    }
}

// Which of the first 64 jobs were entered.
#[derive(Drop)]
struct Entered {
    seen: AtomicU64,
}

impl Gate for Entered {
    fn enter(&self, job: u32) {
        self.seen.fetch_or(1 << (job % 64), SeqCst);
    }
}

// Jobs 0 and 1 wait for each other.
#[derive(Drop)]
struct Meeting {
    first: AtomicU64,
    second: AtomicU64,
    met: AtomicU64,
}

impl Gate for Meeting {
    fn enter(&self, job: u32) {
        let (mine, other) = if job == 0 {
            (&self.first, &self.second)
        } else {
            (&self.second, &self.first)
        };
        mine.store(1, SeqCst);
        for _ in 0..TURNS {
            if other.load(SeqCst) == 1 {
                self.met.fetch_add(1, SeqCst);
                return;
            }
            thread::yield_now();
        }
    }
}

const CHAIN: [(u32, u32); 10] = [
    (0, 0),
    (0, 1),
    (1, 2),
    (2, 3),
    (3, 4),
    (4, 5),
    (5, 6),
    (6, 7),
    (7, 8),
    (8, 9),
];

const NONE: u32 = 99;

// Each value is the number of the jobs up to it and theirs: 1, 3, 6, ..
#[test]
fn chain_is_summed(rt: HostRuntime) -> Result<(), Fail> {
    let alloc: Global = rt.alloc();
    for workers in [1, 4, 64] {
        let sums = Sums {
            graph: graph_of(alloc, &CHAIN)?,
            short: NONE,
        };
        let values = run_phase(alloc, &sums, &Crew::new(&rt, workers, &OpenGate))?;
        assert!(rt; values.len() == 10 && values.get(9).0 == 55 && values.get(4).0 == 15);
    }
    Ok(())
}

#[test]
fn no_job_after_want_of_memory(rt: HostRuntime) -> Result<(), Fail> {
    let alloc: Global = rt.alloc();
    for workers in [1, 4] {
        let sums = Sums {
            graph: graph_of(alloc, &CHAIN)?,
            short: 5,
        };
        let gate = Entered {
            seen: AtomicU64::new(0),
        };
        let answer = run_phase(alloc, &sums, &Crew::new(&rt, workers, &gate));
        assert!(rt; answer.is_err() && gate.seen.load(SeqCst) == 0b11_1111);
    }
    Ok(())
}

#[test]
fn both_workers_enter(rt: HostRuntime) -> Result<(), Fail> {
    let alloc: Global = rt.alloc();
    let sums = Sums {
        graph: graph_of(alloc, &[(0, 0), (0, 0)])?,
        short: NONE,
    };
    let gate = Meeting {
        first: AtomicU64::new(0),
        second: AtomicU64::new(0),
        met: AtomicU64::new(0),
    };
    let values = run_phase(alloc, &sums, &Crew::new(&rt, 2, &gate))?;
    assert!(rt; values.len() == 2 && gate.met.load(SeqCst) == 2);
    Ok(())
}
