//! Work by levels: the jobs of a level are shared by workers.
ghost use Rattle.std.specs.Prelude.{◌≡◌, ◌<◌, ◌≤◌, ℕ, true, length, IfOk, OnOk, All};
ghost use Rattle.job_graph.specs.Graph.{lists};
ghost use Rattle.job_graph.specs.Levels.{AreLevels};
ghost use Rattle.job_graph.specs.Machine.{IsStateOf, machine_of};
ghost use Rattle.job_graph.specs.Table.{AreDefined};
ghost use Rattle.job_graph.specs.Sharing.{AreFound, AreRight, AreShares, IsFound, IsReady};
ghost use Rattle.job_graph.specs.Sharing.{KeepsFound};

use crate::book::{claim_level, publish_level};
use crate::found::Found;
use crate::levels::levels;
use crate::machine::JobState;
use crate::phase::Phase;
use crate::results::Results;
use std::alloc::{AllocError, Global};
use std::sync::Wait;
use std::sync::atomic::AtomicU64;
use std::sync::atomic::Ordering::SeqCst;
use std::thread;
use std::thread::Threads;

/// What one worker does of a level: it takes the next job until none is left or no memory is found.
fn work_share<P: Phase>(
    alloc: Global,
    phase: &P,
    level: &[u32],
    found: &Found<P::Out>,
    next: &AtomicU64,
) -> Result<Vec<(u32, P::Out)>, AllocError>
    requires ready { All (IsReady (P.graph phase.now) found.now) level.now }
    requires right { AreFound P.Out.is_defined (P.key phase.now) (P.graph phase.now) found.now }
    ensures { IfOk result
        (λ v. AreRight P.Out.is_defined (P.key phase.now) (P.graph phase.now) v.items) }
{
    let mut done = Vec::new(alloc);
    for _ in level {
        let place = next.fetch_add(1, SeqCst);
        if place >= level.len() as u64 {
            break;
        }
        let job = level[place as usize];
        let value = phase.work(alloc, job, found)?;
        done.push((job, value))?;
    }
    Ok(done)
}

/// Keeps what a worker did.
fn keep_share<P: Phase>(phase: &P, found: &mut Found<P::Out>, share: Vec<(u32, P::Out)>)
    requires share { AreRight P.Out.is_defined (P.key phase.now) (P.graph phase.now) share.items }
    requires right { AreFound P.Out.is_defined (P.key phase.now) (P.graph phase.now) found.old }
    ensures right { AreFound P.Out.is_defined (P.key phase.now) (P.graph phase.now) found.new }
    ensures keeps { KeepsFound found.old found.new }
{
    for (job, value) in share {
        found.put(job, value);
    }
}

/// Keeps what the workers did. One that found no memory ends the work.
fn keep_shares<P: Phase>(
    phase: &P,
    found: &mut Found<P::Out>,
    shares: Vec<Result<Vec<(u32, P::Out)>, AllocError>>,
) -> Result<(), AllocError>
    requires shares { AreShares P.Out.is_defined (P.key phase.now) (P.graph phase.now)
        shares.items }
    requires right { AreFound P.Out.is_defined (P.key phase.now) (P.graph phase.now) found.old }
    ensures right { OnOk result
        (AreFound P.Out.is_defined (P.key phase.now) (P.graph phase.now) found.new) }
    ensures keeps { OnOk result (KeepsFound found.old found.new) }
{
    for share in shares {
        keep_share(phase, found, share?);
    }
    Ok(())
}

/// Works what no worker took of a level.
fn work_rest<P: Phase>(
    alloc: Global,
    phase: &P,
    level: &[u32],
    found: &mut Found<P::Out>,
) -> Result<(), AllocError>
    requires ready { All (IsReady (P.graph phase.now) found.old) level.now }
    requires right { AreFound P.Out.is_defined (P.key phase.now) (P.graph phase.now) found.old }
    ensures right { OnOk result
        (AreFound P.Out.is_defined (P.key phase.now) (P.graph phase.now) found.new) }
    ensures keeps { OnOk result (KeepsFound found.old found.new) }
    ensures all { OnOk result (All (IsFound found.new) level.now) }
{
    for job in level {
        if !found.has(*job) {
            let value = phase.work(alloc, *job, found)?;
            found.put(*job, value);
        }
    }
    Ok(())
}

/// Works the jobs of one level. Each worker takes the next job as it comes free, so that a long job
/// holds up no other; where a thread can't be started, the others take what it would have taken.
fn work_level<R: Threads + Sync, P: Phase + Sync>(
    rt: &R,
    alloc: Global,
    phase: &P,
    workers: usize,
    level: &[u32],
    found: &mut Found<P::Out>,
) -> Result<(), AllocError>
    requires ready { All (IsReady (P.graph phase.now) found.old) level.now }
    requires right { AreFound P.Out.is_defined (P.key phase.now) (P.graph phase.now) found.old }
    ensures right { OnOk result
        (AreFound P.Out.is_defined (P.key phase.now) (P.graph phase.now) found.new) }
    ensures keeps { OnOk result (KeepsFound found.old found.new) }
    ensures all { OnOk result (All (IsFound found.new) level.now) }
{
    let next = AtomicU64::new(0);
    let before: &Found<P::Out> = found;
    let shares = thread::map_indices(
        rt,
        alloc,
        workers.min(level.len()),
        &|_worker: usize| -> Result<Vec<(u32, P::Out)>, AllocError>
            requires ready { All (IsReady (P.graph phase.now) before.now) level.now }
            requires right { AreFound P.Out.is_defined (P.key phase.now)
                (P.graph phase.now) before.now }
            ensures { IfOk result (λ v. AreRight P.Out.is_defined (P.key phase.entry.now)
                (P.graph phase.entry.now) v.items) }
        { work_share(alloc, phase, level, before, &next) },
    )?;
    keep_shares(phase, found, shares)?;
    work_rest(alloc, phase, level, found)
}

/// Works all levels in their order, and keeps a book of it: a job is claimed before it is worked,
/// when its inputs' edges have arrived, and published after.
fn work_levels<R: Threads + Sync, P: Phase + Sync>(
    rt: &R,
    alloc: Global,
    phase: &P,
    workers: usize,
    levels: &[Vec<u32>],
) -> Result<(Found<P::Out>, JobState), AllocError>
    requires { AreLevels (P.graph phase.now) (lists levels.now) }
    ensures right { IfOk result
        (λ r. AreFound P.Out.is_defined (P.key phase.now) (P.graph phase.now) r.0) }
    ensures found { IfOk result
        (λ r. (job : ℕ) → job < length (P.graph phase.now) → IsFound r.0 job) }
    ensures book { IfOk result (λ r. IsStateOf (P.graph phase.now) r.1) }
    ensures published { IfOk result
        (λ r. (job : ℕ) → job < length (P.graph phase.now)
        → (machine_of r.1).published job ≡ true) }
{
    let graph = phase.graph();
    let mut found = Found::nothing(alloc, graph.jobs())?;
    let mut book = JobState::start(alloc, graph)?;
    for level in levels {
        claim_level(&mut book, graph, level);
        work_level(rt, alloc, phase, workers, level, &mut found)?;
        publish_level(&mut book, graph, level);
    }
    Ok((found, book))
}

/// The value of each job of a phase, worked level by level: level 0 is the jobs without inputs, and
/// level k + 1 those whose highest input lies in level k. The jobs of a level are handed out one by
/// one as workers come free. The values stand in the order of the jobs, and are the same for every
/// number of workers. O(jobs + inputs) beside the work itself.
pub fn run_levels<R: Threads + Wait + Sync, P: Phase + Sync>(
    rt: &R,
    alloc: Global,
    phase: &P,
    workers: usize,
) -> Result<Results<P::Out>, AllocError>
    requires { (1 ≤ workers) × (workers ≤ 64) }
    ensures { IfOk result (AreDefined P.Out.is_defined (P.key phase.now) (P.graph phase.now)) }
{
    let levels = levels(alloc, phase.graph())?;
    let (found, _book) = work_levels(rt, alloc, phase, workers, &levels)?;
    found.into_results(rt, alloc)
}

/// The same values for a caller that moves them on: they stand in a list of their own, in the order
/// of the jobs, and no other thread reads them. O(jobs + inputs) beside the work itself.
pub fn level_values<R: Threads + Sync, P: Phase + Sync>(
    rt: &R,
    alloc: Global,
    phase: &P,
    workers: usize,
) -> Result<Vec<P::Out>, AllocError>
    requires { (1 ≤ workers) × (workers ≤ 64) }
    ensures { IfOk result
        (λ v. AreDefined P.Out.is_defined (P.key phase.now) (P.graph phase.now) v.items) }
{
    let levels = levels(alloc, phase.graph())?;
    let (found, _book) = work_levels(rt, alloc, phase, workers, &levels)?;
    found.into_values(alloc)
}
