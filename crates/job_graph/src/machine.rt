//! The machine of jobs: events claim a job, publish it and let the edge to a dependent arrive.
ghost use Rattle.std.specs.Prelude.{◌≡◌, ◌<◌, ◌^◌, ℕ, length, IfOk};
ghost use Rattle.job_graph.specs.Graph.{AreAscending, AreInputs, has};
ghost use Rattle.job_graph.specs.Machine.{MachineLaw, machine_of, IsStateOf, start as started};
ghost use Rattle.job_graph.specs.Machine.{answer, next, less};
ghost use Rattle.job_graph.specs.declared.machine.Event.TheVariants.{Claim, Publish, Arrive};

use crate::graph::Graph;
use std::alloc::{AllocError, Global};

/// What may happen to a job.
#[derive(Clone, Copy, Debug, PartialEq, Eq)]
pub enum Event {
    /// A worker claims a job.
    Claim(u32, u32),
    /// A worker publishes a job.
    Publish(u32, u32),
    /// The edge from a job to its dependent arrives.
    Arrive(u32, u32),
}

/// What an event answers. All but `Done` change nothing.
#[derive(Clone, Copy, Debug, PartialEq, Eq)]
pub enum Step {
    Done,
    /// The claimed job has this many open inputs, more than 0.
    NotReady(u32),
    /// The claimed job is ready, and claimed by this worker.
    Taken(u32),
    /// A claim of no job, a publication of a job that this worker doesn't hold unpublished, or an
    /// arrival at no edge, from an unpublished job, or at an edge that arrived before.
    Idle,
}

/// For each job the inputs whose edge is open, who claimed it, and whether it is published.
#[derive(Drop)]
pub struct JobState {
    pub(crate) awaits: Vec<Vec<u32>>,
    pub(crate) claimed: Vec<Option<u32>>,
    pub(crate) published: Vec<bool>,
}

/// What holds of every list of events.
pub fn machine_laws()
    ensures { MachineLaw }
{}

// Takes a number out of an ascending list, and says whether it stood there.
fn take_out(list: &mut Vec<u32>, number: u32) -> bool
    requires { (high : ℕ) × AreAscending 0 list.old.items high }
    ensures found { result ≡ has number list.old.items }
    ensures rest { list.new.items ≡ less number list.old.items }
{
    match list.binary_search(&number) {
        Ok(place) => {
            list.remove(place);
            true
        }
        Err(_) => false,
    }
}

impl JobState {
    /// The state before any event. O(jobs + inputs).
    pub fn start(alloc: Global, graph: &Graph) -> Result<JobState, AllocError>
        ensures state { IfOk result (IsStateOf graph.now) }
        ensures start { IfOk result (λ s. machine_of s ≡ started graph.now) }
    {
        let mut awaits = Vec::new(alloc);
        let mut claimed = Vec::new(alloc);
        let mut published = Vec::new(alloc);
        for job in 0..graph.jobs() {
            awaits.push(graph.inputs(job).to_vec(alloc)?)?;
            claimed.push(None)?;
            published.push(false)?;
        }
        Ok(JobState {
            awaits,
            claimed,
            published,
        })
    }

    /// One event. The graph is that of `start`. Constant time, and for an arrival at a job with k
    /// open inputs O(log k) and a move of those behind.
    pub fn step(&mut self, graph: &Graph, event: Event) -> Step
        requires { IsStateOf graph.now self.old }
        ensures answer { result ≡ answer graph.now (machine_of self.old) event }
        ensures next { machine_of self.new ≡ next graph.now (machine_of self.old) event }
        ensures state { IsStateOf graph.now self.new }
    {
        match event {
            Event::Claim(worker, job) => self.claim(graph, worker, job),
            Event::Publish(worker, job) => self.publish(graph, worker, job),
            Event::Arrive(from, to) => self.arrive(graph, from, to),
        }
    }

    fn claim(&mut self, graph: &Graph, worker: u32, job: u32) -> Step
        requires { IsStateOf graph.now self.old }
        ensures answer { result ≡ answer graph.now (machine_of self.old) (Claim worker job) }
        ensures next { machine_of self.new
            ≡ next graph.now (machine_of self.old) (Claim worker job) }
        ensures state { IsStateOf graph.now self.new }
    {
        if job >= graph.jobs() {
            return Step::Idle;
        }
        let open = self.awaits[job as usize].len();
        if open > 0 {
            return Step::NotReady(open as u32);
        }
        if let Some(by) = self.claimed[job as usize] {
            return Step::Taken(by);
        }
        self.claimed[job as usize] = Some(worker);
        Step::Done
    }

    fn publish(&mut self, graph: &Graph, worker: u32, job: u32) -> Step
        requires { IsStateOf graph.now self.old }
        ensures answer { result ≡ answer graph.now (machine_of self.old) (Publish worker job) }
        ensures next { machine_of self.new
            ≡ next graph.now (machine_of self.old) (Publish worker job) }
        ensures state { IsStateOf graph.now self.new }
    {
        if job >= graph.jobs() || self.published[job as usize] {
            return Step::Idle;
        }
        match self.claimed[job as usize] {
            Some(by) if by == worker => {
                self.published[job as usize] = true;
                Step::Done
            }
            _ => Step::Idle,
        }
    }

    fn arrive(&mut self, graph: &Graph, from: u32, to: u32) -> Step
        requires { IsStateOf graph.now self.old }
        ensures answer { result ≡ answer graph.now (machine_of self.old) (Arrive from to) }
        ensures next { machine_of self.new ≡ next graph.now (machine_of self.old) (Arrive from to) }
        ensures state { IsStateOf graph.now self.new }
    {
        let jobs = graph.jobs();
        if from >= jobs || to >= jobs || !self.published[from as usize] {
            return Step::Idle;
        }
        if take_out(&mut self.awaits[to as usize], from) {
            Step::Done
        } else {
            Step::Idle
        }
    }
}
