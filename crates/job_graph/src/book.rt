//! The book of a run by levels: a state of the machine of jobs, in which each job is claimed once
//! its inputs were published, and published once it was worked.
ghost use Rattle.std.specs.Prelude.{◌≡◌};
ghost use Rattle.job_graph.specs.Graph.{AreInputs};
ghost use Rattle.job_graph.specs.Machine.{IsStateOf, machine_of};
ghost use Rattle.job_graph.specs.Book.{AreFree, MayClaim, MayPublish, arrived, with_claimed};
ghost use Rattle.job_graph.specs.Book.{with_published};

use crate::graph::Graph;
use crate::machine::{Event, JobState, Step};

/// Lets all edges to a job arrive, the last one first.
fn arrive_all(book: &mut JobState, graph: &Graph, job: u32)
    requires graph { AreInputs graph.now }
    requires state { IsStateOf graph.now book.old }
    requires job { MayClaim graph.now (machine_of book.old) job }
    ensures state { IsStateOf graph.now book.new }
    ensures arrived { machine_of book.new ≡ arrived (machine_of book.old) job }
{
    let inputs = graph.inputs(job);
    let mut left = inputs.len();
    while left > 0 {
        left -= 1;
        let Step::Done = book.step(graph, Event::Arrive(inputs[left], job)) else {
            unreachable!();
        };
    }
}

/// Claims the jobs of a level, whose inputs were all published.
pub(crate) fn claim_level(book: &mut JobState, graph: &Graph, level: &[u32])
    requires graph { AreInputs graph.now }
    requires state { IsStateOf graph.now book.old }
    requires level { AreFree (MayClaim graph.now (machine_of book.old)) level.now }
    ensures state { IsStateOf graph.now book.new }
    ensures claimed { machine_of book.new ≡ with_claimed (machine_of book.old) level.now }
{
    for job in level {
        arrive_all(book, graph, *job);
        let Step::Done = book.step(graph, Event::Claim(0, *job)) else {
            unreachable!();
        };
    }
}

/// Publishes the jobs of a level.
pub(crate) fn publish_level(book: &mut JobState, graph: &Graph, level: &[u32])
    requires state { IsStateOf graph.now book.old }
    requires level { AreFree (MayPublish graph.now (machine_of book.old)) level.now }
    ensures state { IsStateOf graph.now book.new }
    ensures published { machine_of book.new ≡ with_published (machine_of book.old) level.now }
{
    for job in level {
        let Step::Done = book.step(graph, Event::Publish(0, *job)) else {
            unreachable!();
        };
    }
}
