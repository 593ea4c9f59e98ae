//! Which run the words ask for.

ghost use Rattle.lvs_outside.specs.Store.{HasRoom};
ghost use Rattle.lvs_outside.specs.Summary.{SinkHasRoom};

use job_board::OpenGate;
use lvs_outside::{Depot, Sink};
use lvs_run::run_lvs;
use netlist_run::run_netlist;
use std::alloc::Global;
use std::sync::Wait;
use std::thread::Threads;
use view_run::run_view;

/// Runs the command of these words, the first of which is its name; the exit status. Standard
/// output and files are as the contract of the command's run says: of `run_view` and `run_netlist`,
/// lent the words behind the name, or of `run_lvs`, lent all.
pub fn run_words<R: Threads + Wait + Sync, D: Depot, S: Sink>(
    rt: &R,
    alloc: Global,
    words: &[String],
    depot: &mut D,
    out: &mut S,
) -> u8
    requires depot { HasRoom (D.state depot.old) }
    requires out { SinkHasRoom (S.state out.old) }
{
    if let [command, more @ ..] = words {
        if command.as_str() == "view" {
            return run_view(rt, alloc, more, depot, out, &OpenGate).code();
        }
        if command.as_str() == "netlist" {
            return run_netlist(alloc, more, depot, out).code();
        }
    }
    run_lvs(rt, alloc, words, depot, out, &OpenGate).code()
}
