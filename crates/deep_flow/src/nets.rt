//! Nets, cell by cell.
ghost use Rattle.std.specs.Prelude.{IfOk};
ghost use Rattle.cell_graph.specs.Linked.{plain};
ghost use Rattle.deep_tables.specs.Nets.{AreNets};
ghost use Rattle.rule_text.specs.Seen.{rules_seen};

use deep_tables::Nets;
use job_board::{Crew, Gate, run_phase};
use net_phase::{NetPhase, Wired};
use std::alloc::{AllocError, Global};
use std::sync::Wait;
use std::thread::Threads;

/// The nets of each reached cell, over what the phases read of its layers. A cell is worked once,
/// by 1 to 64 workers, with one answer for every number of them. An `Err` is want of memory.
pub fn find_nets<R: Threads + Wait + Sync, G: Gate + Sync>(
    alloc: Global,
    wired: &Wired,
    crew: &Crew<R, G>,
) -> Result<Nets, AllocError>
    ensures { IfOk result (AreNets (plain wired.now.design) (rules_seen wired.now.rules)) }
{
    let design = wired.design();
    design.sound();
    let phase = NetPhase::new(alloc, wired, crew)?;
    let results = run_phase(alloc, &phase, crew)?;
    let nets = Nets::new(alloc, design, results)?;
    Ok(nets)
}
