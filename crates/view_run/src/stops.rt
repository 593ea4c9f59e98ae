//! Why a run ends before it has anything to write, by what ended it.

ghost use Rattle.std.specs.Prelude.{◌≡◌};
ghost use Rattle.lvs_run.specs.Inputs.{stopped as run_stopped};
ghost use Rattle.view_run.specs.Ends.{AsRun, stopped};
ghost use Rattle.view_run.specs.Views.{view_answer};

use crate::status::{Stop, Why};
use view_shapes::ShowFault;

/// As `lvs run` ends for it.
pub fn run_stop(stop: lvs_run::Stop) -> Stop
    ensures { stopped result ≡ AsRun (run_stopped stop) }
{
    match stop {
        lvs_run::Stop::Refused(why) => Stop::Refused(Why::Run(why)),
        lvs_run::Stop::Outside => Stop::Outside,
        lvs_run::Stop::NoMemory => Stop::NoMemory,
    }
}

/// For what can't be drawn.
pub fn view_stop(fault: ShowFault) -> Stop
    ensures { stopped result ≡ view_answer fault }
{
    match fault {
        ShowFault::TooFar => Stop::Refused(Why::View),
        ShowFault::NoMemory => Stop::NoMemory,
    }
}
