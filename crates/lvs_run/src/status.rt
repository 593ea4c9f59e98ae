//! How a run of the program ends.

use gds_layout::LayoutFault;
use net_names::Name;
use rule_text::RuleFault;
use spice_rows::SpiceFault;

/// How a run of the program ends.
#[derive(Debug, Drop)]
pub enum Status {
    /// Everything was done.
    Good,
    /// A gate is bad, or the comparison shows a difference. `shapes` never ends so.
    Bad,
    /// The words or an input file are refused. No file was started.
    Refused(Refusal),
    /// The comparison reached its limit. `shapes` and `extract` never end so.
    Undecided,
    /// A call on the outside failed.
    Outside,
    /// No memory was left. No file was started.
    NoMemory,
}

/// What is refused. A path is one of the command's words.
#[derive(Debug, Drop)]
pub enum Refusal {
    /// The words are no command.
    Words,
    /// A file that is to be written is named twice.
    SamePath(String),
    /// No file has the path.
    Absent(String),
    /// The file has more than 268,435,456 bytes.
    TooLong(String),
    /// The rule file's first fault.
    Rules(RuleFault),
    /// The layout's first fault.
    Layout(LayoutFault),
    /// The schematic's first fault.
    Schematic(SpiceFault),
    /// The first cell of the layout, in the order of the file, with a rectangle of an output line
    /// that its shapes file has no room for.
    Wide(Name),
    /// The first circuit of the layout with alike transistors that are too wide for one.
    MergedLayout(Name),
    /// The same of the schematic.
    MergedSchematic(Name),
}

impl Status {
    ghost use Rattle.std.specs.Prelude.{◌≡◌};
    ghost use Rattle.lvs_run.specs.Codes.{code_of};

    /// The exit status of the program.
    pub fn code(&self) -> u8
        ensures { result ≡ code_of self.now }
    {
        match self {
            Status::Good => 0,
            Status::Bad => 1,
            Status::Refused(_) => 2,
            Status::Undecided => 3,
            Status::Outside => 4,
            Status::NoMemory => 5,
        }
    }
}
