//! The commands, and why words state none.

ghost use Rattle.std.specs.Prelude.{◌≡◌, ◌≢◌, map, IfOk, IsErrOf, None, Some, string_bytes};
ghost use Rattle.lvs_words.specs.declared.command.WordFault.TheVariants.{NoMemory};

use net_names::Name;
use std::alloc::{AllocError, Global};
use thiserror::Error;

/// What a list of words asks for.
#[derive(Debug, Drop)]
pub enum Command {
    /// `shapes LAYOUT RULES SHAPES`: writes the derived layers of a layout.
    Shapes {
        layout: String,
        rules: String,
        shapes: String,
    },
    /// `extract`: writes the netlist of a layout too.
    Extract {
        layout: String,
        rules: String,
        shapes: String,
        netlist: String,
        top: Option<Name>,
        workers: usize,
    },
    /// `run`: compares it with a schematic, and writes the report too.
    Run {
        layout: String,
        rules: String,
        schematic: String,
        shapes: String,
        netlist: String,
        report: String,
        top: Option<Name>,
        workers: usize,
    },
    /// `make N SEED WORKERS PREFIX`: makes a chip, and runs on it.
    Make {
        n: u32,
        seed: u64,
        workers: usize,
        prefix: String,
    },
}

#[derive(Debug, Drop, Error)]
pub enum WordFault {
    #[error("the words are no command")]
    Refused,
    #[error("no memory")]
    NoMemory,
}

impl From<AllocError> for WordFault {
    ghost from_gives = { λ _ e. e ≡ NoMemory };

    fn from(_: AllocError) -> Self {
        WordFault::NoMemory
    }
}

/// A command, and the path of a file that it writes and names twice.
#[derive(Debug, Drop)]
pub struct Stated {
    pub command: Command,
    pub shared: Option<String>,
}
