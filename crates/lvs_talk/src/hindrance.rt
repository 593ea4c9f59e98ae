//! What keeps a run from being begun, though its words are whole.

use crate::sentence::{say, says};
use net_names::{Name, escape};
use std::alloc::{AllocError, Global};

/// Two paths that are one file, which is written; a file that is standard output; or a schematic
/// whose sizes an option changes, with the option's line.
#[derive(Clone, Copy)]
pub enum Hindrance<'a> {
    Shared { written: &'a str, other: &'a str },
    Output(&'a str),
    Scale { path: &'a str, line: usize },
}

// A path as lines for scripts spell it, with the escapes of SPICE names.
fn escaped(alloc: Global, path: &str) -> Result<Vec<u8>, AllocError> {
    match Name::from_bytes(alloc, path.as_bytes())? {
        Some(name) => escape(alloc, &name),
        None => Ok(Vec::new(alloc)),
    }
}

/// Adds the line for standard output; nothing where that is one of the run's files.
pub fn add_line(
    alloc: Global,
    out: &mut String,
    hindrance: &Hindrance<'_>,
) -> Result<(), AllocError> {
    match hindrance {
        Hindrance::Shared { written, .. } => {
            let path = escaped(alloc, written)?;
            let path = str::from_utf8(path.as_slice()).unwrap_or("");
            say(out, &says("refused same @", path, "", ""))
        }
        Hindrance::Output(_) => Ok(()),
        Hindrance::Scale { line, .. } => {
            let line = line.to_string(alloc)?;
            say(out, &says("refused scale line @", line.as_str(), "", ""))
        }
    }
}

const SHARED: &str = "lvs: @ and @ are one file, which is written";

const OUTPUT: &str = "lvs: standard output is @, too";

const SCALE: &str =
    "lvs: @: an option SCALE changes the sizes (line @), and they are read as they stand";

const TURN: &str = "  lvs netlist @ --out P turns them by it; compare with P";

/// Says what it is, and what to do.
pub fn tell_hindrance(
    alloc: Global,
    out: &mut String,
    hindrance: &Hindrance<'_>,
) -> Result<(), AllocError> {
    match hindrance {
        Hindrance::Shared { written, other } => {
            say(out, &says(SHARED, written, other, ""))?;
            say(out, &says("  name another one", "", "", ""))
        }
        Hindrance::Output(path) => {
            say(out, &says(OUTPUT, path, "", ""))?;
            say(out, &says("  name another one behind >", "", "", ""))
        }
        Hindrance::Scale { path, line } => {
            let line = line.to_string(alloc)?;
            say(out, &says(SCALE, path, line.as_str(), ""))?;
            say(out, &says(TURN, path, "", ""))
        }
    }
}
