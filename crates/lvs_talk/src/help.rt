//! What `help` prints.

use crate::sentence::{say, says};
use crate::table::{
    CHOICES, COMMANDS, Command, ENDINGS, INPUTS, WRITTEN, command_of, is_listed, takes,
};
use std::alloc::AllocError;

const HEAD: &str = "\
lvs checks that a chip's layout is its schematic, cell by cell.

";

const TAIL: &str = "
An option stands as --name value or --name=value, once, in any order. A file without option is
told by its path's ending; outputs without option stand beside the layout (lvs help run).
Exit status: 0 done, match; 1 mismatch, bad gate; 2 refused; 3 undecided;
4 a call on a file or on standard output failed; 5 no memory.
The line on standard output is for scripts, what is on standard error for people.
";

const SHORT: &str = "\
A file by itself is told by its ending, or is the one that is missing; an output without option is
named by the layout:
";

// The words of a command, and what it is for.
fn add_command(out: &mut String, command: &Command) -> Result<(), AllocError> {
    if !command.short.is_empty() {
        say(out, &says("lvs @", command.short, "", ""))?;
    }
    say(out, &says("lvs @\n    @", command.form, command.text, ""))
}

// The text of `help`.
fn add_all(out: &mut String) -> Result<(), AllocError> {
    out.push_str(HEAD)?;
    for command in COMMANDS.iter() {
        add_command(out, command)?;
    }
    out.push_str(TAIL)
}

// The endings of an input's paths.
fn add_endings(out: &mut String, input: &str) -> Result<(), AllocError> {
    out.push_str("  ")?;
    out.push_str(input)?;
    out.push_str(":")?;
    for (ending, kind) in ENDINGS.iter() {
        if *kind == input {
            out.push_str(" .")?;
            out.push_str(ending)?;
        }
    }
    out.push_str("\n")
}

// How files are told that stand by themselves, and where outputs go that aren't named.
fn add_short(out: &mut String, name: &str) -> Result<(), AllocError> {
    out.push_str(SHORT)?;
    for input in INPUTS.iter() {
        if takes(name, input) {
            add_endings(out, input)?;
        }
    }
    for (output, ending) in WRITTEN.iter() {
        if takes(name, output) {
            say(
                out,
                &says("  @ is chip@, beside chip.gds", output, ending, ""),
            )?;
        }
    }
    Ok(())
}

/// Adds the text of `help COMMAND`; of `help`, where no command is called so.
pub fn add_help(out: &mut String, name: &str) -> Result<(), AllocError> {
    let Some(command) = command_of(name) else {
        return add_all(out);
    };
    add_command(out, command)?;
    for choice in CHOICES.iter() {
        if is_listed(choice.takers, name) {
            say(
                out,
                &says("  @ @: @", choice.name, choice.value, choice.text),
            )?;
        }
    }
    if command.short.is_empty() {
        return Ok(());
    }
    add_short(out, name)
}

/// Whether a command is called so.
pub fn is_command(name: &str) -> bool {
    command_of(name).is_some()
}
