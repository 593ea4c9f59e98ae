//! The commands and their options.

use crate::near::{beside, is_near};

/// A command: its name, its short form (nothing where it has none), its exact words, and what it is
/// for.
pub struct Command {
    pub name: &'static str,
    pub short: &'static str,
    pub form: &'static str,
    pub text: &'static str,
}

/// An option: its name, what its value is called (nothing where it has none), the commands that
/// take it, those that need it, and what it is.
pub struct Choice {
    pub name: &'static str,
    pub value: &'static str,
    pub takers: &'static str,
    pub needers: &'static str,
    pub text: &'static str,
}

pub static COMMANDS: [Command; 8] = [
    Command {
        name: "run",
        short: "run chip.lvs chip.gds chip.cir",
        form: "run --layout P --rules P --schematic P --shapes P --netlist P --report P \
               [--top NAME] [--workers N]",
        text: "compares a layout with its schematic, and writes shapes, netlist and report",
    },
    Command {
        name: "view",
        short: "view chip.lvs chip.gds chip.cir",
        form: "view --layout P --rules P --schematic P --database P [--page P] \
               [--top NAME] [--workers N]",
        text: "compares them for KLayout's netlist browser; the page says in words what differs",
    },
    Command {
        name: "extract",
        short: "extract chip.lvs chip.gds",
        form: "extract --layout P --rules P --shapes P --netlist P [--top NAME] [--workers N]",
        text: "writes the rules' layers, and the layout's netlist",
    },
    Command {
        name: "shapes",
        short: "",
        form: "shapes LAYOUT RULES SHAPES",
        text: "writes the rules' layers as GDSII",
    },
    Command {
        name: "netlist",
        short: "",
        form: "netlist IN.. --out P [--top NAME] [--title] [--scale V] [--drop-capacitors] \
               [--drop-resistors]",
        text: "turns netlists as netlisters write them into a schematic that run reads",
    },
    Command {
        name: "make",
        short: "",
        form: "make N SEED WORKERS PREFIX",
        text: "writes a chip of N inverters to try run on, and compares it",
    },
    Command {
        name: "help",
        short: "",
        form: "help [COMMAND]",
        text: "lists the commands, or the words of one",
    },
    Command {
        name: "version",
        short: "",
        form: "version",
        text: "says which program this is",
    },
];

pub static CHOICES: [Choice; 16] = [
    Choice {
        name: "--layout",
        value: "P",
        takers: "run view extract",
        needers: "run view extract",
        text: "the layout, GDSII",
    },
    Choice {
        name: "--rules",
        value: "P",
        takers: "run view extract",
        needers: "run view extract",
        text: "the rule file",
    },
    Choice {
        name: "--schematic",
        value: "P",
        takers: "run view",
        needers: "run view",
        text: "the schematic, SPICE",
    },
    Choice {
        name: "--shapes",
        value: "P",
        takers: "run extract",
        needers: "run extract",
        text: "the file of the rules' layers, which is written",
    },
    Choice {
        name: "--netlist",
        value: "P",
        takers: "run extract",
        needers: "run extract",
        text: "the layout's netlist, which is written",
    },
    Choice {
        name: "--report",
        value: "P",
        takers: "run",
        needers: "run",
        text: "the report, which is written: each pair of circuits, its answer, its evidence",
    },
    Choice {
        name: "--database",
        value: "P",
        takers: "view",
        needers: "view",
        text: "the comparison for KLayout's netlist browser, which is written",
    },
    Choice {
        name: "--page",
        value: "P",
        takers: "view",
        needers: "",
        text: "what differs, in words, which is written",
    },
    Choice {
        name: "--out",
        value: "P",
        takers: "netlist",
        needers: "netlist",
        text: "the schematic, which is written",
    },
    Choice {
        name: "--top",
        value: "NAME",
        takers: "run view extract netlist",
        needers: "",
        text: "the top; else the only cell that no cell places",
    },
    Choice {
        name: "--workers",
        value: "N",
        takers: "run view extract",
        needers: "",
        text: "threads, 1 to 64; no byte depends on it",
    },
    Choice {
        name: "--progress",
        value: "",
        takers: "run view extract shapes netlist",
        needers: "",
        text: "tells what is read and written, as it is told on a terminal",
    },
    Choice {
        name: "--title",
        value: "",
        takers: "netlist",
        needers: "",
        text: "the first line of the first file is a title",
    },
    Choice {
        name: "--scale",
        value: "V",
        takers: "netlist",
        needers: "",
        text: "what sizes are in, in metres: a number above 0, at most 1,000, as 1u",
    },
    Choice {
        name: "--drop-capacitors",
        value: "",
        takers: "netlist",
        needers: "",
        text: "leaves C cards out",
    },
    Choice {
        name: "--drop-resistors",
        value: "",
        takers: "netlist",
        needers: "",
        text: "leaves R cards out",
    },
];

/// The inputs that a path's ending tells, in the order of the short form.
pub static INPUTS: [&str; 3] = ["--rules", "--layout", "--schematic"];

/// What a file is by its path's ending, letters folded.
pub static ENDINGS: [(&str, &str); 13] = [
    ("lvs", "--rules"),
    ("rules", "--rules"),
    ("deck", "--rules"),
    ("gds", "--layout"),
    ("gds2", "--layout"),
    ("gdsii", "--layout"),
    ("cir", "--schematic"),
    ("ckt", "--schematic"),
    ("sp", "--schematic"),
    ("spi", "--schematic"),
    ("spice", "--schematic"),
    ("net", "--schematic"),
    ("cdl", "--schematic"),
];

/// The options of files that are written, and how the paths end that the short form gives them.
pub static WRITTEN: [(&str, &str); 6] = [
    ("--shapes", ".shapes.gds"),
    ("--netlist", ".netlist.cir"),
    ("--report", ".report.txt"),
    ("--database", ".lvsdb"),
    ("--page", ".page.txt"),
    ("--out", ""),
];

// Words that stand for an option in other programs.
static OTHERS: [(&str, &str); 8] = [
    ("--threads", "--workers"),
    ("--jobs", "--workers"),
    ("-j", "--workers"),
    ("--gds", "--layout"),
    ("--deck", "--rules"),
    ("--spice", "--schematic"),
    ("--output", "--out"),
    ("-o", "--out"),
];

/// Whether a command stands in a list of names.
pub fn is_listed(names: &str, command: &str) -> bool {
    for name in names.split(' ') {
        if name == command {
            return true;
        }
    }
    false
}

/// Whether a command takes an option of this name.
pub fn takes(command: &str, name: &str) -> bool {
    choice_of(command, name).is_some()
}

/// The command of this name.
pub fn command_of(name: &str) -> Option<&'static Command> {
    for command in COMMANDS.iter() {
        if command.name == name {
            return Some(command);
        }
    }
    None
}

/// The name of a command that is near to a word.
pub fn near_command(word: &str) -> Option<&'static str> {
    for command in COMMANDS.iter() {
        if is_near(word, command.name) {
            return Some(command.name);
        }
    }
    None
}

/// The option of this name that a command takes.
pub fn choice_of(command: &str, name: &str) -> Option<&'static Choice> {
    for choice in CHOICES.iter() {
        if choice.name == name && is_listed(choice.takers, command) {
            return Some(choice);
        }
    }
    None
}

/// The name of an option of a command that is meant by a word which is none: a near one, or one
/// that other programs call so.
pub fn near_choice(command: &str, word: &str) -> Option<&'static str> {
    let meant = beside(&OTHERS, word).unwrap_or(word);
    for choice in CHOICES.iter() {
        if is_near(meant, choice.name) && is_listed(choice.takers, command) {
            return Some(choice.name);
        }
    }
    None
}
