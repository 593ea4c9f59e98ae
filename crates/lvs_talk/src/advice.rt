//! What each refusal means, and what to do about it.

use crate::near::{beside, is_near};

/// A refusal: how its line goes on behind `refused`, what it means, and what to do about it.
pub struct Advice {
    pub key: &'static str,
    pub what: &'static str,
    pub cure: &'static str,
}

static FILES: [Advice; 8] = [
    Advice {
        key: "same",
        what: "a file that is written is named twice, or is read, too",
        cure: "name another one",
    },
    Advice {
        key: "absent",
        what: "there is no such file",
        cure: "look at the path; it counts from the folder in which the program runs",
    },
    Advice {
        key: "long",
        what: "more than 268,435,456 bytes",
        cure: "leave out layers that the rules don't name",
    },
    Advice {
        key: "view",
        what: "something lies 2^30 database units from its cell's origin, too far for KLayout",
        cure: "place it nearer to the origin",
    },
    Advice {
        key: "more than 10000 files",
        what: "more than 10,000 files are taken in",
        cure: "join some of them",
    },
    Advice {
        key: "no circuit",
        what: "no circuit is called so",
        cure: "look at --top: it is the name behind .SUBCKT",
    },
    Advice {
        key: "merge layout",
        what: "alike transistors of the layout's circuit are too wide for one",
        cure: "leave the line combine_devices out",
    },
    Advice {
        key: "merge schematic",
        what: "alike transistors of the schematic's circuit are too wide for one",
        cure: "leave the line combine_devices out",
    },
];

static STREAM: [Advice; 14] = [
    Advice {
        key: "layout 1",
        what: "the file ends too early",
        cure: "it was cut, or is empty: copy or write it again",
    },
    Advice {
        key: "layout 2",
        what: "a record's length is wrong",
        cure: "the file is damaged or no GDSII: save it as GDSII, unpack a .gz",
    },
    Advice {
        key: "layout 3",
        what: "an unknown kind of record",
        cure: "a vendor's extension: write the layout anew",
    },
    Advice {
        key: "layout 4",
        what: "a record stands where none may",
        cure: "the file is damaged: write it anew",
    },
    Advice {
        key: "layout 5",
        what: "a record's content is wrong, or an outline isn't closed or has too few points",
        cure: "write the layout anew, with closed outlines",
    },
    Advice {
        key: "layout 6",
        what: "a slanted edge",
        cure: "draw edges along x or y; logos go into another file",
    },
    Advice {
        key: "layout 7",
        what: "a path with round ends",
        cure: "draw it with square ends (path type 0, 2 or 4)",
    },
    Advice {
        key: "layout 8",
        what: "a path of odd width",
        cure: "widen it by one database unit",
    },
    Advice {
        key: "layout 9",
        what: "a magnified reference",
        cure: "draw the cell in its size",
    },
    Advice {
        key: "layout 10",
        what: "a reference turned by no quarter",
        cure: "turn the shapes of the cell instead",
    },
    Advice {
        key: "layout 11",
        what: "an absolute angle or magnification",
        cure: "clear these bits in the editor",
    },
    Advice {
        key: "layout 12",
        what: "an array with no whole steps, or without columns or rows",
        cure: "place the cells one by one",
    },
    Advice {
        key: "layout 13",
        what: "a database unit that isn't 1 pm to 1 micrometre",
        cure: "save it with another unit",
    },
    Advice {
        key: "layout 14",
        what: "an outline of more than 1,000,000 points",
        cure: "split the polygon",
    },
];

static CELLS: [Advice; 9] = [
    Advice {
        key: "layout 20",
        what: "a second cell of this name",
        cure: "rename one of them",
    },
    Advice {
        key: "layout 21",
        what: "a cell is placed that isn't in the file",
        cure: "add the library that has it",
    },
    Advice {
        key: "layout 22",
        what: "a cell stands below itself",
        cure: "take the reference out",
    },
    Advice {
        key: "layout 23",
        what: "no cell places these",
        cure: "say which one is the top: --top NAME",
    },
    Advice {
        key: "layout 24",
        what: "no cell is the top",
        cure: "look at --top: names are compared letter for letter",
    },
    Advice {
        key: "layout 25",
        what: "it reaches beyond 2^36 database units",
        cure: "place what it joins nearer to its origin",
    },
    Advice {
        key: "layout 26",
        what: "more than 65,536 cells",
        cure: "flatten small cells",
    },
    Advice {
        key: "layout 27",
        what: "more than 64 references in a chain below the cell",
        cure: "flatten some of them",
    },
    Advice {
        key: "layout 28",
        what: "a rectangle of an output line doesn't fit 32 bits",
        cure: "leave that output line out, or place what the cell joins nearer to its origin",
    },
];

static RULES: [Advice; 7] = [
    Advice {
        key: "rules 30",
        what: "no statement begins so",
        cure: "docs/FROM_KLAYOUT.md has what to write in its place",
    },
    Advice {
        key: "rules 31",
        what: "the statement has another form",
        cure: "one operator a line: c = a & b; a name begins with a small letter; no Ruby",
    },
    Advice {
        key: "rules 32",
        what: "a name isn't defined",
        cure: "define it in a line above, as a = input(1, 0)",
    },
    Advice {
        key: "rules 33",
        what: "defined, written or paired before",
        cure: "leave one of the two lines out",
    },
    Advice {
        key: "rules 34",
        what: "a layer that can't stand here",
        cure: "texts are no shapes; a connect line names a terminal's layer: \"tG\" => poly",
    },
    Advice {
        key: "rules 35",
        what: "more than 256 names",
        cure: "leave names out that nothing reads",
    },
    Advice {
        key: "rules 36",
        what: "a byte that no text has",
        cure: "the rule file is plain text: is --rules another file?",
    },
];

static CARDS: [Advice; 9] = [
    Advice {
        key: "schematic 41",
        what: "a call of a circuit that isn't in the file",
        cure: "lvs netlist A.cir B.cir --out P joins files",
    },
    Advice {
        key: "schematic 42",
        what: "a circuit calls itself",
        cure: "take the call out",
    },
    Advice {
        key: "schematic 43",
        what: "a call with another number of nets than the circuit has pins",
        cure: "count them; lvs netlist takes CDL's / away",
    },
    Advice {
        key: "schematic 44",
        what: "a second circuit of this name, capitals apart",
        cure: "rename one of them",
    },
    Advice {
        key: "schematic 50",
        what: "a card of another kind",
        cure: "M, R, D, X are read; lvs netlist turns what netlisters write, a title by --title",
    },
    Advice {
        key: "schematic 51",
        what: "the card has another form",
        cure: "M1 drain gate source bulk MODEL L=0.1U W=1U; no comments behind cards",
    },
    Advice {
        key: "schematic 52",
        what: "a parameter that can't be taken",
        cure: "lvs netlist leaves out those that aren't compared",
    },
    Advice {
        key: "schematic 53",
        what: "a size that can't be taken",
        cure: "sizes are numbers in metres: W=1U is one micrometre; lvs netlist puts .PARAM in",
    },
    Advice {
        key: "schematic 54",
        what: "a .SUBCKT without its .ENDS",
        cure: "write .ENDS behind its cards",
    },
];

static TURNED: [Advice; 15] = [
    Advice {
        key: "names a file that isn't there",
        what: "a file is taken in that isn't there",
        cure: "a path counts from the folder of the file that names it",
    },
    Advice {
        key: "files take in each other in a cycle, or too deep",
        what: "files take in each other, in a cycle or deeper than 32",
        cure: "leave one of the lines out",
    },
    Advice {
        key: "the file hasn't the section",
        what: "the file has no such section",
        cure: "look at the name behind .LIB in both files",
    },
    Advice {
        key: "names no file",
        what: "the line names no file",
        cure: "write the path behind .INCLUDE, in quotes or none",
    },
    Advice {
        key: "quotes that don't end",
        what: "quotes that don't end",
        cure: "write the second one",
    },
    Advice {
        key: "a + with no card before it in its file",
        what: "a + with no card before it in its file",
        cure: "put the card and what goes on with it into one file",
    },
    Advice {
        key: "a card that can't be taken",
        what: "a card that can't be taken",
        cure: "C and R cards go by --drop-capacitors and --drop-resistors, a title by --title",
    },
    Advice {
        key: "the card has another form",
        what: "the card has another form",
        cure: "M1 drain gate source bulk MODEL L=0.1U W=1U; a title goes by --title",
    },
    Advice {
        key: "a circuit's parameter that .PARAM defines, too",
        what: "a circuit's parameter that a .PARAM defines, too",
        cure: "rename one of the two",
    },
    Advice {
        key: "a + with no card before it",
        what: "a + with no card before it",
        cure: "take the + away",
    },
    Advice {
        key: "a second .PARAM of one name",
        what: "a second .PARAM of one name",
        cure: "leave one of the two out",
    },
    Advice {
        key: "an option that changes sizes",
        what: "an option that changes sizes",
        cure: "write the sizes out, and leave the option away",
    },
    Advice {
        key: "a SCALE that is no number",
        what: "the option SCALE is no number",
        cure: "write it as a plain number, as 1U",
    },
    Advice {
        key: "a second SCALE",
        what: "a second option SCALE",
        cure: "leave one of the two out",
    },
    Advice {
        key: "a size that the scale doesn't turn into one",
        what: "a size that the option SCALE doesn't turn into one",
        cure: "sizes times SCALE are whole femtometres",
    },
];

// Whether a line's words begin with a key.
fn has_key(why: &str, key: &str) -> bool {
    match why.strip_prefix(key) {
        Some(rest) => rest.is_empty() || rest.starts_with(' '),
        None => false,
    }
}

fn among<'a>(rows: &'a [Advice], why: &str) -> Option<&'a Advice> {
    for row in rows.iter() {
        if has_key(why, row.key) {
            return Some(row);
        }
    }
    None
}

/// What is said of a refusal whose line goes on so behind `refused`.
pub fn advice_on(why: &str) -> Option<&'static Advice> {
    among(&FILES, why)
        .or(among(&STREAM, why))
        .or(among(&CELLS, why))
        .or(among(&RULES, why))
        .or(among(&CARDS, why))
        .or(among(&TURNED, why))
}

// Calls of KLayout's that no rule file has, and what stands for them.
static CALLS: [(&str, &str); 18] = [
    ("source", "leave it out: --layout and --top say it"),
    ("target", "leave it out: --shapes says it"),
    (
        "report_lvs",
        "leave it out: --report says it, and lvs view --database writes for the browser",
    ),
    ("target_netlist", "leave it out: --netlist says it"),
    ("threads", "leave it out: --workers says it"),
    ("verbose", "leave it out"),
    ("log_file", "leave it out"),
    ("flat", "leave it out: each run is deep"),
    ("tiles", "leave it out"),
    (
        "same_nets",
        "leave it out: names aren't compared; same_pins compares the top's",
    ),
    (
        "same_device_classes",
        "give the class its schematic's name: mos4(\"NMOS\")",
    ),
    ("tolerance", "there is none: sizes are equal or they aren't"),
    (
        "equivalent_pins",
        "there is none; flatten_unmatched where a cell is alike to itself",
    ),
    ("soft_connect", "there is none: connect joins for good"),
    (
        "connect_implicit",
        "there is none: join the pieces in the layout",
    ),
    ("max_depth", "write max_guesses(1000)"),
    ("if", "there is no Ruby here: leave it out"),
    ("puts", "there is no Ruby here: leave it out"),
];

// The words that statements begin with.
static STATEMENTS: [&str; 19] = [
    "input",
    "labels",
    "polygon_layer",
    "output",
    "sized",
    "connect",
    "connect_global",
    "extract_devices",
    "same_circuits",
    "keep_covered",
    "flatten_unmatched",
    "same_pins",
    "combine_devices",
    "max_guesses",
    "deep",
    "netlist",
    "align",
    "compare",
    "schematic",
];

/// What stands for a call of KLayout's.
pub fn call_cure(word: &str) -> Option<&'static str> {
    beside(&CALLS, word)
}

/// A word of statements that a word is near to.
pub fn near_statement(word: &str) -> Option<&'static str> {
    for statement in STATEMENTS.iter() {
        if is_near(word, statement) {
            return Some(statement);
        }
    }
    None
}
