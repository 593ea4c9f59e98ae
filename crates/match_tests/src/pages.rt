//! Small layouts and schematics that differ, with what is shown of them.

use geo_base::Point;
use job_graph::Reads;
use match_types::{Answer, Evidence};
use net_model::{Circuit, Netlist};
use net_names::Name;
use spice_text::read_spice;
use std::alloc::{AllocError, Global};
use std::test::Fail;
use view_cross::{Kind, Mark, Row};
use view_page::{Book, Places, push_page};
use view_pairs::proposals;

// A layout and a schematic whose circuits are pairs by place, and of the last pair the marks of its
// nets, devices and calls, as the browser has them, how many devices, nets and pins all circuits of
// each side have, and the page below that.
struct Case {
    layout: &'static str,
    schematic: &'static str,
    marks: &'static str,
    counts: (&'static str, &'static str),
    page: &'static str,
}

const HEAD: &str = "Partners are proposed; what is sure stands in the report.\n";

static CASES: [Case; 6] = [
    // A width of 0.5 against 0.6.
    Case {
        layout: ".subckt inv a y v g\nm1 y a v v p l=0.1u w=1u\nm2 y a g g n l=0.1u w=0.5u\n\
            .ends\n",
        schematic: ".subckt inv a y v g\nm1 y a v v p l=0.1u w=1u\nm2 y a g g n l=0.1u w=0.6u\n\
            .ends\n",
        marks: "N1N1N1N1D1DW",
        counts: ("devices 2, nets 4, pins 4", "devices 2, nets 4, pins 4"),
        page: "cell INV, circuit INV of the schematic\n\
            \x20 transistor $2 N L=0.1 W=0.6 of the schematic: in the layout transistor $2 N \
            L=0.1 W=0.5 at (1, 2.5)\n",
    },
    // A transistor lost in the schematic.
    Case {
        layout: ".subckt inv a y v g\nm1 y a v v p l=0.1u w=1u\nm2 y a g g n l=0.1u w=0.5u\n\
            .ends\n",
        schematic: ".subckt inv a y v g\nm1 y a v v p l=0.1u w=1u\n.ends\n",
        marks: "N0N0N1N0D1D0",
        counts: ("devices 2, nets 4, pins 4", "devices 1, nets 4, pins 4"),
        page: "cell INV, circuit INV of the schematic\n\
            \x20 net A of the schematic: among other neighbours in the layout, net A at (0, 0)\n\
            \x20 net Y of the schematic: among other neighbours in the layout, net Y at (1, 0)\n\
            \x20 net G of the schematic: among other neighbours in the layout, net G at (3, 0)\n\
            \x20 transistor $2 N L=0.1 W=0.5 at (1, 2.5): none in the schematic\n",
    },
    // Two pins of a call exchanged.
    Case {
        layout: ".subckt inv a y v g\nm1 y a v v p l=1u w=2u\nm2 y a g g n l=1u w=1u\n.ends\n\
            .subckt buf i o v g\nx1 i m v g inv\nx2 m o v g inv\n.ends\n",
        schematic: ".subckt inv a y v g\nm1 y a v v p l=1u w=2u\nm2 y a g g n l=1u w=1u\n.ends\n\
            .subckt buf i o v g\nx1 i m v g inv\nx2 o m v g inv\n.ends\n",
        marks: "N1N0N1N1N0X1X0",
        counts: ("devices 2, nets 9, pins 8", "devices 2, nets 9, pins 8"),
        page: "cell BUF, circuit BUF of the schematic\n\
            \x20 net O of the schematic: among other neighbours in the layout, net O at (1, 0)\n\
            \x20 net M of the schematic: among other neighbours in the layout, net M at (4, 0)\n\
            \x20 call $2 of INV of the schematic: among other neighbours in the layout, \
            call $2 of INV at (-0.5, 1)\n",
    },
    // A net that joins two of the schematic, and one in two parts.
    Case {
        layout: ".subckt t a\\,b c c\\$3\nm1 c a\\,b c\\$3 a\\,b n l=1u w=1u\n.ends\n",
        schematic: ".subckt t a b c\nm1 c a c b n l=1u w=1u\n.ends\n",
        marks: "N0N0N0N0N0D0",
        counts: ("devices 1, nets 3, pins 3", "devices 1, nets 3, pins 3"),
        page: "cell T, circuit T of the schematic\n\
            \x20 net 'A,B' at (0, 0): none in the schematic\n\
            \x20 net 'A,B' at (0, 0): joins nets A B of the schematic\n\
            \x20 net C of the schematic: among other neighbours in the layout, net C at (1, 0)\n\
            \x20 net C$3 at (2, 0): none in the schematic\n\
            \x20 net C: in the layout two parts, at (1, 0) and net C$3 at (2, 0)\n\
            \x20 net A of the schematic: none in the layout\n\
            \x20 net B of the schematic: none in the layout\n\
            \x20 transistor $1 N L=1 W=1 of the schematic: among other neighbours in the layout, \
            transistor $1 N L=1 W=1 at (0, 2.5)\n",
    },
    // Sizes of a resistor and of a diode; the resistor's ends may be exchanged.
    Case {
        layout: ".subckt t a b w\nr1 a b w rp l=1u w=2u\nd2 a b dn a=0.5p p=3u\n.ends\n",
        schematic: ".subckt t a b w\nr1 b a w rp l=1u w=2.5u\nd2 a b dn a=0.25p p=3u\n.ends\n",
        marks: "N1N1N1DWDW",
        counts: ("devices 2, nets 3, pins 3", "devices 2, nets 3, pins 3"),
        page: "cell T, circuit T of the schematic\n\
            \x20 resistor $1 RP L=1 W=2.5 of the schematic: in the layout resistor $1 RP \
            L=1 W=2 at (0, 2.5)\n\
            \x20 diode $2 DN A=0.25 P=3 of the schematic: in the layout diode $2 DN \
            A=0.5 P=3 at (1, 2.5)\n",
    },
    // A diode turned round.
    Case {
        layout: ".subckt t a b\nd1 a b dn a=0.5p p=3u\n.ends\n",
        schematic: ".subckt t a b\nd1 b a dn a=0.5p p=3u\n.ends\n",
        marks: "N0N0D0",
        counts: ("devices 1, nets 2, pins 2", "devices 1, nets 2, pins 2"),
        page: "cell T, circuit T of the schematic\n\
            \x20 net A of the schematic: among other neighbours in the layout, net A at (0, 0)\n\
            \x20 net B of the schematic: among other neighbours in the layout, net B at (1, 0)\n\
            \x20 diode $1 DN A=0.5 P=3 of the schematic: among other neighbours in the layout, \
            diode $1 DN A=0.5 P=3 at (0, 2.5)\n",
    },
];

// No pair matches.
#[derive(Drop)]
struct NoMatch {
    answer: Answer,
}

impl Reads<Answer> for NoMatch {
    ghost use Rattle.std.specs.Prelude.{Some};

    ghost may_read = { λ r job. Unit {0} };

    ghost value = { λ r job. Some r.answer };

    fn get(&self, job: u32) -> &Answer {
        &self.answer
    }
}

fn no_match(alloc: Global) -> NoMatch {
    NoMatch {
        answer: Answer::Differs(Evidence::Tree(Vec::new(alloc))),
    }
}

fn read(alloc: Global, text: &str) -> Result<Netlist, Fail> {
    match read_spice(alloc, text.as_bytes()) {
        Ok(netlist) => Ok(netlist),
        Err(_) => Err(Fail::from("no netlist")),
    }
}

fn letter(kind: Kind) -> &'static str {
    match kind {
        Kind::Net => "N",
        Kind::Pin => "P",
        Kind::Device => "D",
        Kind::Call => "X",
    }
}

fn sign(mark: Mark) -> &'static str {
    match mark {
        Mark::Matched => "1",
        Mark::Mismatched => "0",
        Mark::Warned => "W",
        Mark::Skipped => "S",
        Mark::Unmatched => "X",
    }
}

// The marks of all rows but those of pins.
fn marks_of(alloc: Global, rows: &[Row]) -> Result<String, AllocError> {
    let mut text = String::new(alloc);
    for row in rows {
        if row.kind != Kind::Pin {
            text.push_str(letter(row.kind))?;
            text.push_str(sign(row.mark))?;
        }
    }
    Ok(text)
}

// A point for each of so many nodes, a micrometre from each other along x.
fn points(alloc: Global, count: usize, y: i64) -> Result<Vec<Option<Point>>, AllocError> {
    let mut out = Vec::new(alloc);
    let mut x: i64 = 0;
    for _ in 0..count {
        out.push(Some(Point { x, y }))?;
        x = x.wrapping_add(1000);
    }
    Ok(out)
}

// The same along y.
fn column(alloc: Global, count: usize, x: i64) -> Result<Vec<Option<Point>>, AllocError> {
    let mut out = Vec::new(alloc);
    let mut y: i64 = 0;
    for _ in 0..count {
        out.push(Some(Point { x, y }))?;
        y = y.wrapping_add(1000);
    }
    Ok(out)
}

fn places_of(alloc: Global, circuits: &[Circuit]) -> Result<Vec<Places>, AllocError> {
    let mut out = Vec::new(alloc);
    for c in circuits {
        let nets = points(alloc, c.nets.len(), 0)?;
        let devices = points(alloc, c.devices.len(), 2500)?;
        let calls = column(alloc, c.calls.len(), -500)?;
        out.push(Places {
            nets,
            devices,
            calls,
        })?;
    }
    Ok(out)
}

fn names_of(alloc: Global, circuits: &[Circuit]) -> Result<Vec<Name>, AllocError> {
    let mut out = Vec::new(alloc);
    for c in circuits {
        out.push(c.name.try_clone(alloc)?)?;
    }
    Ok(out)
}

// What is shown of a case: the marks of its last pair, and the page.
fn comes_out(alloc: Global, case: &Case) -> Result<bool, Fail> {
    let left = read(alloc, case.layout)?;
    let right = read(alloc, case.schematic)?;
    if left.circuits.len() != right.circuits.len() {
        return Ok(false);
    }
    let answers = no_match(alloc);
    let rows = proposals(alloc, &left.circuits, &right.circuits, &answers, false)?;
    let names = names_of(alloc, &left.circuits)?;
    let places = places_of(alloc, &left.circuits)?;
    let mut page = Vec::new(alloc);
    let book = Book {
        unit: 1000,
        names: &names,
        lefts: &left.circuits,
        rights: &right.circuits,
        places: &places,
    };
    push_page(alloc, &mut page, book, &rows)?;
    let mut want = Vec::new(alloc);
    let (lefts, rights) = case.counts;
    for part in [
        HEAD,
        "Compared: ",
        lefts,
        " of the layout; ",
        rights,
        " of the schematic.\n",
        case.page,
    ] {
        want.extend_from_slice(part.as_bytes())?;
    }
    let Some(last) = rows.last() else {
        return Ok(false);
    };
    let marks = marks_of(alloc, last)?;
    Ok(page.as_slice() == want.as_slice() && marks.as_str() == case.marks)
}

#[test]
fn pairs_that_differ(rt: HostRuntime) -> Result<(), Fail> {
    let alloc = rt.alloc();
    for case in &CASES {
        assert!(rt; comes_out(alloc, case)?, "{}", case.schematic);
    }
    Ok(())
}
