//! Worked rule files, with their whole rule sets.

use crate::rule_shown::all_answer;
use std::test::Fail;

/// Files, and their whole rule sets.
static FILES: [(&str, &str); 4] = [
    // One transistor over an active layer, with text labels.
    (
        "active = input(2, 0)
poly = input(3, 0)
txt = labels(5, 1)
bulk = polygon_layer
gate = active & poly
sd = active - poly
extract_devices(mos4(\"NMOS\"), { \"SD\" => sd, \"G\" => gate, \"W\" => bulk, \"tG\" => poly })
connect(sd, txt)
connect(poly, txt)
connect_global(bulk, \"VSS\")
",
        "active input 2/0
poly input 3/0
txt labels 5/1
bulk empty
gate 0&1
sd 0-1
connect 5 2
connect 1 2
global 3 VSS
NMOS sd 5 g 4 w 3 ts 5 tg 1 tb 3
guesses 1000
",
    ),
    // Two classes of transistors in wells, with ties, two wells' nets and written layers.
    (
        "nwell = input(1, 0)
active = input(2, 0)
poly = input(3, 0)
contact = input(4, 0)
metal = input(5, 0)
tie = input(6, 0)
txt = labels(5, 1)
bulk = polygon_layer
pactive = active & nwell
nactive = active - nwell
pgate = pactive & poly
ngate = nactive & poly
psd = pactive - poly
nsd = nactive - poly
ptie = tie - nwell
ntie = tie & nwell
extract_devices(mos4(\"PMOS\"), { \"SD\" => psd, \"G\" => pgate, \"W\" => nwell, \"tG\" => poly })
extract_devices(mos4(\"NMOS\"), { \"SD\" => nsd, \"G\" => ngate, \"W\" => bulk, \"tG\" => poly })
connect(psd, contact)
connect(nsd, contact)
connect(poly, contact)
connect(ptie, contact)
connect(ntie, contact)
connect(ntie, nwell)
connect(contact, metal)
connect(metal, txt)
connect_global(bulk, \"VSS\")
connect_global(ptie, \"VSS\")
psd.output(10, 0)
nsd.output(11, 0)
",
        "nwell input 1/0
active input 2/0
poly input 3/0
contact input 4/0
metal input 5/0
tie input 6/0
txt labels 5/1
bulk empty
pactive 1&0
nactive 1-0
pgate 8&2
ngate 9&2
psd 8-2
nsd 9-2
ptie 5-0
ntie 5&0
output 12 10/0
output 13 11/0
connect 12 3
connect 13 3
connect 2 3
connect 14 3
connect 15 3
connect 15 0
connect 3 4
connect 4 6
global 7 VSS
global 14 VSS
PMOS sd 12 g 10 w 0 ts 12 tg 2 tb 0
NMOS sd 13 g 11 w 7 ts 13 tg 2 tb 7
guesses 1000
",
    ),
    // Every statement, entry keys in another order and with both quotes; the last max_guesses counts.
    (
        "deep
_a1 = input(0, 65535)
b = input(0000001, 2)
c = _a1 | b
d = c ^ b
x = polygon_layer
sized = c - d
grown = _a1.sized(10000)
shrunk = sized . sized ( - 00001 )
both = grown | shrunk
max_guesses(7)
connect_global(c, 'G')
connect_global(d, \"G # 1\")
connect_global(x, 'it is \"x\"')
extract_devices(mos4('p'),{'tB'=>x,'W'=>b,'tD'=>d,'G'=>_a1,\"tS\"=>d,\"tG\"=>c,'SD'=>b})
same_circuits('A', 'b')
same_circuits('b', 'a')
netlist.flatten_circuit('c')
schematic . flatten_circuit ( \"C\" )
flatten_unmatched
same_pins
combine_devices
combine_devices
netlist
schematic('in.cir')
align
compare
max_guesses(1000000)
d.output(0, 1)
",
        "_a1 input 0/65535
b input 1/2
c 0|1
d 2^1
x empty
sized 2-3
grown 0 sized 10000
shrunk 5 sized -1
both 6|7
output 3 0/1
global 2 G
global 3 G # 1
global 4 it is \"x\"
p sd 1 g 0 w 1 ts 3 tg 2 tb 4
same A b
same b a
flat layout c
flat schematic C
flattens unmatched
tells pins
combine
guesses 1000000
",
    ),
    // Each word that chooses regions, and selections of selections. A bound may be nil; eighteen
    // digits are the most.
    (
        "a = input(1, 0)
b = a.sized(10000)
c = a.interacting(b)
d = c . not_interacting ( a )
e = a.overlapping(d)
f = a.not_overlapping(a)
g = e.sized(10000)
h = g.inside(b)
i = a.not_inside(b)
j = a.outside(b)
k = a.not_outside(b)
l = a.with_area(7)
m = a.without_area(000000000000000000)
n = a.with_area(0, 999999999999999999)
o = a.without_area(3, 2)
p = a.with_area(nil, 999999999999999999)
q = a.with_area(5, nil)
nil = q & p
interacting = nil.interacting(nil)
",
        "a input 1/0
b 0 sized 10000
c input 65536/2
d input 65536/3
e input 65536/4
f input 65536/5
g 4 sized 10000
h input 65536/7
i input 65536/8
j input 65536/9
k input 65536/10
l input 65536/11
m input 65536/12
n input 65536/13
o input 65536/14
p input 65536/15
q input 65536/16
nil 16&15
interacting input 65536/18
select 2 0 interacting 1
select 3 2 not interacting 0
select 4 0 overlapping 3
select 5 0 not overlapping 0
select 7 6 inside 1
select 8 0 not inside 1
select 9 0 outside 1
select 10 0 not outside 1
select 11 0 from 7 below 8 0
select 12 0 not from 0 below 1 0
select 13 0 from 0 below 999999999999999999 0
select 14 0 not from 3 below 2 0
select 15 0 from 0 below 999999999999999999 0
select 16 0 from 5 0
select 18 17 interacting 17
guesses 1000
",
    ),
];

#[test]
fn whole_files(rt: HostRuntime) -> Result<(), Fail> {
    all_answer(&rt, rt.alloc(), "", &FILES)?;
    Ok(())
}

const NONE: &str = "guesses 1000\n";

const ONE: &str = "a input 1/0\nguesses 1000\n";

const TWO: &str = "a input 1/0\nb input 2/0\nguesses 1000\n";

/// Files, and their rules or their faults.
static ENDS: [(&str, &str); 18] = [
    ("", NONE),
    ("\n", NONE),
    ("\r\n", NONE),
    ("# only\n\t # comments\n", NONE),
    ("# no end", NONE),
    ("# a CR \r inside a comment\n", NONE),
    ("a = input(1, 0)", ONE),
    ("a=input(1,0)\n", ONE),
    ("\ta\t=\tinput\t(\t1\t,\t0\t)\t\n", ONE),
    ("a = input(1, 0) # a comment \"\n", ONE),
    ("a = input(1, 0)#", ONE),
    ("a = input(1, 0)\r\nb = input(2, 0)\r\n", TWO),
    (
        "\n\r\na = input(1, 0)\n\n# b = input(3, 0)\nb = input(2, 0)",
        TWO,
    ),
    ("a = input(1, 0)\r", "31 1"),
    ("a = input(1, 0)\rb = input(2, 0)\n", "31 1"),
    ("a = input(1, 0)\r\r\n", "31 1"),
    ("\r", "31 1"),
    ("a = input(1, 0)\n\na = input(1, 0)", "33 3"),
];

// How lines end and what separates tokens.
#[test]
fn line_ends(rt: HostRuntime) -> Result<(), Fail> {
    all_answer(&rt, rt.alloc(), "", &ENDS)?;
    Ok(())
}
