//! Rules of resistors and diodes behind that of a transistor: the devices that they give.

use crate::rule_shown::all_answer;
use std::test::Fail;

const BEFORE: &str = "a = input(1, 0)
b = input(2, 0)
w = polygon_layer
t = labels(5, 1)
connect(a, b)
connect_global(w, 'G')
extract_devices(mos4('N'), { 'SD' => a, 'G' => b, 'W' => w })
";

const SHOWN: &str = "a input 1/0
b input 2/0
w empty
t labels 5/1
connect 0 1
global 2 G
N sd 0 g 1 w 2 ts 0 tg 1 tb 2
";

static RULES: [(&str, &str); 8] = [
    (
        "extract_devices(resistor_with_bulk('R'), { 'R' => a, 'C' => b, 'W' => w })",
        "R r 0 c 1 w 2 ta 1 tw 2\n",
    ),
    (
        "extract_devices(resistor_with_bulk(\"R\", 50), { 'R' => a, 'C' => b, 'W' => w })",
        "R r 0 c 1 w 2 ta 1 tw 2\n",
    ),
    (
        "extract_devices(resistor_with_bulk('r 1', 1234567.0000000), { 'tW' => a, 'W' => w, \
        'tB' => a, 'C' => b, 'tA' => a, 'R' => b })",
        "r 1 r 1 c 1 w 2 ta 0 tw 0\n",
    ),
    (
        "extract_devices(resistor_with_bulk('R', 0 . 5), { 'R' => a, 'C' => b, 'W' => w, \
        'tA' => b })",
        "R r 0 c 1 w 2 ta 1 tw 2\n",
    ),
    (
        "extract_devices(diode('D'), { 'P' => a, 'N' => b })",
        "D p 0 n 1 ta 0 tc 1\n",
    ),
    (
        "extract_devices(diode('D'), { 'tC' => w, 'N' => a, 'P' => a, 'tA' => b })",
        "D p 0 n 0 ta 1 tc 2\n",
    ),
    (
        "extract_devices(diode('D'), { 'P' => w, 'N' => w, 'tA' => a, 'tC' => b })",
        "D p 2 n 2 ta 0 tc 1\n",
    ),
    (
        "extract_devices(diode('D'), { 'P' => a, 'N' => w })\n\
        extract_devices(resistor_with_bulk('R'), { 'R' => a, 'C' => b, 'W' => w })",
        "D p 0 n 2 ta 0 tc 2\nR r 0 c 1 w 2 ta 1 tw 2\n",
    ),
];

#[test]
fn further_rules(rt: HostRuntime) -> Result<(), Fail> {
    let alloc = rt.alloc();
    for (line, shown) in &RULES {
        let want = format!(in alloc; "{SHOWN}{shown}guesses 1000\n")?;
        all_answer(&rt, alloc, BEFORE, &[(line, want.as_str())])?;
    }
    Ok(())
}
