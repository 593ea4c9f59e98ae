//! Two workers at once, in each phase of `extract` whose jobs a board hands out.

use crate::commands::{EXTRACT, Inputs, NONE, ends, holds, run_through};
use crate::layouts::{MOS, stream};
use job_tests::{Abreast, Visits};
use std::test::Fail;

const THREE: &str = "cell K
rect 2 0 0 1250 1500
rect 3 500 -100 750 1600
cell L
rect 2 0 0 1250 1500
rect 3 500 -100 750 1600
cell N
rect 2 0 0 1250 1500
rect 3 500 -100 750 1600
cell TOP
place K 0 0
place L 2000 0
place N 4000 0
";

const NETLIST: &str = r"* lvs netlist
.SUBCKT K VSS
M1 \$3 \$1 \$2 VSS NMOS L=0.25U W=1.5U
.ENDS K
.SUBCKT L VSS
M1 \$3 \$1 \$2 VSS NMOS L=0.25U W=1.5U
.ENDS L
.SUBCKT N VSS
M1 \$3 \$1 \$2 VSS NMOS L=0.25U W=1.5U
.ENDS N
.SUBCKT TOP VSS
X1 VSS K
X2 VSS L
X3 VSS N
.ENDS TOP
.END
";

// In each of the six phases before circuits, whose jobs a board hands out, two workers are at work
// on two of the three cells at once.
#[test]
fn both_workers_enter(rt: HostRuntime) -> Result<(), Fail> {
    let alloc = rt.alloc();
    let layout = stream(alloc, THREE)?;
    let inputs = Inputs {
        layout: &layout,
        rules: MOS,
        schematic: "",
    };
    let mut words = EXTRACT.to_vec(alloc)?;
    words.extend_from_slice(&["--workers", "2"])?;
    let gate = Abreast::new();
    let ran = run_through(&rt, alloc, inputs, &words, NONE, &gate)?;
    let six = Visits {
        first: 6,
        second: 6,
        late: 0,
    };
    assert_eq!(rt; gate.visits(), six);
    ends(
        &rt,
        &ran,
        0,
        "extracted cells 4 circuits 4 bad 0\n",
        "two workers",
    );
    holds(&rt, &ran.netlist, NETLIST, "two workers");
    Ok(())
}
