//! Layouts and rules of more than one test, and the streams of layouts that are written as text.

use row_texts::stream_of;
use std::alloc::{AllocError, Global};

/// The stream of a layout.
pub fn stream(alloc: Global, text: &str) -> Result<Vec<u8>, AllocError> {
    stream_of(alloc, text.as_bytes()).map_err(|_| AllocError)
}

/// The first bytes, so many at most.
pub fn front(bytes: &[u8], count: usize) -> &[u8] {
    bytes.get(..count).unwrap_or(bytes)
}

/// Two squares that overlap.
pub const OVERLAP: &str = "cell A\nrect 1 0 0 10 10\nrect 2 5 5 15 15\n";

/// Rules of what two layers have in common.
pub const COMMON: &str = "a = input(1, 0)\nb = input(2, 0)\nc = a & b\nc.output(10, 0)\n";

/// Rules of transistors of one class, whose bulk is a global.
pub const MOS: &str = r#"active = input(2, 0)
poly = input(3, 0)
txt = labels(5, 1)
bulk = polygon_layer
gate = active & poly
sd = active - poly
extract_devices(mos4("NMOS"), { "SD" => sd, "G" => gate, "W" => bulk, "tG" => poly })
connect(sd, txt)
connect(poly, txt)
connect_global(bulk, "VSS")
"#;

/// One transistor with names at its terminals.
pub const T: &str = "cell T
rect 2 0 0 1250 1500
rect 3 500 -100 750 1600
text 5/1 100 100 S
text 5/1 1000 100 D
text 5/1 600 1550 G
";

pub const T_NETLIST: &str = r"* lvs netlist
.SUBCKT T G S D VSS
M1 D G S VSS NMOS L=0.25U W=1.5U
.ENDS T
.END
";

/// The schematic of `T`, with other letters and values.
pub const T_SCHEMATIC: &str = ".subckt t g s d vss
m1 d g s vss nmos l=2.5e-07
+ w=1500n as=1p m=1
.ends
";
