//! For each left net, the first right net of its name.

ghost use Rattle.std.specs.Prelude.{◌<◌, ◌^◌, length, IfOk};
ghost use Rattle.std.specs.HashMap.{get};
ghost use Rattle.net_model.specs.declared.netlist.Circuit.{Circuit};
ghost use Rattle.refine_match.specs.Namesakes.{AreFirsts, AreNamesakes, is_same_name};

use net_model::Circuit;
use std::alloc::{AllocError, Global};
use std::collections::HashMap;

/// For each left net the first right net of its name, if there is one. It takes the time to hash
/// the names.
pub fn list_namesakes(
    alloc: Global,
    left: &Circuit,
    right: &Circuit,
) -> Result<Vec<Option<u32>>, AllocError>
    requires { length right.now.nets.items < 2 ^ 32 }
    ensures { IfOk result (λ found. AreNamesakes left.now right.now found.items) }
{
    let firsts = first_nets(alloc, right)?;
    namesakes_by(alloc, left, &firsts)
}

// Those that the first right net of each name gives.
fn namesakes_by<'a>(
    alloc: Global,
    left: &'a Circuit,
    firsts: &HashMap<&'a [u8], u32>,
) -> Result<Vec<Option<u32>>, AllocError>
    ensures { IfOk result (λ found. (right : Circuit)
        → AreFirsts right 0 (get is_same_name firsts.now)
        → AreNamesakes left.now right found.items) }
{
    let mut namesakes = Vec::new(alloc);
    for n in 0..left.nets.len() {
        namesakes.push(firsts.get(&left.nets[n].bytes()).copied())?;
    }
    Ok(namesakes)
}

// The first net of each name.
fn first_nets<'a>(alloc: Global, circuit: &'a Circuit) -> Result<HashMap<&'a [u8], u32>, AllocError>
    requires { length circuit.now.nets.items < 2 ^ 32 }
    ensures { IfOk result (λ firsts. AreFirsts circuit.now 0 (get is_same_name firsts)) }
{
    let mut firsts: HashMap<&'a [u8], u32> = HashMap::new(alloc);
    let count = circuit.nets.len();
    for k in 0..count {
        let n = count - 1 - k;
        firsts.insert(circuit.nets[n].bytes(), n as u32)?;
    }
    Ok(firsts)
}
