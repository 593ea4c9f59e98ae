//! A layout and rules have one netlist file.

ghost use Rattle.netlist_file.specs.One.{OneNetlistLaw, OneOrderLaw};

use crate::one_text;
use cell_graph::design_laws;

/// The netlists of alike layouts by the same rules are the same, with the same top and bad gates,
/// and so are their texts, byte for byte, and the order of the cells that the top reaches.
pub fn one_netlist()
    ensures netlist { OneNetlistLaw }
    ensures order { OneOrderLaw }
{
    design_laws();
    one_text();
}
