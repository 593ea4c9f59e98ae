//! A netlist file is that of the flat layout.

ghost use Rattle.netlist_file.specs.Flat.{ShowsFlatLaw};

use crate::extracted_text;
use cell_graph::design_laws;
use flat_laws::{flat_gates, verdicts};
use headline_laws::flat_layouts;
use spice_text::written_laws;
use table_laws::bad_gates;

/// What is written of a layout's netlist means it, and no other. Its last circuit is the top's and
/// expands to the netlist of the flat layout: a device for each good gate of the flat top, on the
/// regions of the flat top. The bad gates of the flat top are told, and nothing else.
pub fn flat_netlist()
    ensures { ShowsFlatLaw }
{
    extracted_text();
    written_laws();
    flat_layouts();
    flat_gates();
    verdicts();
    bad_gates();
    design_laws();
}
