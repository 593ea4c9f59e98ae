//! The netlists that are compared by rules that combine devices.

ghost use Rattle.std.specs.Prelude.{◌≡◌, IfErr, IfOk, None, OnOk, Some};
ghost use Rattle.device_merge.specs.Merged.{IsMergeFault, IsNarrow};
ghost use Rattle.lvs_run.specs.Inputs.{stopped};
ghost use Rattle.lvs_run.specs.Merging.{NotNarrow};
ghost use Rattle.merge_laws.specs.Grouped.{merged_netlist};
ghost use Rattle.net_align.specs.Compared.{IsAlignable};
ghost use Rattle.net_model.specs.Rows.{plain_netlist};
ghost use Rattle.report_file.specs.Combined.{first_wide};

use crate::input::Stop;
use crate::status::Refusal;
use device_merge::{MergeFault, merge};
use net_model::Netlist;
use net_names::Name;
use report_file::circuit_name;
use std::alloc::{AllocError, Global};

/// The netlists of a layout and a schematic, each group of alike transistors of a circuit being
/// one.
#[derive(Drop)]
pub struct Merged {
    pub layout: Netlist,
    pub schematic: Netlist,
}

// The name of the circuit for which a netlist isn't merged.
fn wide_name(alloc: Global, netlist: &Netlist, fault: MergeFault) -> Result<Name, AllocError>
    requires { IsMergeFault (plain_netlist netlist.now) fault }
    ensures { IfOk result (λ name. first_wide (plain_netlist netlist.now) ≡ Some name) }
{
    match fault {
        MergeFault::TooWide(k) => circuit_name(netlist, k as usize).try_clone(alloc),
        MergeFault::NoMemory => Err(AllocError),
    }
}

/// What is compared of a layout and a schematic by rules that combine devices. The layout is
/// refused before the schematic. Linear in both.
pub fn merge_both(alloc: Global, layout: &Netlist, schematic: &Netlist) -> Result<Merged, Stop>
    requires layout { IsAlignable (plain_netlist layout.now) }
    requires schematic { IsAlignable (plain_netlist schematic.now) }
    ensures layout { IfOk result (λ m. plain_netlist m.layout
        ≡ merged_netlist (plain_netlist layout.now)) }
    ensures schematic { IfOk result (λ m. plain_netlist m.schematic
        ≡ merged_netlist (plain_netlist schematic.now)) }
    ensures layout_widths { IfOk result (λ m. IsNarrow (plain_netlist m.layout)) }
    ensures schematic_widths { IfOk result (λ m. IsNarrow (plain_netlist m.schematic)) }
    ensures layout_narrow { OnOk result (first_wide (plain_netlist layout.now) ≡ None) }
    ensures schematic_narrow { OnOk result (first_wide (plain_netlist schematic.now) ≡ None) }
    ensures refused { IfErr result (λ why. NotNarrow (plain_netlist layout.now)
        (plain_netlist schematic.now) (stopped why)) }
{
    let merged = match merge(alloc, layout) {
        Ok(merged) => merged,
        Err(fault) => {
            let name = wide_name(alloc, layout, fault)?;
            return Err(Stop::Refused(Refusal::MergedLayout(name)));
        }
    };
    match merge(alloc, schematic) {
        Ok(other) => Ok(Merged {
            layout: merged,
            schematic: other,
        }),
        Err(fault) => {
            let name = wide_name(alloc, schematic, fault)?;
            Err(Stop::Refused(Refusal::MergedSchematic(name)))
        }
    }
}
