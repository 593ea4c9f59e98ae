//! The section of the layout.

ghost use Rattle.std.specs.Prelude.{◌≡◌, ◌++◌, IfOk, OnOk, length, map};
ghost use Rattle.std.specs.List.{range_with_len};
ghost use Rattle.net_model.specs.Rows.{plain_circuit};
ghost use Rattle.rule_text.specs.Seen.{rules_seen};
ghost use Rattle.spice_text.specs.Written.{Adds};
ghost use Rattle.view_file.specs.Layout.{AreAllTexts, IsLayoutText, IsSmallPicture, device_text};
ghost use Rattle.view_file.specs.Layout.{front_text, layer_text, top_text, unit_row};

use crate::layers::{push_connects, push_globals, push_layers, push_name_row};
use crate::regions::{Region, push_regions};
use fixed_num::{Femto, micron_text};
use list_base::number;
use net_model::Circuit;
use net_names::Name;
use rule_text::RuleSet;
use std::alloc::{AllocError, Global};
use view_netlist::{Drawing, Names, push_circuits, push_classes, used_classes};
use view_words::push_word;

/// What is drawn of a layout: the names of its layers and circuits, what is drawn of each circuit,
/// and the regions that its devices have.
#[derive(Drop)]
pub struct Picture {
    pub names: Names,
    pub drawings: Vec<Drawing>,
    pub regions: Vec<Region>,
}

fn push_top(out: &mut Vec<u8>, top: &[u8]) -> Result<(), AllocError>
    ensures { OnOk result (out.new.items ≡ out.old.items ++ top_text top.now) }
{
    out.extend_from_slice(b"#%lvsdb-klayout\nJ(\n W(")?;
    push_word(out, top)?;
    out.extend_from_slice(b")")
}

fn push_unit(out: &mut Vec<u8>, unit: &[u8]) -> Result<(), AllocError>
    ensures { OnOk result (out.new.items ≡ out.old.items ++ unit_row unit.now) }
{
    out.extend_from_slice(b"\n U(")?;
    out.extend_from_slice(unit)?;
    out.extend_from_slice(b")")
}

fn push_all_layers(
    alloc: Global,
    out: &mut Vec<u8>,
    names: &[Name],
    rules: &RuleSet,
) -> Result<(), AllocError>
    ensures { OnOk result (out.new.items
        ≡ out.old.items ++ layer_text names.now (rules_seen rules.now)) }
{
    push_layers(alloc, out, &rules.names)?;
    push_name_row(out, b"device regions")?;
    push_connects(out, names, &rules.connects)?;
    push_globals(out, names, &rules.globals)?;
    Ok(())
}

fn push_devices(
    alloc: Global,
    out: &mut Vec<u8>,
    picture: &Picture,
    circuits: &[Circuit],
) -> Result<(), AllocError>
    requires { IsSmallPicture picture.now }
    ensures { OnOk result (out.new.items
        ≡ out.old.items ++ device_text picture.now (map plain_circuit circuits.now)) }
{
    let classes = used_classes(alloc, circuits)?;
    push_classes(alloc, out, &classes)?;
    push_regions(alloc, out, &picture.regions)
}

// The numbers below a count.
fn numbers(alloc: Global, count: u32) -> Result<Vec<u32>, AllocError>
    ensures { IfOk result (λ v. v.items ≡ range_with_len 0 count) }
{
    let mut out = Vec::new(alloc);
    'numbers: for k in 0..count {
        out.push(k)?;
    }
    Ok(out)
}

fn push_front(
    alloc: Global,
    out: &mut Vec<u8>,
    top: &[u8],
    unit: &[u8],
    rules: &RuleSet,
    picture: &Picture,
    circuits: &[Circuit],
) -> Result<(), AllocError>
    requires { IsSmallPicture picture.now }
    ensures { OnOk result (out.new.items ≡ out.old.items ++ front_text top.now unit.now
        (rules_seen rules.now) picture.now (map plain_circuit circuits.now)) }
{
    push_top(out, top)?;
    push_unit(out, unit)?;
    push_all_layers(alloc, out, &picture.names.layers, rules)?;
    push_devices(alloc, out, picture, circuits)?;
    Ok(())
}

fn push_all_circuits(
    alloc: Global,
    out: &mut Vec<u8>,
    picture: &Picture,
    circuits: &[Circuit],
) -> Result<(), AllocError>
    requires { IsSmallPicture picture.now }
    ensures { OnOk result (Adds (AreAllTexts picture.now (map plain_circuit circuits.now))
        out.old.items out.new.items) }
{
    let count = number(circuits.len())?;
    let order = numbers(alloc, count)?;
    let drawings = picture.drawings.as_slice();
    push_circuits(alloc, out, &picture.names, drawings, circuits, &order)?;
    Ok(())
}

/// Appends the section of a layout, whose unit is so many femtometres: the layers and what they
/// join, the classes and regions of devices, the circuits with what is drawn of them. Linear in the
/// text. An `Err` is want of memory, or 2^32 of a kind.
pub fn push_layout(
    alloc: Global,
    out: &mut Vec<u8>,
    top: &[u8],
    unit: Femto,
    rules: &RuleSet,
    picture: &Picture,
    circuits: &[Circuit],
) -> Result<(), AllocError>
    requires { IsSmallPicture picture.now }
    ensures { OnOk result (Adds (IsLayoutText top.now unit.0 (rules_seen rules.now) picture.now
        (map plain_circuit circuits.now)) out.old.items out.new.items) }
{
    let unit_text = micron_text(alloc, unit)?;
    push_front(alloc, out, top, &unit_text, rules, picture, circuits)?;
    push_all_circuits(alloc, out, picture, circuits)?;
    out.extend_from_slice(b"\n)")?;
    Ok(())
}
