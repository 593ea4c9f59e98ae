//! A device as its card names it, its names in one block of memory.

ghost use Rattle.std.specs.Prelude.{◌≡◌, ◌++◌, map, length, IfOk, OnOk};
ghost use Rattle.fixed_num.specs.declared.femto.Femto.{Femto};
ghost use Rattle.plain_netlist.specs.declared.kinds.DeviceKind.TheVariants.{Mos4, ResistorWithBulk};
ghost use Rattle.plain_netlist.specs.declared.kinds.DeviceKind.TheVariants.{Diode};
ghost use Rattle.spice_rows.specs.Kept.{AreBehind};
ghost use Rattle.spice_rows.specs.Rows.{card_of};

use fixed_num::Femto;
use list_base::number;
use net_names::Name;
use plain_netlist::DeviceKind;
use std::alloc::{AllocError, Global};
use std::marker::Model;

/// Up to four names and a class, one behind another, with the places where all but the first begin.
#[derive(Debug, Drop)]
struct Names {
    bytes: Vec<u8>,
    second: u32,
    third: u32,
    fourth: u32,
    class: u32,
}

/// A device as its card names it, in one block of memory. Contracts see a device over the names of
/// nets; those of its terminals and of the class have one byte or more.
#[derive(Debug, Drop)]
pub struct DeviceCard {
    kind: DeviceKind,
    sizes: [Femto; 2],
    names: Names,
}

impl Model for DeviceCard {
    ghost use Rattle.spice_rows.specs.Rows.{DeviceCard};
    ghost use Rattle.spice_rows.specs.Kept.{IsKept, device_in};

    ghost Value = { DeviceCard };

    ghost view = { device_in };

    ghost invariant = { IsKept };
}

// Adds a name behind others, and says where the next one begins.
fn add(names: &mut Vec<u8>, name: &[u8]) -> Result<u32, AllocError>
    ensures next { IfOk result (λ at. at ≡ length names.new.items) }
    ensures names { OnOk result (names.new.items ≡ names.old.items ++ name.now) }
{
    names.extend_from_slice(name)?;
    number(names.len())
}

// The names one behind another; those behind a device's last terminal are empty.
fn names_of(
    alloc: Global,
    first: &[u8],
    second: &[u8],
    third: &[u8],
    fourth: &[u8],
    class: &[u8],
) -> Result<Names, AllocError>
    ensures { IfOk result (λ names.
        AreBehind names first.now second.now third.now fourth.now class.now) }
{
    let nets = first.len().saturating_add(second.len());
    let more = third.len().saturating_add(fourth.len());
    let room = nets.saturating_add(more).saturating_add(class.len());
    let mut bytes = Vec::with_capacity(alloc, room)?;
    let second_at = add(&mut bytes, first)?;
    let third_at = add(&mut bytes, second)?;
    let fourth_at = add(&mut bytes, third)?;
    let class_at = add(&mut bytes, fourth)?;
    bytes.extend_from_slice(class)?;
    Ok(Names {
        bytes,
        second: second_at,
        third: third_at,
        fourth: fourth_at,
        class: class_at,
    })
}

// A transistor of these names: drain, gate, source, bulk and class.
fn transistor(
    alloc: Global,
    names: &[Name],
    sizes: [Femto; 2],
) -> Result<Option<DeviceCard>, AllocError>
    ensures { IfOk result (λ found.
        found ≡ card_of Mos4 names.now (map (λ (f : Femto). f.0) sizes)) }
{
    let [drain, gate, source, bulk, class] = names else {
        return Ok(None);
    };
    let names = names_of(
        alloc,
        drain.bytes(),
        gate.bytes(),
        source.bytes(),
        bulk.bytes(),
        class.bytes(),
    )?;
    Ok(Some(DeviceCard {
        kind: DeviceKind::Mos4,
        sizes,
        names,
    }))
}

// A resistor of these names: its two ends, bulk and class.
fn resistor(
    alloc: Global,
    names: &[Name],
    sizes: [Femto; 2],
) -> Result<Option<DeviceCard>, AllocError>
    ensures { IfOk result (λ found.
        found ≡ card_of ResistorWithBulk names.now (map (λ (f : Femto). f.0) sizes)) }
{
    let [a, b, bulk, class] = names else {
        return Ok(None);
    };
    let names = names_of(
        alloc,
        b.bytes(),
        bulk.bytes(),
        a.bytes(),
        &[],
        class.bytes(),
    )?;
    Ok(Some(DeviceCard {
        kind: DeviceKind::ResistorWithBulk,
        sizes,
        names,
    }))
}

// A diode of these names: anode, cathode and class.
fn diode(alloc: Global, names: &[Name], sizes: [Femto; 2]) -> Result<Option<DeviceCard>, AllocError>
    ensures { IfOk result (λ found.
        found ≡ card_of Diode names.now (map (λ (f : Femto). f.0) sizes)) }
{
    let [anode, cathode, class] = names else {
        return Ok(None);
    };
    let names = names_of(
        alloc,
        anode.bytes(),
        cathode.bytes(),
        &[],
        &[],
        class.bytes(),
    )?;
    Ok(Some(DeviceCard {
        kind: DeviceKind::Diode,
        sizes,
        names,
    }))
}

impl DeviceCard {
    ghost use Rattle.std.specs.Prelude.{◌≡◌, ◌<◌, length, map, slice_get, Some, IfOk};
    ghost use Rattle.fixed_num.specs.declared.femto.Femto.{Femto};
    ghost use Rattle.plain_netlist.specs.Devices.{IsFormed, terminal_nets};
    ghost use Rattle.plain_netlist.specs.Kinds.{terminal_count};
    ghost use Rattle.spice_rows.specs.Rows.{card_of};

    /// The device that a card of these names says, in the order of the card, the class last; none
    /// where a card of the kind has other names. Linear in the names.
    pub fn of(
        alloc: Global,
        kind: DeviceKind,
        names: &[Name],
        sizes: [Femto; 2],
    ) -> Result<Option<DeviceCard>, AllocError>
        ensures { IfOk result (λ found.
            found ≡ card_of kind names.now (map (λ (f : Femto). f.0) sizes)) }
    {
        match kind {
            DeviceKind::Mos4 => transistor(alloc, names, sizes),
            DeviceKind::ResistorWithBulk => resistor(alloc, names, sizes),
            DeviceKind::Diode => diode(alloc, names, sizes),
        }
    }

    /// What it is: it has the terminals of that.
    pub fn kind(&self) -> DeviceKind
        ensures kind { result ≡ self.now.kind }
        ensures formed { IsFormed self.now }
    {
        self.kind
    }

    /// The name of its class.
    pub fn class(&self) -> &[u8]
        ensures same { result.now ≡ self.now.class }
        ensures some { 0 < length result.now }
    {
        &self.names.bytes[self.names.class as usize..]
    }

    /// Its sizes, in the kind's order.
    pub fn sizes(&self) -> [Femto; 2]
        ensures { map (λ (f : Femto). f.0) result ≡ self.now.sizes }
    {
        self.sizes
    }

    /// The name of the net at a terminal, in the order of a device's nets.
    pub fn net(&self, place: usize) -> &[u8]
        requires { place < terminal_count self.now.kind }
        ensures same { slice_get (terminal_nets self.now) place ≡ Some result.now }
        ensures some { 0 < length result.now }
    {
        let names = &self.names;
        match place {
            0 => &names.bytes[0..names.second as usize],
            1 => &names.bytes[names.second as usize..names.third as usize],
            2 => &names.bytes[names.third as usize..names.fourth as usize],
            _ => &names.bytes[names.fourth as usize..names.class as usize],
        }
    }

    /// The same device.
    pub fn try_clone(&self, alloc: Global) -> Result<DeviceCard, AllocError>
        ensures { IfOk result (λ d. d ≡ self.now) }
    {
        Ok(DeviceCard {
            kind: self.kind,
            sizes: self.sizes,
            names: Names {
                bytes: self.names.bytes.as_slice().to_vec(alloc)?,
                second: self.names.second,
                third: self.names.third,
                fourth: self.names.fourth,
                class: self.names.class,
            },
        })
    }
}
