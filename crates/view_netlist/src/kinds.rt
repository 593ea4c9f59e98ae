//! The kinds of devices as KLayout has them: classes, terminals and sizes.

ghost use Rattle.std.specs.Prelude.{◌≡◌, ◌++◌, IfOk, OnOk};
ghost use Rattle.net_model.specs.Rows.{plain_device};
ghost use Rattle.view_netlist.specs.Kinds.{AreSizes, class_name, class_of, class_seen, kind_mark};
ghost use Rattle.view_netlist.specs.Kinds.{kind_word, size_letters, template};

use fixed_num::{area_text, micron_text};
use net_model::DeviceRow;
use plain_netlist::DeviceKind;
use std::alloc::{AllocError, Global};

/// A class of devices of a kind.
#[derive(Clone, Copy, PartialEq, Eq, Hash, Debug)]
pub struct DeviceClass<'a> {
    pub kind: DeviceKind,
    pub name: &'a [u8],
}

/// The class of a device.
pub fn class_of<'a>(d: &'a DeviceRow) -> DeviceClass<'a>
    ensures { class_seen result ≡ class_of (plain_device d.now) }
{
    DeviceClass {
        kind: d.kind,
        name: d.class.bytes(),
    }
}

/// The word for a kind.
pub fn kind_word(kind: DeviceKind) -> &'static [u8]
    ensures { result.now ≡ kind_word kind }
{
    match kind {
        DeviceKind::Mos4 => b"transistor",
        DeviceKind::ResistorWithBulk => b"resistor",
        DeviceKind::Diode => b"diode",
    }
}

/// KLayout's class of a kind.
pub fn template(kind: DeviceKind) -> &'static [u8]
    ensures { result.now ≡ template kind }
{
    match kind {
        DeviceKind::Mos4 => b"MOS4",
        DeviceKind::ResistorWithBulk => b"RES3",
        DeviceKind::Diode => b"DIODE",
    }
}

fn push_mark(out: &mut Vec<u8>, kind: DeviceKind) -> Result<(), AllocError>
    ensures { OnOk result (out.new.items ≡ out.old.items ++ kind_mark kind) }
{
    match kind {
        DeviceKind::Mos4 => Ok(()),
        DeviceKind::ResistorWithBulk => out.extend_from_slice(b"resistor."),
        DeviceKind::Diode => out.extend_from_slice(b"diode."),
    }
}

/// The name that a class has in the database.
pub fn class_name(alloc: Global, class: DeviceClass<'_>) -> Result<Vec<u8>, AllocError>
    ensures { IfOk result (λ name. name.items ≡ class_name (class_seen class.entry)) }
{
    let mut name = Vec::new(alloc);
    push_mark(&mut name, class.kind)?;
    name.extend_from_slice(class.name)?;
    Ok(name)
}

/// The letters of the two sizes: L and W, of a diode A and P.
pub fn size_letters(kind: DeviceKind) -> (u8, u8)
    ensures { result ≡ size_letters kind }
{
    match kind {
        DeviceKind::Mos4 => (b'L', b'W'),
        DeviceKind::ResistorWithBulk => (b'L', b'W'),
        DeviceKind::Diode => (b'A', b'P'),
    }
}

/// The two sizes by these letters: length and width in micrometres, of a diode its area in square
/// micrometres and its perimeter.
pub fn size_texts(alloc: Global, d: &DeviceRow) -> Result<(Vec<u8>, Vec<u8>), AllocError>
    ensures { IfOk result (λ texts. AreSizes d.now.kind (plain_device d.now).sizes texts.0.items
        texts.1.items) }
{
    let [first, second] = d.sizes;
    let length = micron_text(alloc, first)?;
    match d.kind {
        DeviceKind::Mos4 => Ok((length, micron_text(alloc, second)?)),
        DeviceKind::ResistorWithBulk => Ok((length, micron_text(alloc, second)?)),
        DeviceKind::Diode => Ok((area_text(alloc, second.0)?, length)),
    }
}
