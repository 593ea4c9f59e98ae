//! The names of devices.

ghost use Rattle.std.specs.Prelude.{◌≡◌, ◌++◌, ◌∷◌, IfOk, OnOk};
ghost use Rattle.net_model.specs.Rows.{plain_device};
ghost use Rattle.view_netlist.specs.Kinds.{class_seen};
ghost use Rattle.view_page.specs.Devices.{IsDeviceName, class_text, size_text, sized_name};

use crate::names::push_number;
use net_model::DeviceRow;
use std::alloc::{AllocError, Global};
use view_netlist::{DeviceClass, class_of, kind_word, size_letters, size_texts};
use view_words::push_word;

fn push_class(
    alloc: Global,
    out: &mut Vec<u8>,
    k: u32,
    class: DeviceClass<'_>,
) -> Result<(), AllocError>
    ensures { OnOk result (out.new.items
        ≡ out.old.items ++ class_text k (class_seen class.entry)) }
{
    out.extend_from_slice(kind_word(class.kind))?;
    out.extend_from_slice(b" $")?;
    push_number(alloc, out, k)?;
    out.push(b' ')?;
    push_word(out, class.name)
}

fn push_size(out: &mut Vec<u8>, key: u8, size: &[u8]) -> Result<(), AllocError>
    ensures { OnOk result (out.new.items ≡ out.old.items ++ size_text key size.now) }
{
    out.push(b' ')?;
    out.push(key)?;
    out.push(b'=')?;
    out.extend_from_slice(size)
}

fn sized_name(
    alloc: Global,
    k: u32,
    class: DeviceClass<'_>,
    first: &[u8],
    second: &[u8],
) -> Result<Vec<u8>, AllocError>
    ensures { IfOk result (λ text. text.items
        ≡ sized_name k (class_seen class.entry) first.now second.now) }
{
    let letters = size_letters(class.kind);
    let mut text = Vec::new(alloc);
    push_class(alloc, &mut text, k, class)?;
    push_size(&mut text, letters.0, first)?;
    push_size(&mut text, letters.1, second)?;
    Ok(text)
}

/// The name of a device: its kind, number, class and sizes.
pub fn device_name(alloc: Global, k: u32, d: &DeviceRow) -> Result<Vec<u8>, AllocError>
    ensures { IfOk result (λ text. IsDeviceName k (plain_device d.now) text.items) }
{
    let (first, second) = size_texts(alloc, d)?;
    sized_name(alloc, k, class_of(d), &first, &second)
}
