//! The classes of devices.

ghost use Rattle.std.specs.Prelude.{◌≡◌, ◌++◌, ◌∷◌, IfOk, OnOk, [], map};
ghost use Rattle.net_model.specs.Rows.{plain_circuit};
ghost use Rattle.view_netlist.specs.Classes.{class_text, class_texts, classes_of, first_classes};
ghost use Rattle.view_netlist.specs.Classes.{used_classes, with_class};
ghost use Rattle.view_netlist.specs.Kinds.{class_seen};

use crate::kinds::{DeviceClass, class_name, class_of, template};
use indexmap::IndexSet;
use net_model::Circuit;
use std::alloc::{AllocError, Global};
use view_words::push_word;

fn add_class<'a>(
    seen: &mut IndexSet<DeviceClass<'a>>,
    class: DeviceClass<'a>,
) -> Result<(), AllocError>
    ensures { OnOk result (map class_seen seen.new.keys
        ≡ with_class (map class_seen seen.old.keys) (class_seen class.entry)) }
{
    seen.insert(class)?;
    Ok(())
}

fn add_classes<'a>(seen: &mut IndexSet<DeviceClass<'a>>, c: &'a Circuit) -> Result<(), AllocError>
    ensures { OnOk result (map class_seen seen.new.keys
        ≡ first_classes (map class_seen seen.old.keys) (classes_of (plain_circuit c.now))) }
{
    let mut rest = c.devices.as_slice();
    'devices: while let [d, more @ ..] = rest {
        add_class(seen, class_of(d))?;
        rest = more;
    }
    Ok(())
}

fn into_list<'a>(
    alloc: Global,
    seen: IndexSet<DeviceClass<'a>>,
) -> Result<Vec<DeviceClass<'a>>, AllocError>
    ensures { IfOk result (λ v. v.items ≡ seen.entry.keys) }
{
    seen.into_iter().collect(alloc)
}

/// The classes of the devices of these circuits, each once. Linear in the devices.
pub fn used_classes<'a>(
    alloc: Global,
    circuits: &'a [Circuit],
) -> Result<Vec<DeviceClass<'a>>, AllocError>
    ensures { IfOk result (λ v. map class_seen v.items
        ≡ used_classes (map plain_circuit circuits.now)) }
{
    let mut seen = IndexSet::new(alloc);
    'circuits: for i in 0..circuits.len() {
        add_classes(&mut seen, &circuits[i])?;
    }
    let classes = into_list(alloc, seen)?;
    Ok(classes)
}

fn push_class(alloc: Global, out: &mut Vec<u8>, class: DeviceClass<'_>) -> Result<(), AllocError>
    ensures { OnOk result (out.new.items ≡ out.old.items ++ class_text (class_seen class.entry)) }
{
    let name = class_name(alloc, class)?;
    out.extend_from_slice(b"\n K(")?;
    push_word(out, &name)?;
    out.push(b' ')?;
    out.extend_from_slice(template(class.kind))?;
    out.extend_from_slice(b")")
}

/// Appends a row for each class.
pub fn push_classes(
    alloc: Global,
    out: &mut Vec<u8>,
    classes: &[DeviceClass<'_>],
) -> Result<(), AllocError>
    ensures { OnOk result (out.new.items ≡ out.old.items
        ++ class_texts (map class_seen classes.now)) }
{
    let mut rest = classes;
    'classes: while let [class, more @ ..] = rest {
        push_class(alloc, out, *class)?;
        rest = more;
    }
    Ok(())
}
