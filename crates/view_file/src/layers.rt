//! The layers of the database and what they join.

ghost use Rattle.std.specs.Prelude.{◌≡◌, ◌++◌, [], IfOk, OnOk, get_or};
ghost use Rattle.view_file.specs.Layers.{connect_rows, global_row, global_rows, join_row};
ghost use Rattle.view_file.specs.Layers.{key_text, layer_row, layer_rows, name_row, source_text};
ghost use Rattle.view_file.specs.Layers.{two_words};

use geo_base::LayerKey;
use net_names::Name;
use rule_text::{LayerForm, LayerRule};
use std::alloc::{AllocError, Global};
use view_netlist::name_at;
use view_words::push_word;

fn key_text(alloc: Global, key: LayerKey) -> Result<Vec<u8>, AllocError>
    ensures { IfOk result (λ v. v.items ≡ key_text key) }
{
    let mut out = key.layer.to_string(alloc)?.into_bytes();
    out.push(b'/')?;
    let datatype = key.datatype.to_string(alloc)?.into_bytes();
    out.extend_from_slice(&datatype)?;
    Ok(out)
}

fn push_source(alloc: Global, out: &mut Vec<u8>, form: &LayerForm) -> Result<(), AllocError>
    ensures { OnOk result (out.new.items ≡ out.old.items ++ source_text form.now) }
{
    match form {
        LayerForm::Input(key) => {
            if key.layer >= 65_536 {
                return Ok(());
            }
            let text = key_text(alloc, *key)?;
            out.push(b' ')?;
            push_word(out, &text)
        }
        LayerForm::Labels(_) => Ok(()),
        LayerForm::Empty => Ok(()),
        LayerForm::Binary(_, _, _) => Ok(()),
        LayerForm::Sized(_, _) => Ok(()),
    }
}

fn push_layer(alloc: Global, out: &mut Vec<u8>, rule: &LayerRule) -> Result<(), AllocError>
    ensures { OnOk result (out.new.items ≡ out.old.items ++ layer_row rule.now) }
{
    out.extend_from_slice(b"\n L(")?;
    push_word(out, rule.name.bytes())?;
    push_source(alloc, out, &rule.form)?;
    out.extend_from_slice(b")")
}

/// Appends a row for each name of the rules.
pub fn push_layers(alloc: Global, out: &mut Vec<u8>, rules: &[LayerRule]) -> Result<(), AllocError>
    ensures { OnOk result (out.new.items ≡ out.old.items ++ layer_rows rules.now) }
{
    let mut rest = rules;
    'layers: while let [rule, more @ ..] = rest {
        push_layer(alloc, out, rule)?;
        rest = more;
    }
    Ok(())
}

/// Appends the row of a layer of its own.
pub fn push_name_row(out: &mut Vec<u8>, name: &[u8]) -> Result<(), AllocError>
    ensures { OnOk result (out.new.items ≡ out.old.items ++ name_row name.now) }
{
    out.extend_from_slice(b"\n L(")?;
    push_word(out, name)?;
    out.extend_from_slice(b")")
}

fn push_two(out: &mut Vec<u8>, a: &[u8], b: &[u8]) -> Result<(), AllocError>
    ensures { OnOk result (out.new.items ≡ out.old.items ++ two_words a.now b.now) }
{
    push_word(out, a)?;
    out.push(b' ')?;
    push_word(out, b)?;
    out.extend_from_slice(b")")
}

fn push_join(out: &mut Vec<u8>, a: &[u8], b: &[u8]) -> Result<(), AllocError>
    ensures { OnOk result (out.new.items ≡ out.old.items ++ join_row a.now b.now) }
{
    out.extend_from_slice(b"\n C(")?;
    push_word(out, a)?;
    out.push(b' ')?;
    push_two(out, a, b)
}

/// Appends the rows of the layers that the rules connect.
pub fn push_connects(
    out: &mut Vec<u8>,
    names: &[Name],
    connects: &[(u32, u32)],
) -> Result<(), AllocError>
    ensures { OnOk result (out.new.items ≡ out.old.items ++ connect_rows names.now connects.now) }
{
    let mut rest = connects;
    'connects: while let [c, more @ ..] = rest {
        push_join(out, name_at(names, c.0), name_at(names, c.1))?;
        push_join(out, name_at(names, c.1), name_at(names, c.0))?;
        rest = more;
    }
    Ok(())
}

fn push_global(out: &mut Vec<u8>, layer: &[u8], global: &[u8]) -> Result<(), AllocError>
    ensures { OnOk result (out.new.items ≡ out.old.items ++ global_row layer.now global.now) }
{
    out.extend_from_slice(b"\n G(")?;
    push_two(out, layer, global)
}

/// Appends the rows of the layers that are joined to globals.
pub fn push_globals(
    out: &mut Vec<u8>,
    names: &[Name],
    globals: &[(u32, Name)],
) -> Result<(), AllocError>
    ensures { OnOk result (out.new.items ≡ out.old.items ++ global_rows names.now globals.now) }
{
    let mut rest = globals;
    'globals: while let [g, more @ ..] = rest {
        push_join(out, name_at(names, g.0), name_at(names, g.0))?;
        push_global(out, name_at(names, g.0), g.1.bytes())?;
        rest = more;
    }
    Ok(())
}
