//! The sizes of a device, or the first fault of a value.

ghost use Rattle.std.specs.Prelude.{◌≡◌};
ghost use Rattle.spice_cards.specs.Seen.{params_seen};
ghost use Rattle.spice_rows.specs.Sizes.{area_limit, area_of, length_limit, read_limit, second_of};
ghost use Rattle.spice_rows.specs.Sizes.{sizes_of, value_of};
ghost use Rattle.spice_rows.specs.Seen.{value_seen, sizes_seen};

use crate::kinds::{first_key, has_area, second_key};
use crate::names::is_text;
use fixed_num::{Femto, ValueFault, parse_area, parse_value};
use plain_netlist::DeviceKind;
use spice_cards::Param;

fn value(text: &[u8]) -> Result<Femto, ValueFault>
    ensures { value_seen result ≡ value_of (length_limit read_limit) text.now }
{
    parse_value(text)
}

fn area(text: &[u8]) -> Result<u128, ValueFault>
    ensures { result ≡ area_of (area_limit read_limit) text.now }
{
    parse_area(text)
}

// The second size: a length, or an area in square picometres.
fn second(kind: DeviceKind, text: &[u8]) -> Result<Femto, ValueFault>
    ensures { value_seen result ≡ second_of read_limit kind text.now }
{
    if !has_area(kind) {
        return value(text);
    }
    match area(text) {
        Ok(area) => Ok(Femto(area)),
        Err(fault) => Err(fault),
    }
}

/// The two sizes in the kind's order, zero where there is none, or the first fault of one, from the
/// left.
pub fn sizes_of(kind: DeviceKind, params: &[Param]) -> Result<[Femto; 2], ValueFault>
    ensures { sizes_seen result ≡ sizes_of read_limit kind (params_seen params.now) }
{
    let mut a = Femto(0);
    let mut b = Femto(0);
    let mut rest = params;
    'params: while let [p, more @ ..] = rest {
        if is_text(p.key, &[first_key(kind)]) {
            a = value(p.value)?;
        } else if is_text(p.key, &[second_key(kind)]) {
            b = second(kind, p.value)?;
        }
        rest = more;
    }
    Ok([a, b])
}
