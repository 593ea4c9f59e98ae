//! The rules of a chip.

ghost use Rattle.std.specs.Prelude.{◌≡◌, IfOk};
ghost use Rattle.chip_maker.specs.Rules.{chip_rules};

use std::alloc::{AllocError, Global};

const INPUTS: &[u8] = b"nwell = input(1, 0)
active = input(2, 0)
poly = input(3, 0)
contact = input(4, 0)
metal = input(5, 0)
tie = input(6, 0)
txt = labels(5, 1)
bulk = polygon_layer
";

const DERIVED: &[u8] = b"pactive = active & nwell
nactive = active - nwell
pgate = pactive & poly
ngate = nactive & poly
psd = pactive - poly
nsd = nactive - poly
ptie = tie - nwell
ntie = tie & nwell
";

const DEVICES: &[u8] = b"extract_devices(mos4(\"PMOS\"), { \"SD\" => psd, \"G\" => pgate, \
    \"W\" => nwell, \"tG\" => poly })
extract_devices(mos4(\"NMOS\"), { \"SD\" => nsd, \"G\" => ngate, \
    \"W\" => bulk, \"tG\" => poly })
";

const CONNECTIONS: &[u8] = b"connect(psd, contact)
connect(nsd, contact)
connect(poly, contact)
connect(ptie, contact)
connect(ntie, contact)
connect(ntie, nwell)
connect(contact, metal)
connect(metal, txt)
connect_global(bulk, \"VSS\")
connect_global(ptie, \"VSS\")
";

const OUTPUTS: &[u8] = b"psd.output(10, 0)
nsd.output(11, 0)
";

const WAYS: &[u8] = b"keep_covered
flatten_unmatched
";

/// The rules that extract a chip's transistors and nets, and how cells keep squares and pairs are
/// compared.
pub fn rules_text(alloc: Global) -> Result<Vec<u8>, AllocError>
    ensures { IfOk result (λ text. text.items ≡ chip_rules) }
{
    let mut out = Vec::new(alloc);
    out.extend_from_slice(INPUTS)?;
    out.extend_from_slice(DERIVED)?;
    out.extend_from_slice(DEVICES)?;
    out.extend_from_slice(CONNECTIONS)?;
    out.extend_from_slice(OUTPUTS)?;
    out.extend_from_slice(WAYS)?;
    Ok(out)
}
