//! Records as bytes.

ghost use Rattle.std.specs.Prelude.{◌≡◌, ◌≤◌, ◌%◌, ◌++◌, length, OnOk, OnErr};
ghost use Rattle.gds_records.specs.Records.{record_bytes};

use byteorder::{BigEndian, ByteOrder};
use std::alloc::AllocError;

/// Appends a record with the data `body`, or leaves `out` as it was where there is no memory. Cost:
/// the data's length.
pub fn write_record(out: &mut Vec<u8>, kind: u8, form: u8, body: &[u8]) -> Result<(), AllocError>
    requires even { length body.now % 2 ≡ 0 }
    requires short { length body.now ≤ 65530 }
    ensures written { OnOk result (out.new.items ≡ out.old.items
        ++ record_bytes record { kind = kind; form = form; body = body.now }) }
    ensures unwritten { OnErr result (out.new.items ≡ out.old.items) }
{
    let before = out.len();
    let mut head = [0, 0, kind, form];
    BigEndian::write_u16(&mut head, body.len() as u16 + 4);
    out.extend_from_slice(&head)?;
    let added = out.extend_from_slice(body);
    if added.is_err() {
        out.truncate(before);
    }
    added
}
