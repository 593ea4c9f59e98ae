//! What records of several kinds share: the forms of their data, strings and coordinates.

ghost use Rattle.std.specs.Prelude.{◌≡◌, ◌++◌, OnOk};
ghost use Rattle.gds_records.specs.Records.{record_bytes};
ghost use Rattle.geo_base.specs.Near.{IsLong};
ghost use Rattle.gds_shapes.specs.Data.{IsShort, string};

use gds_records::write_record;
use std::alloc::{AllocError, Global};

// The forms of data.
pub const NONE: u8 = 0;

pub const BITS: u8 = 1;

pub const NUMBERS: u8 = 2;

pub const LONGS: u8 = 3;

pub const REALS: u8 = 5;

pub const STRING: u8 = 6;

/// A string, with one NUL at its end where its length is odd.
pub fn write_string(
    alloc: Global,
    out: &mut Vec<u8>,
    kind: u8,
    text: &[u8],
) -> Result<(), AllocError>
    requires { IsShort text.now }
    ensures { OnOk result (out.new.items ≡ out.old.items ++ record_bytes (string kind text.now)) }
{
    let mut body = text.to_vec(alloc)?;
    if text.len() % 2 != 0 {
        body.push(0)?;
    }
    write_record(out, kind, STRING, &body)
}

/// A coordinate of a record.
pub fn long(number: i64) -> i32
    requires { IsLong number }
    ensures { result ≡ number }
{
    number as i32
}
