//! Cells of a layout's stream, by place and by name.

use crate::near::is_near;

// The kind of the record that names a cell.
const CELL_NAME: u8 = 0x06;

// The first record of these bytes, its kind with its data, and the bytes behind it.
fn next_record(bytes: &[u8]) -> Option<(u8, &[u8], &[u8])> {
    let [high, low, kind, _, more @ ..] = bytes else {
        return None;
    };
    let length = usize::from(u16::from_be_bytes([*high, *low]));
    let size = length.checked_sub(4)?;
    let body = more.get(..size)?;
    let behind = more.get(size..)?;
    Some((*kind, body, behind))
}

// A name without the zero that fills it up.
fn name_of(body: &[u8]) -> &str {
    let name = body.strip_suffix(b"\0").unwrap_or(body);
    str::from_utf8(name).unwrap_or("")
}

/// The cell in which the record stands that begins at this byte. One pass up to it.
pub fn cell_at(bytes: &[u8], offset: usize) -> &str {
    let mut cell = "";
    let mut rest = bytes;
    for _ in 0..bytes.len() {
        let is_behind = bytes.len().saturating_sub(rest.len()) >= offset;
        let Some((kind, body, behind)) = next_record(rest) else {
            return cell;
        };
        if is_behind {
            return cell;
        }
        if kind == CELL_NAME {
            cell = name_of(body);
        }
        rest = behind;
    }
    cell
}

/// The first cell whose name is near to one; nothing where there is none. One pass.
pub fn near_cell<'a>(bytes: &'a [u8], name: &str) -> &'a str {
    let mut rest = bytes;
    for _ in 0..bytes.len() {
        let Some((kind, body, behind)) = next_record(rest) else {
            return "";
        };
        if kind == CELL_NAME && is_near(name, name_of(body)) {
            return name_of(body);
        }
        rest = behind;
    }
    ""
}
