//! A circuit's devices, each group of alike ones as one.

ghost use Rattle.std.specs.Prelude.{◌≡◌, ◌<◌, ◌≤◌, ◌+◌, ℕ, true, false, IfOk, IfSome, List};
ghost use Rattle.std.specs.Prelude.{MatchOption, OnOk, length, map};
ghost use Rattle.merge_laws.specs.Grouped.{Group, with_device};
ghost use Rattle.merge_laws.specs.Merge.{width_of};
ghost use Rattle.net_model.specs.Rows.{plain_device};
ghost use Rattle.device_merge.specs.Merging.{IsMerged, IsMergedBy, IsMerging, are_wider, placed};
ghost use Rattle.device_merge.specs.Merging.{width_at, widened};

use crate::keys::{Keys, kept_and_added, may_merge};
use fixed_num::Femto;
use net_model::DeviceRow;
use std::alloc::{AllocError, Global};

/// The widest that alike devices of a netlist may be in all, in femtometres.
pub const WIDEST: u128 = 1_000_000_000_000_000_000_000_000_000;

// The devices so far, and the widest that alike ones may be in all, in femtometres.
#[derive(Drop)]
struct Merging<'a> {
    most: u128,
    rows: Vec<DeviceRow>,
    keys: Keys<'a>,
}

// The width of two devices, if it is at most the widest.
fn both(one: Femto, other: Femto, most: u128) -> Option<Femto>
    ensures sum { MatchOption result (most < one.0 + other.0) (λ w. w.0 ≡ one.0 + other.0) }
    ensures narrow { IfSome result (λ w. w.0 ≤ most) }
{
    match one.0.checked_add(other.0) {
        Some(width) if width <= most => Some(Femto(width)),
        _ => None,
    }
}

// The size that adds when alike devices become one: of a transistor the width.
fn width_of(row: &DeviceRow) -> Femto
    ensures width { result.0 ≡ width_of (plain_device row.now) }
    ensures sizes { length (plain_device row.now).sizes ≡ 2 }
{
    let (_, width) = kept_and_added(row.sizes);
    width
}

// The device at the place with another's width beside its own; false where that is too wide.
fn widen(rows: &mut [DeviceRow], place: usize, width: Femto, most: u128) -> bool
    requires { place < length rows.old }
    ensures done { result ≡ true
        → map plain_device rows.new ≡ widened place width.0 (map plain_device rows.old) }
    ensures long { length rows.new ≡ length rows.old }
    ensures narrow { result ≡ true
        → width_at place (map plain_device rows.old) + width.0 ≤ most }
    ensures wide { result ≡ false
        → most < width_at place (map plain_device rows.old) + width.0 }
{
    match both(width_of(&rows[place]), width, most) {
        Some(width) => {
            rows[place].sizes[1] = width;
            true
        }
        None => false,
    }
}

impl<'a> Merging<'a> {
    // Adds a device to the group of those alike to it, or as a group of its own; false where
    // that is too wide.
    fn add(&mut self, alloc: Global, row: &'a DeviceRow) -> Result<bool, AllocError>
        ensures added { IfOk result (λ fits. fits ≡ true → (gs : List Group) (place : ℕ)
            → IsMerging self.old gs
            → IsMerging self.new (with_device gs (placed place (plain_device row.now)))) }
        ensures wide { IfOk result (λ fits. fits ≡ false → (gs : List Group) (place : ℕ)
            → IsMerging self.old gs
            → are_wider self.old.most (with_device gs (placed place (plain_device row.now)))
            ≡ true) }
        ensures most { OnOk result (self.new.most ≡ self.old.most) }
    {
        let width = width_of(row);
        let place = self.keys.place(row);
        if place < self.rows.len() {
            return Ok(widen(&mut self.rows, place, width, self.most));
        }
        if may_merge(row.kind, row.class.bytes()) && width.0 > self.most {
            return Ok(false);
        }
        self.keys.add(row)?;
        self.rows.push(row.try_clone(alloc)?)?;
        Ok(true)
    }
}

/// The devices, each group of alike ones as one; none where one is wider than this, in
/// femtometres. Linear.
pub fn merge_up_to(
    alloc: Global,
    devices: &[DeviceRow],
    most: u128,
) -> Result<Option<Vec<DeviceRow>>, AllocError>
    ensures { IfOk result (IsMergedBy most (map plain_device devices.now)) }
{
    let mut merging = Merging {
        most,
        rows: Vec::new(alloc),
        keys: Keys::new(alloc),
    };
    let mut rest = devices;
    'devices: while let [row, more @ ..] = rest {
        if !merging.add(alloc, row)? {
            return Ok(None);
        }
        rest = more;
    }
    Ok(Some(merging.rows))
}

/// The devices, each group of alike ones as one; none where one is too wide. Linear.
pub fn merge_devices(
    alloc: Global,
    devices: &[DeviceRow],
) -> Result<Option<Vec<DeviceRow>>, AllocError>
    ensures { IfOk result (IsMerged (map plain_device devices.now)) }
{
    merge_up_to(alloc, devices, WIDEST)
}
