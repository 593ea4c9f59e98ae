//! The motions of the circuits that stand inside a flat one.

ghost use Rattle.std.specs.Prelude.{◌≡◌, ◌∷◌, ◌++◌, [], IfOk, IsErrOf, OnOk, get_or, map};
ghost use Rattle.std.specs.List.{All};
ghost use Rattle.flat_layout.specs.Layout.{Some_of};
ghost use Rattle.geo_base.specs.declared.motion.Motion.{Motion};
ghost use Rattle.part_origins.specs.Inside.{plain_spot};
ghost use Rattle.view_drawing.specs.Far.{IsFarShift};
ghost use Rattle.view_netlist.specs.Drawing.{AreAllSmall, IsSmallShift};
ghost use Rattle.view_joined.specs.Spots.{AreCallMotions, AreMotions, IsCallMotion};
ghost use Rattle.view_joined.specs.Spots.{IsFarCallAt, IsFarSpot, IsSpotMotion, call_motion};
ghost use Rattle.view_joined.specs.Spots.{circuit_at, still};

use geo_base::{Motion, Turn};
use part_origins::{Part, Spot};
use std::alloc::{AllocError, Global};
use view_drawing::is_small_shift;
use view_netlist::Drawing;
use view_shapes::ShowFault;

// No motion.
fn still() -> Motion
    ensures { result ≡ still }
{
    Motion {
        turn: Turn::R0,
        dx: 0,
        dy: 0,
    }
}

/// The motion at a place; none past the last.
pub fn motion_at(motions: &[Motion], i: u32) -> Motion
    ensures { result ≡ get_or motions.now i still }
{
    match motions.get(i as usize) {
        Some(motion) => *motion,
        None => still(),
    }
}

/// The circuit of a spot, 0 past the last.
pub fn circuit_at(spots: &[Spot], i: u32) -> u32
    ensures { result ≡ circuit_at (map plain_spot spots.now) i }
{
    match spots.get(i as usize) {
        Some(spot) => spot.circuit,
        None => 0,
    }
}

// Where a call of a circuit stands in it; where nothing is drawn of it, it isn't moved.
fn call_motion(drawings: &[Drawing], circuit: u32, call: u32) -> Motion
    ensures { result ≡ call_motion drawings.now circuit call }
{
    match drawings.get(circuit as usize) {
        Some(drawing) => motion_at(&drawing.calls, call),
        None => still(),
    }
}

// The motion of a call at a spot: that of the call first, then the spot's.
fn call_at(
    spots: &[Spot],
    drawings: &[Drawing],
    motions: &[Motion],
    call: Part,
) -> Result<Motion, ShowFault>
    requires drawings { AreAllSmall drawings.now }
    requires motions { All IsSmallShift motions.now }
    ensures moved { IfOk result (IsCallMotion (map plain_spot spots.now) drawings.now motions.now
        call) }
    ensures small { IfOk result IsSmallShift }
    ensures far { IsErrOf result ShowFault.TooFar → IsFarCallAt (map plain_spot spots.now)
        drawings.now motions.now call }
{
    let own = call_motion(drawings, circuit_at(spots, call.spot), call.number);
    let outer = motion_at(motions, call.spot);
    let both = own.then(&outer);
    if is_small_shift(&both) {
        return Ok(both);
    }
    Err(ShowFault::TooFar)
}

fn spot_motion(
    spots: &[Spot],
    drawings: &[Drawing],
    motions: &[Motion],
    by: Option<Part>,
) -> Result<Motion, ShowFault>
    requires drawings { AreAllSmall drawings.now }
    requires motions { All IsSmallShift motions.now }
    ensures moved { IfOk result (IsSpotMotion (map plain_spot spots.now) drawings.now motions.now
        by) }
    ensures small { IfOk result IsSmallShift }
    ensures far { IsErrOf result ShowFault.TooFar → (m : Motion)
        × IsSpotMotion (map plain_spot spots.now) drawings.now motions.now by m × IsFarShift m }
{
    match by {
        None => Ok(still()),
        Some(call) => call_at(spots, drawings, motions, call),
    }
}

fn keep(out: &mut Vec<Motion>, motion: Motion) -> Result<(), AllocError>
    requires { IsSmallShift motion }
    ensures kept { OnOk result (out.new.items ≡ out.old.items ++ motion ∷ []) }
    ensures small { OnOk result (All IsSmallShift out.old.items → All IsSmallShift out.new.items) }
{
    out.push(motion)?;
    Ok(())
}

/// For each circuit that stands inside a flat one, how it is moved: along the path of its calls,
/// the innermost first. `drawings` has what is drawn of each circuit, by number. `TooFar` where a
/// motion's shift is 2^30 or more. Linear.
pub fn spot_motions(
    alloc: Global,
    spots: &[Spot],
    drawings: &[Drawing],
) -> Result<Vec<Motion>, ShowFault>
    requires { AreAllSmall drawings.now }
    ensures motions { IfOk result (λ v. AreMotions (map plain_spot spots.now) drawings.now []
        (map plain_spot spots.now) v.items) }
    ensures small { IfOk result (λ v. All IsSmallShift v.items) }
    ensures far { IsErrOf result ShowFault.TooFar → IsFarSpot (map plain_spot spots.now)
        drawings.now [] (map plain_spot spots.now) }
{
    let mut motions = Vec::new(alloc);
    let mut rest = spots;
    'spots: while let [spot, more @ ..] = rest {
        let motion = spot_motion(spots, drawings, &motions, spot.by)?;
        keep(&mut motions, motion)?;
        rest = more;
    }
    Ok(motions)
}

/// The motions of these calls at spots, in order. `TooFar` as for `spot_motions`. Linear.
pub fn joined_calls(
    alloc: Global,
    spots: &[Spot],
    drawings: &[Drawing],
    motions: &[Motion],
    calls: &[Part],
) -> Result<Vec<Motion>, ShowFault>
    requires drawings { AreAllSmall drawings.now }
    requires motions { All IsSmallShift motions.now }
    ensures motions { IfOk result (λ v. AreCallMotions (map plain_spot spots.now) drawings.now
        motions.now calls.now v.items) }
    ensures small { IfOk result (λ v. All IsSmallShift v.items) }
    ensures far { IsErrOf result ShowFault.TooFar → Some_of (IsFarCallAt (map plain_spot spots.now)
        drawings.now motions.now) calls.now }
{
    let mut out = Vec::with_capacity(alloc, calls.len())?;
    let mut rest = calls;
    'calls: while let [call, more @ ..] = rest {
        let motion = call_at(spots, drawings, motions, *call)?;
        keep(&mut out, motion)?;
        rest = more;
    }
    Ok(out)
}
