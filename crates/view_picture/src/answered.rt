//! What is drawn of aligned circuits whose devices are merged once more.

ghost use Rattle.std.specs.Prelude.{◌≡◌, IfOk, map};
ghost use Rattle.net_model.specs.Rows.{plain_circuit};
ghost use Rattle.view_file.specs.Layout.{IsSmallPicture};
ghost use Rattle.view_netlist.specs.Drawing.{AreAllSmall, IsSmallDrawing, plain_drawing};
ghost use Rattle.view_picture.specs.Picture.{AreAllPlaced, IsAnsweredPicture, IsPlacedAs};
ghost use Rattle.view_picture.specs.Picture.{plain_drawings};

use crate::drawings::keep;
use crate::parts::device_places;
use net_model::Circuit;
use std::alloc::{AllocError, Global};
use view_file::Picture;
use view_netlist::Drawing;

// What is drawn of a circuit that is answered as another one.
fn place(
    alloc: Global,
    drawing: Drawing,
    left: &Circuit,
    answered: &Circuit,
) -> Result<Drawing, AllocError>
    requires { IsSmallDrawing (plain_drawing drawing) }
    ensures placed { IfOk result (λ v. IsPlacedAs (plain_circuit answered.now)
        (plain_circuit left.now) (plain_drawing drawing) (plain_drawing v)) }
    ensures small { IfOk result (λ v. IsSmallDrawing (plain_drawing v)) }
{
    let Drawing {
        hull,
        nets,
        devices: places,
        calls,
    } = drawing;
    let devices = device_places(alloc, &answered.devices, &left.devices, places)?;
    Ok(Drawing {
        hull,
        nets,
        devices,
        calls,
    })
}

// What is drawn of these circuits, answered as those.
fn place_all(
    alloc: Global,
    drawings: Vec<Drawing>,
    lefts: &[Circuit],
    answered: &[Circuit],
) -> Result<Vec<Drawing>, AllocError>
    requires { AreAllSmall drawings.items }
    ensures placed { IfOk result (λ v. AreAllPlaced (map plain_circuit answered.now)
        (map plain_circuit lefts.now) (plain_drawings drawings.items) (plain_drawings v.items)) }
    ensures small { IfOk result (λ v. AreAllSmall v.items) }
{
    let mut out = Vec::new(alloc);
    let mut rest = lefts;
    let mut others = answered;
    'drawings: for drawing in drawings {
        let [left, more @ ..] = rest else {
            return Ok(out);
        };
        let [other, further @ ..] = others else {
            return Ok(out);
        };
        let placed = place(alloc, drawing, left, other)?;
        keep(&mut out, placed)?;
        rest = more;
        others = further;
    }
    Ok(out)
}

/// The picture of aligned circuits as they are answered: these circuits, each group of alike
/// transistors being one once more, or the same. A device stands where the first of those stands that
/// it was made of. Linear.
pub fn answered_picture(
    alloc: Global,
    picture: Picture,
    lefts: &[Circuit],
    answered: &[Circuit],
) -> Result<Picture, AllocError>
    requires { IsSmallPicture picture }
    ensures picture { IfOk result (IsAnsweredPicture (map plain_circuit answered.now)
        (map plain_circuit lefts.now) picture) }
    ensures small { IfOk result IsSmallPicture }
{
    let Picture {
        names,
        drawings,
        regions,
    } = picture;
    let placed = place_all(alloc, drawings, lefts, answered)?;
    Ok(Picture {
        names,
        drawings: placed,
        regions,
    })
}
